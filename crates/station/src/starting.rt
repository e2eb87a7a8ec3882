// Starting a station (document 01, "Answer numbers", 15).
ghost use Rattle.std.specs.Prelude.{◌≡◌, IfOk};
ghost use Rattle.station.specs.Starting.{blank, start_forbids, start_means};
ghost use Rattle.station.specs.Stations.{fresh};
ghost use Rattle.station.specs.Validity.{Valid};

use crate::Station;
use answer::Refusal;

impl Station {
    // A station at moment 0 that has heard nothing.
    fn fresh(own: [u8; 6], ap: [u8; 6], interval: u16, channel: u8) -> Station
        ensures { result ≡ fresh own ap interval channel }
    {
        Station {
            own,
            ap,
            interval,
            clock: 0,
            channel,
            power: None,
            pending: None,
            schedules: [Station::NO_SCHEDULE; Station::SCHEDULE_LIMIT],
            count: 0,
            until: 0,
        }
    }

    // What stands where there is no station: its interval is 0, so that no call may be handed it.
    pub fn nobody() -> Station
        ensures { result ≡ blank }
    {
        let address = [0u8; 6];
        Station::fresh(address, address, 0, 0)
    }

    // The interval is 0, the channel is none, or an address is a group's.
    pub fn is_bad_start(own: [u8; 6], ap: [u8; 6], interval: u16, channel: u8) -> bool
        ensures { result ≡ start_forbids own ap interval channel }
    {
        interval == 0 || Station::CHANNEL_LIMIT < channel || own[0] % 2 == 1 || ap[0] % 2 == 1
    }

    // Four as yet: C hands each apart, but a record of a capture has them as one (capture_record::Settings).
    #[tactic(auto, unfolding(crate::specs::Starting::start_means, answer::specs::Checks::checked), using(crate::proofs::StaysValid::valid_fresh))]
    pub fn start(own: [u8; 6], ap: [u8; 6], interval: u16, channel: u8) -> Result<Station, Refusal>
        ensures value { result ≡ start_means own ap interval channel }
        ensures valid { IfOk result Valid }
    {
        if Station::is_bad_start(own, ap, interval, channel) {
            return Err(Refusal::BadStart);
        }
        Ok(Station::fresh(own, ap, interval, channel))
    }
}
