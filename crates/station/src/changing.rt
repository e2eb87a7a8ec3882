// What a frame changes of a station, but for its schedules (document 01, "The station"; 802.11h 11.6.7).
ghost use Rattle.std.specs.Prelude.{◌≡◌};
ghost use Rattle.station.specs.Rests.{at_once, rest_switched, rest_constrained, rest_announced};

use element::channel_switch::ChannelSwitch;
use element::power_constraint::PowerConstraint;
use pending::Switch;

// Whether an announcement is the switch itself: its count is 0.
pub fn is_at_once(switch: Option<ChannelSwitch>) -> bool
    ensures { result ≡ at_once switch }
{
    switch.is_some_and(|announcement| announcement.count == 0)
}

// What a station keeps beside its addresses and its schedules, which are long to copy.
#[derive(Clone, Copy)]
pub struct Rest {
    pub interval: u16,
    pub clock: u32,
    pub channel: u8,
    pub power: Option<PowerConstraint>,
    pub pending: Option<Switch>,
    pub until: u64,
}

impl Rest {
    // On another channel nothing of the old one holds: what runs on of older schedules, constraint and pending switch are gone.
    pub fn switched(self, channel: u8) -> Rest
        ensures { result ≡ rest_switched self channel }
    {
        Rest {
            channel,
            power: None,
            pending: None,
            until: 0,
            ..self
        }
    }

    // A Power Constraint, if there is one, takes the place of the latest. Kept as a match: where there is none, nothing is put together.
    pub fn constrained(self, power: Option<PowerConstraint>) -> Rest
        ensures { result ≡ rest_constrained self power }
    {
        match power {
            None => self,
            Some(_) => Rest { power, ..self },
        }
    }

    // An announcement, if there is one, takes the place of any that is pending: its moment, its mode and its channel count. Its count is one of TBTTs, not
    // of intervals from now; a count of 0 is the switch itself.
    pub fn announced(self, switch: Option<ChannelSwitch>) -> Rest
        ensures { result ≡ rest_announced self switch }
    {
        match switch {
            None => self,
            Some(announcement) if announcement.count == 0 => self.switched(announcement.channel),
            Some(announcement) => Rest {
                pending: Some(Switch::set_by(announcement, self.clock, self.interval)),
                ..self
            },
        }
    }
}
