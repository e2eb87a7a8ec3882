// A pending channel switch (document 01, "The station"; 802.11h 11.6.7).
#![tactic(auto)]

ghost use Rattle.std.specs.Prelude.{◌≡◌, Some, ◌*◌, ◌/◌};
ghost use Rattle.pending.specs.Waiting.{pending_by, silences, up_to, comes_before};

use element::channel_switch::ChannelSwitch;

// A switch that is to come: its moment, the mode of its announcement, and the channel.
#[derive(Clone, Copy)]
pub struct Switch {
    pub at: u64,
    pub mode: u8,
    pub channel: u8,
}

// The latest TBTT at a moment: moment 0 and every multiple of the interval is one.
fn latest_tbtt(clock: u32, interval: u16) -> u32
    ensures { result ≡ clock / interval * interval }
{
    if interval == 0 {
        return 0;
    }
    clock - clock % u32::from(interval)
}

impl Switch {
    // The switch that an announcement sets at a moment: its count is one of TBTTs, so it runs from the latest and not from the moment of arrival.
    // Every term has a narrow type, so nothing wraps.
    pub fn set_by(switch: ChannelSwitch, clock: u32, interval: u16) -> Switch
        ensures { Some result ≡ pending_by switch (clock / interval) interval }
    {
        let tbtt = latest_tbtt(clock, interval);
        Switch {
            at: u64::from(tbtt) + u64::from(switch.count) * u64::from(interval),
            mode: switch.mode,
            channel: switch.channel,
        }
    }
}

// Whether nothing may be sent until the switch.
pub fn silences(pending: Option<Switch>) -> bool
    ensures { result ≡ silences pending }
{
    pending.is_some_and(|switch| switch.mode == 1)
}

// The end, or the switch where that comes first.
pub fn up_to(pending: Option<Switch>, end: u64) -> u64
    ensures { result ≡ up_to pending end }
{
    pending.map_or(end, |switch| switch.at.min(end))
}

// Whether the switch lies before the end.
pub fn comes_before(pending: Option<Switch>, end: u64) -> bool
    ensures { result ≡ comes_before pending end }
{
    pending.is_some_and(|switch| switch.at < end)
}
