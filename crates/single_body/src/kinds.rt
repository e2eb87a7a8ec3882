// The three bodies of one element: a TPC Request (802.11h 7.4.1.3), a TPC Report (7.4.1.4) and a Channel Switch Announcement (7.4.1.5).
ghost use Rattle.std.specs.Prelude.{◌≡◌};
ghost use Rattle.single_body.specs.Kinds.{id_of, fields_before};

use element::channel_switch::ChannelSwitch;
use element::tpc_report::TpcReport;
use element::{channel_switch, tpc_report, tpc_request};

// Kept as an enum: what `read` promises says `id_of` and `contents_mean` of it.
#[derive(Clone, Copy)]
pub enum Kind {
    TpcRequest,
    TpcReport,
    ChannelSwitch,
}

// What the element of such a body says.
#[derive(Clone, Copy)]
pub enum Single {
    TpcRequest,
    TpcReport(TpcReport),
    ChannelSwitch(ChannelSwitch),
}

impl Kind {
    // The ID of its element.
    pub fn id(self) -> u8
        ensures { result ≡ id_of self }
    {
        match self {
            Kind::TpcRequest => tpc_request::ID,
            Kind::TpcReport => tpc_report::ID,
            Kind::ChannelSwitch => channel_switch::ID,
        }
    }

    // How many octets stand before the element.
    pub fn fixed_fields(self) -> usize
        ensures { result ≡ fields_before self }
    {
        match self {
            Kind::TpcRequest | Kind::TpcReport => action::FIXED_FIELDS,
            Kind::ChannelSwitch => action::SWITCH_FIXED_FIELDS,
        }
    }
}
