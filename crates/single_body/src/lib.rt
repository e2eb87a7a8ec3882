// Action bodies of one element (document 01, "Octets": actions 2, 3 and 4; 802.11h 7.4.1.3 to 7.4.1.5): read and written.
#![tactic(auto)]

mod kinds;
mod reading;
mod writing;

pub use kinds::{Kind, Single};
pub use reading::read;
pub use writing::{write_channel_switch, write_tpc_report, write_tpc_request};
