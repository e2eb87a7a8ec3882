// The elements of spectrum management (document 01, "Octets"; 802.11h 7.3.2) but for those of measurements: for each its record, a reader of its
// contents, which are the part of the frame that begins at them, and a writer.
#![tactic(auto)]

pub mod channel_switch;
pub mod ibss_dfs;
pub mod power_constraint;
pub mod quiet;
pub mod tpc_report;
pub mod tpc_request;
