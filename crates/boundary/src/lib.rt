// What programs in C and Rust call: functions on numbers and octets that keep nothing between calls (docs/BOUNDARY.md).
// Kept as numbers, and one exported function a call: C knows neither Rattle's enums nor generics.
#![tactic(auto)]

mod bodies;
mod codes;
mod element_fields;
mod elements;
mod frame_fields;
mod given;
mod ibss;
mod ibss_fields;
mod lists;
mod numbers;
mod reading;
mod received;
mod replies;
mod stations;
mod whole;

pub use bodies::{
    oneiralth_append_report, oneiralth_append_request, oneiralth_write_channel_switch_body,
    oneiralth_write_tpc_report_body, oneiralth_write_tpc_request_body,
};
pub use elements::{
    oneiralth_write_channel_switch, oneiralth_write_ibss_dfs, oneiralth_write_power_constraint,
    oneiralth_write_quiet, oneiralth_write_report, oneiralth_write_request,
    oneiralth_write_tpc_report, oneiralth_write_tpc_request,
};
pub use ibss::{
    oneiralth_ibss_fault_offset, oneiralth_read_dfs_pair, oneiralth_read_ibss_frame,
    oneiralth_read_ibss_quiet,
};
pub use lists::oneiralth_list;
pub use numbers::{oneiralth_busy_fraction, oneiralth_centre, oneiralth_rpi_densities};
pub use reading::{
    oneiralth_fault_offset, oneiralth_read_frame, oneiralth_read_quiet, oneiralth_read_report,
    oneiralth_read_request,
};
pub use replies::{oneiralth_reply_to_measurement_request, oneiralth_reply_to_tpc_request};
pub use stations::{
    oneiralth_station_advance, oneiralth_station_ask,
    oneiralth_station_reply_to_measurement_request, oneiralth_station_reply_to_tpc_request,
    oneiralth_station_size, oneiralth_station_start, oneiralth_station_take,
};
