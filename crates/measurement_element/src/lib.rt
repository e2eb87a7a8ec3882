// The elements of measurements (document 01, "Octets"; 802.11h 7.3.2.21 and 7.3.2.22): for each its record, a reader of its contents, and a writer.
#![tactic(auto)]

mod found;
pub mod measurement_report;
pub mod measurement_request;
mod span;

pub use found::Found;
pub use span::Span;
