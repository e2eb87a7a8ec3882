// Bodies of measurement elements (document 01, "Octets": actions 0 and 1): read in one walk, and written one element at a time after what
// is there.
#![tactic(auto)]

mod bodies;
mod judging;
mod kinds;
pub mod reports;
pub mod requests;
mod surveying;

pub use kinds::Kind;
pub use surveying::{Surveyed, survey};
