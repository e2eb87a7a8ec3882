// Octets (document 01, "Octets"): numbers with the least significant octet first, signed octets, and a writer into a lent
// buffer.
#![tactic(auto)]

mod numbers;
mod signed;
mod writing;

pub use numbers::{
    address_at, number16, number32, number64, octet_at, octets16, octets32, octets64,
};
pub use signed::{from_signed, to_signed};
pub use writing::put;
