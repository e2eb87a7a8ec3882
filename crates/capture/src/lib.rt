// The capture and its list (document 01, "Capture blocks and the evening list").
#![tactic(auto)]

mod feeding;
mod lister;
mod listing;
mod noting;
mod parts;
mod plain;
mod response;

pub use feeding::Listing;
pub use lister::Lister;
