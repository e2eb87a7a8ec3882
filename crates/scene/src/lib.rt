// The part of `run_scenes` that asks neither for a frame that is read nor for a station: a line of the scenes and the call on it, the octets of a frame,
// numbers, and elements as they are read and written. `run_scenes` says how a scene is written.
// It promises no more than to run: what it prints is compared with what the scene must give.
#![tactic(auto)]

pub mod alone;
pub mod answers;
pub mod call;
pub mod fields;
pub mod last;
pub mod line;
pub mod made;
mod numbers;
pub mod page;
mod reads;
pub mod replies;
pub mod say;
pub mod verb;
mod word;
mod writes;
