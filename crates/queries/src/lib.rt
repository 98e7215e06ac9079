// The calls that answer from the record alone: status, locate and owner. None requires anything: each asks
// `refusals` first, and is made where that lets it through.
#![tactic(auto)]

mod asking;

pub use asking::{locate, owner, status};
