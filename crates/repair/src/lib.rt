// The calls on a disk that fails and is rebuilt: out, begin and continue. None requires anything: each asks
// `refusals` first, and is made where that lets it through.
#![tactic(auto)]

mod failing;
mod rebuilding;

pub use failing::out;
pub use rebuilding::{begin_rebuild, continue_rebuild};
