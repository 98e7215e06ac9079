// The calls that reach one block: read, view and write. None requires anything: each asks
// `refusals` first, and is made where that lets it through.
#![tactic(auto)]

mod reading;
mod types;
mod viewing;
mod writing;

pub use reading::read;
pub use types::Viewed;
pub use viewing::view;
pub use writing::write;
