// The calls that make the array and grow it: format, grow and advance. None requires anything: each asks
// `refusals` first, and is made where that lets it through.
#![tactic(auto)]

mod advancing;
mod formatting;
mod growing;

pub use advancing::advance;
pub use formatting::format;
pub use growing::grow;
