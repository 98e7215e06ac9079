// The call that reads all stripes: sweep. It requires nothing: it asks `refusals` first, and is made where that lets it through.
#![tactic(auto)]

mod sweeping;

pub use sweeping::sweep;
