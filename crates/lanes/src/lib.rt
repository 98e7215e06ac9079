// Bytes in the fields of structs, and not in an array, loaded from a slice, xored and stored together: one, sixteen, which the compiler
// takes as one register, or four times sixteen.
#![tactic(auto)]

mod four;
mod types;
mod wide;

pub use types::{Four, Lane, Quad};
pub use wide::{Quarter, Wide};
