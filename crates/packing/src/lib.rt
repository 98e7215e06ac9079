// Scan points packed side by side, and unpacked: the functions of crate `points`'s definitions, from one lent slice into another.
#![tactic(auto)]

mod packing;
mod point;
mod refusal;
mod unpacking;

pub use packing::pack;
pub use refusal::BadPoints;
pub use unpacking::unpack;
