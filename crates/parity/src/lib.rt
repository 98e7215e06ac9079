// A write folded into its parity, in two ways: over its old block (a read-modify-write), and over the other disks where that block's disk
// is out (a reconstruct-write). Bytes only, straight from the images, and no array. (A crate of its own: in one with `blocks` a check, and
// so each must-fail edit of either, took three quarters of a minute.)
#![tactic(auto)]

mod modify;
mod reconstruct;
mod types;

pub use modify::fold_parity;
pub use reconstruct::fold_others;
pub use types::Gapped;
