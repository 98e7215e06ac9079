// One block inside the images: zeroed, copied, moved, xored and tested for zeroes, and the places of a stripe; and bytes as a number. Bytes
// only; no layout and no record.
#![tactic(auto)]

mod copy;
mod number;
mod place;
mod stripe;
mod sum;
mod types;
mod xor;
mod zero;

pub use copy::{copy_out, move_block, store_bytes, zero_block};
pub use number::{join_four, join_two};
pub use place::offset_of;
pub use stripe::rebuild_place;
pub use sum::{GROUP, xor_others};
pub use types::Group;
pub use zero::{cancels, is_zero};
