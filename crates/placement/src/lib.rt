// Where everything stands, and which move comes next: the functions of crate `layout`'s definitions. Numbers only, of 32 bits, which hold
// them all: no array has more than 2^25 blocks or 2^23 moves. (Before it divides numbers of 64 bits the compiler asks each time if 32 will
// do.) Only a block is asked for by any number; a stripe or disk that a caller gives in 64 bits is tested before it is cast.
#![tactic(auto)]

mod blanks;
mod choice;
mod closed;
mod coded;
mod home;
mod moves;
mod placing;
mod row;

pub use moves::{cursor_of, move_of, next_move};
pub use placing::{
    all_moved, capacity_of, has_block, moves_fit, open_stripes, owner_of, place_of, slot_of,
    total_of,
};
pub use row::Row;
