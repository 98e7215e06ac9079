// The records that calls leave.
ghost use Rattle.std.specs.Prelude.{◌≡◌};
ghost use Rattle.state.specs.Update.{formatted, grown_by, with_moves, with_health};

use crate::types::{Health, Record};

// As format leaves it.
pub fn formatted(n: u8, block: u16, stripes: u32) -> Record
    ensures { result ≡ formatted n block stripes }
{
    Record {
        old: n,
        new: 0,
        health: Health::Whole,
        block,
        stripes,
        moves: 0,
    }
}

// With m new disks, and no move done.
pub fn grown_by(r: Record, m: u8) -> Record
    ensures { result ≡ grown_by r m }
{
    Record {
        new: m,
        moves: 0,
        ..r
    }
}

// With so many moves done.
pub fn with_moves(r: Record, moves: u32) -> Record
    ensures { result ≡ with_moves r moves }
{
    Record { moves, ..r }
}

// With another health.
pub fn with_health(r: Record, health: Health) -> Record
    ensures { result ≡ with_health r health }
{
    Record { health, ..r }
}
