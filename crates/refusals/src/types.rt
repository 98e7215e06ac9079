// What the calls answer. In document 01's numbers and values: specs/Answers.antt.
ghost use Rattle.std.specs.Prelude.{◌≡◌};
ghost use Rattle.refusals.specs.Answers.{refusal_number};

use state::{Health, Record};

// Why a call is refused: the words of document 01, by its numbers.
#[derive(Clone, Copy, Debug, PartialEq, Eq)]
pub enum Refusal {
    Record = 1,
    Lost = 2,
    Degraded = 3,
    Grown = 4,
    NothingToMove = 5,
    Geometry = 6,
    Images = 7,
    PastTheEnd = 8,
    BlockLength = 9,
    Disk = 10,
}

impl From<Refusal> for u8 {
    ghost from_gives = { λ e k. k ≡ refusal_number e };

    fn from(e: Refusal) -> u8 {
        e as u8
    }
}

// Of advance and continue: the moves or stripes made, and the record that the call leaves.
#[derive(Clone, Copy)]
pub struct Progress {
    pub made: u64,
    pub rec: Record,
}

// Of status.
#[derive(Clone, Copy)]
pub struct Figures {
    pub capacity: u64,
    pub moves: u64,
    pub total: u64,
    pub health: Health,
}

// Of sweep: the first stripe that is not sound, if there is one, and the stripes read.
#[derive(Clone, Copy)]
pub struct Swept {
    pub unsound: Option<u64>,
    pub read: u64,
}
