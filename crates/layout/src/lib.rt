// The layout of a growing RAID-5 array: who stands where after t moves, and which move comes next. Numbers only. Letters: n old disks, m
// new disks, t moves done, s a stripe, d and e disks, b a block, k a move's index. The definitions are specs/, which follow document 01;
// their functions are crate `placement`.
#![tactic(auto)]

// Block `stripe` of disk `disk`.
#[derive(Clone, Copy)]
pub struct Place {
    pub stripe: u32,
    pub disk: u32,
}

// Where a block stands: its place, that of its stripe's parity, and whether a move, of any growth, carried the block itself. (No Option:
// the place stands in both cases.)
#[derive(Clone, Copy)]
pub struct Standing {
    pub block: Place,
    pub parity: Place,
    pub moved: bool,
}

// What a place holds: a block by its number, its stripe's parity, or nothing.
#[derive(Clone, Copy)]
pub enum Role {
    Data(u32),
    Parity,
    Blank,
}

// An array: n disks before this growth, m new ones (0: none yet), T stripes, t moves done.
#[derive(Clone, Copy)]
pub struct Geometry {
    pub old: u32,
    pub new: u32,
    pub stripes: u32,
    pub moves: u32,
}

// A move: its zone, its stripe in the zone and in the array, the disk it leaves, the disk it goes to.
#[derive(Clone, Copy)]
pub struct Move {
    pub zone: u32,
    pub within: u32,
    pub stripe: u32,
    pub from: u32,
    pub to: u32,
}

// A move, with what it takes to count on to the next: its index, its lag i, and the disk that the move with lag 0 to its new disk leaves.
// By the index a contract says which move it is at, with no ghost argument.
#[derive(Clone, Copy)]
pub struct Cursor {
    pub index: u32,
    pub lag: u32,
    pub base: u32,
    pub stripe: u32,
    pub from: u32,
    pub to: u32,
}

// A stripe taken apart once, so that no question about one of its disks divides again: its number, its zone, its place in the zone, and
// the disk of its parity before the growth.
#[derive(Clone, Copy)]
pub struct Stripe {
    pub number: u32,
    pub zone: u32,
    pub within: u32,
    pub home: u32,
}

// What tells a block's disk in its stripe: of a block of before the growth the disk on which it stood, of a new one which of the blanks it
// is.
#[derive(Clone, Copy)]
pub enum Seat {
    Old(u32),
    New(u32),
}

// A block's stripe, taken apart, and its seat there.
#[derive(Clone, Copy)]
pub struct Slot {
    pub stripe: Stripe,
    pub seat: Seat,
}

// The disk on which stands what stood on another, and whether a move carried it there. (No Option: the disk stands in both cases.)
#[derive(Clone, Copy)]
pub struct Carried {
    pub disk: u32,
    pub moved: bool,
}

// The blanks of a stripe whose moves have all been made, run by run: the first disk of the first run and of the second, and the
// blanks in the first run, in the first two (all old disks left) and in the first three.
#[derive(Clone, Copy)]
pub struct Runs {
    pub low: u32,
    pub high: u32,
    pub some: u32,
    pub left: u32,
    pub early: u32,
}
