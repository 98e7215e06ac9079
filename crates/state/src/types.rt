// All disks are in; two were out at once, and nothing can be read until a new format; the one that is out; or the one that is being
// rebuilt, with the stripes of it that are done: those below that number.
#[derive(Clone, Copy, PartialEq, Eq, Debug)]
pub enum Health {
    Whole,
    Lost,
    Out(u8),
    Rebuilding { disk: u8, done: u32 },
}

// n old disks, m new ones (0 before growth), B the block length, T stripes, t moves done.
#[derive(Clone, Copy, PartialEq, Eq, Debug)]
pub struct Record {
    pub old: u8,
    pub new: u8,
    pub health: Health,
    pub block: u16,
    pub stripes: u32,
    pub moves: u32,
}
