// The places of one stripe on the disks from `first` to before `last`, but for disk `out`, summed at once. A disk has `stripes` blocks.
#[derive(Clone, Copy)]
pub struct Group {
    pub stripes: usize,
    pub stripe: usize,
    pub out: usize,
    pub first: usize,
    pub last: usize,
}
