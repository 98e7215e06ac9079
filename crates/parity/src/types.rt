// A stripe with two gaps: its places on all disks but `out` and the parity's. A disk has `stripes` blocks of len bytes.
#[derive(Clone, Copy)]
pub struct Gapped {
    pub disks: usize,
    pub stripes: usize,
    pub len: usize,
    pub stripe: usize,
    pub out: usize,
    pub parity: usize,
}
