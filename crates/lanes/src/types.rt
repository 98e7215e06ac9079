// Four of a kind, one after the other.
#[derive(Clone, Copy)]
pub struct Four<T> {
    pub a: T,
    pub b: T,
    pub c: T,
    pub d: T,
}

// Sixteen bytes side by side.
pub type Lane = Four<Four<u8>>;

// Four lanes.
pub type Quad = Four<Lane>;
