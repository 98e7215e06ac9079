// What view answers.
use refusals::Refusal;

// Before the part is taken: it begins at this byte of the images, or it is the scratch. (No Option: neither is the lack of the other, and
// `View` of crate `calls` names both.)
#[derive(Clone, Copy)]
pub(crate) enum Choice {
    Part(usize),
    Scratch,
}

// The bytes that are shown; what the call has left of the scratch; and whether it was let through. (No Result around the view: that of a
// refused call is the empty one with which the images begin, as `ViewBegins.refused` has it.)
#[derive(Clone, Copy)]
pub struct Viewed<'a> {
    pub view: &'a [u8],
    pub left: &'a [u8],
    pub outcome: Result<(), Refusal>,
}
