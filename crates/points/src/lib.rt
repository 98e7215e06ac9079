// Scan points packed side by side, and unpacked: bytes only. Document 02, (e). It knows no record and no images. Their functions are crate
// `packing`.

#![tactic(auto)]

// The two bytes of a point or of a difference. All low ones are packed first, then all high ones. An enum, and no shift or flag: one
// function and one proof serve both.
#[derive(Clone, Copy)]
pub enum Side {
    Low,
    High,
}
