// The record of an array: its fields, which ones are good, its bytes, and those that calls leave. Contracts cite the definitions of
// specs/, which follow document 01.
#![tactic(auto)]

mod bytes;
mod checking;
mod good;
mod types;
mod update;

pub use bytes::{RECORD_LENGTH, decode, disk_byte, encode, health_byte, is_plain, stripes_done};
pub use checking::{Array, checked};
pub use good::{block_is_good, geometry_of, is_good, new_is_good, old_is_good, stripes_are_good};
pub use types::{Health, Record};
pub use update::{formatted, grown_by, with_health, with_moves};
