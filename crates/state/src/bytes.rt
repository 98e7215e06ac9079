// The record's bytes, in and out. Reading tests nothing: `is_plain` and `is_good` are apart, so that no caller tests twice. Offsets are
// bare numbers, as in `RoundTrip.offsets`: a named one would ask for a proof of each sum, and save no edit. (The bytes stay a slice, whose
// length contracts ask for: `[u8; 20]` would ask more of those who are lent a slice.)
ghost use Rattle.std.specs.Prelude.{◌≡◌, length};
ghost use Rattle.state.specs.Bytes.{record_length, done_from, health_of, decode, health_plain, plain};
ghost use Rattle.state.specs.Bytes.{health_byte, disk_byte, stripes_done, encode};

use crate::types::{Health, Record};
use blocks::{join_four, join_two};

// How many they are: `record_length`.
pub const RECORD_LENGTH: usize = 20;

// The stripes done that the bytes spell.
fn done_from(bytes: &[u8]) -> u32
    requires { length bytes.now ≡ record_length }
    ensures { result ≡ done_from bytes.now }
{
    join_four(bytes[16], bytes[17], bytes[18], bytes[19])
}

// Is the health byte 0 to 3, are the stripes done zero unless it is 3, and is the disk unless it is 1 or 3?
fn health_is_plain(h: u8, d: u8, done: u32) -> bool
    ensures { result ≡ health_plain h d done }
{
    match h {
        0 | 2 => d == 0 && done == 0,
        1 => done == 0,
        3 => true,
        _ => false,
    }
}

// Are these the bytes of a record, good or not?
#[tactic(auto, unfolding(crate::specs::Bytes::plain))]
pub fn is_plain(bytes: &[u8]) -> bool
    requires { length bytes.now ≡ record_length }
    ensures { result ≡ plain bytes.now }
{
    health_is_plain(bytes[2], bytes[3], done_from(bytes)) && bytes[6] == 0 && bytes[7] == 0
}

// The health that its byte, the disk's and the stripes done spell.
fn health_from(h: u8, d: u8, done: u32) -> Health
    ensures { result ≡ health_of h d done }
{
    match h {
        0 => Health::Whole,
        1 => Health::Out(d),
        2 => Health::Lost,
        _ => Health::Rebuilding { disk: d, done },
    }
}

// The record that the bytes spell. (Its numbers by `join_two` and `join_four`, which have no array: a write of C reads the record by this.)
#[tactic(auto, unfolding(crate::specs::Bytes::decode))]
pub fn decode(bytes: &[u8]) -> Record
    requires { length bytes.now ≡ record_length }
    ensures { result ≡ decode bytes.now }
{
    Record {
        old: bytes[0],
        new: bytes[1],
        health: health_from(bytes[2], bytes[3], done_from(bytes)),
        block: join_two(bytes[4], bytes[5]),
        stripes: join_four(bytes[8], bytes[9], bytes[10], bytes[11]),
        moves: join_four(bytes[12], bytes[13], bytes[14], bytes[15]),
    }
}

// Byte 2. (A number for each kind, as document 01 has the record's bytes.)
pub fn health_byte(health: Health) -> u8
    ensures { result ≡ health_byte health }
{
    match health {
        Health::Whole => 0,
        Health::Out(_) => 1,
        Health::Lost => 2,
        Health::Rebuilding { .. } => 3,
    }
}

// Byte 3: zero unless a disk is out or being rebuilt.
pub fn disk_byte(health: Health) -> u8
    ensures { result ≡ disk_byte health }
{
    match health {
        Health::Out(disk) | Health::Rebuilding { disk, .. } => disk,
        _ => 0,
    }
}

// Bytes 16 to 19: zero unless a disk is being rebuilt.
pub fn stripes_done(health: Health) -> u32
    ensures { result ≡ stripes_done health }
{
    match health {
        Health::Rebuilding { done, .. } => done,
        _ => 0,
    }
}

// Writes the record's bytes.
pub fn encode(r: Record, bytes: &mut [u8])
    requires { length bytes.old ≡ record_length }
    ensures { bytes.new ≡ encode r }
{
    bytes[0] = r.old;
    bytes[1] = r.new;
    bytes[2] = health_byte(r.health);
    bytes[3] = disk_byte(r.health);
    bytes[4..6].copy_from_slice(&r.block.to_le_bytes());
    bytes[6..8].fill(0);
    bytes[8..12].copy_from_slice(&r.stripes.to_le_bytes());
    bytes[12..16].copy_from_slice(&r.moves.to_le_bytes());
    bytes[16..20].copy_from_slice(&stripes_done(r.health).to_le_bytes());
}
