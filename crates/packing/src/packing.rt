// The way there, lane by lane: of a loop over single points the compiler makes vectors of eight, which had 0.7 of the speed of C by hand.
ghost use Rattle.std.specs.Prelude.{◌≡◌, ◌+◌, ◌-◌, ◌*◌, ◌<◌, ◌≤◌, length, slice_index};
ghost use Rattle.blocks.specs.Block.{block_at};
ghost use Rattle.packing.specs.Number.{number_of};
ghost use Rattle.points.specs.Answer.{answer, filled};
ghost use Rattle.points.specs.Part.{differences_of, sides, part_packed, EvenAndAlike};
ghost use Rattle.points.specs.Points.{half, packed};

use crate::point::point_at;
use crate::refusal::{BadPoints, check};
use blocks::store_bytes;
use points::Side;

// How many points are packed at once.
const LANE: usize = 16;

// The difference of point i from the one before. (That one is read once more, and not kept from turn to turn: so the compiler can take
// many at once. Kept, it took six times as long in a trial.)
fn difference_at(source: &[u8], i: usize) -> u16
    requires { (1 ≤ i) × (2 * i + 1 < length source.now) }
    ensures difference { result ≡ slice_index (differences_of source.now) i }
{
    let point = point_at(source, i);
    let before = point_at(source, i - 1);
    point.wrapping_sub(before)
}

// One byte of it.
fn byte_at(source: &[u8], i: usize, s: Side) -> u8
    requires { (1 ≤ i) × (2 * i + 1 < length source.now) }
    ensures byte { result ≡ slice_index (sides s source.now) i }
{
    let [low, high] = difference_at(source, i).to_le_bytes();
    match s {
        Side::Low => low,
        Side::High => high,
    }
}

// One byte of each of sixteen differences, from the i-th on, which the compiler takes together. (One function for both bytes costs
// nothing: it is inlined twice.)
fn lane_at(source: &[u8], i: usize, s: Side) -> [u8; LANE]
    requires { (1 ≤ i) × (2 * (i + 16) ≤ length source.now) }
    ensures lane { result ≡ block_at (sides s source.now) i 16 }
{
    let mut lane = [0; LANE];
    for k in 0..LANE {
        lane[k] = byte_at(source, i + k, s);
    }
    lane
}

// Packs sixteen points, from i on. Both lanes are there before either is stored, as the compiler cannot tell two lent slices apart.
// (Source and target are no struct with their likeness as a ghost field: each function here would have to promise as well that the struct
// still holds these two slices.)
fn pack_lane(source: &[u8], target: &mut [u8], i: usize)
    requires { EvenAndAlike source.now target.old × (1 ≤ i) × (i + 16 ≤ half source.now) }
    ensures target { target.new ≡ part_packed source.now target.old i 16 }
{
    let low = lane_at(source, i, Side::Low);
    let high = lane_at(source, i, Side::High);
    store_bytes(target, i, &low);
    store_bytes(target, source.len() / 2 + i, &high);
}

// Packs points from the second on, lane by lane, as far as lanes go. Answers where they end: any end would do, as the rest is packed
// one by one. (Lanes are counted, and not points by `step_by`, which compares twice a turn: three instructions more for each lane. By the
// `%` the compiler sees that fewer than sixteen points are left, so that it makes no vectors of those.)
fn pack_lanes(source: &[u8], target: &mut [u8]) -> usize
    requires { EvenAndAlike source.now target.old × (1 ≤ half source.now) }
    ensures end { (1 ≤ result) × (result ≤ half source.now) }
    ensures target { target.new ≡ part_packed source.now target.old 1 (result - 1) }
{
    let half = source.len() / 2;
    for lane in 0..(half - 1) / LANE {
        pack_lane(source, target, 1 + LANE * lane);
    }
    half - (half - 1) % LANE
}

// Packs points from `first` on, one by one, to the end.
fn pack_points(source: &[u8], target: &mut [u8], first: usize)
    requires { EvenAndAlike source.now target.old × (1 ≤ first) × (first ≤ half source.now) }
    ensures target { target.new ≡
        part_packed source.now target.old first (half source.now - first) }
{
    let half = source.len() / 2;
    for i in first..half {
        let [low, high] = difference_at(source, i).to_le_bytes();
        target[i] = low;
        target[half + i] = high;
    }
}

// Packs the source into the target. The first point, from 0, is its own difference.
fn pack_all(source: &[u8], target: &mut [u8])
    requires { EvenAndAlike source.now target.old }
    ensures target { target.new ≡ packed source.now }
{
    let half = source.len() / 2;
    if half == 0 {
        return;
    }
    let [low, high] = point_at(source, 0).to_le_bytes();
    target[0] = low;
    target[half] = high;
    let i = pack_lanes(source, target);
    pack_points(source, target, i);
}

// Fills the target with the source's points, packed. (Clause `source` says what the type does, that the source stays: document 01's
// reviewer asks for a clause on all that is lent.)
pub fn pack(source: &[u8], target: &mut [u8]) -> Result<(), BadPoints>
    ensures answer { number_of result ≡ answer source.now target.old }
    ensures source { source.exit.now ≡ source.entry.now }
    ensures target { target.new ≡ filled packed source.now target.old }
{
    check(source, target)?;
    pack_all(source, target);
    Ok(())
}
