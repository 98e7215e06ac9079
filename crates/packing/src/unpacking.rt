// The way back, in two loops: the first, in which no turn waits for another, is done many at once by the compiler. (As one loop it took 1.3
// times as long.)
ghost use Rattle.std.specs.Prelude.{◌≡◌, ◌+◌, ◌*◌, ◌<◌, length};
ghost use Rattle.packing.specs.Number.{number_of};
ghost use Rattle.points.specs.Answer.{answer, filled};
ghost use Rattle.points.specs.Part.{with_point, EvenAndAlike};
ghost use Rattle.points.specs.Points.{Even, points_of, bytes_of, from_sides, sums, unpacked};

use crate::point::point_at;
use crate::refusal::{BadPoints, check};

// Stores p as point i.
fn store_point(target: &mut [u8], i: usize, p: u16)
    requires { 2 * i + 1 < length target.old }
    ensures target { target.new ≡ with_point target.old i p }
{
    let [low, high] = p.to_le_bytes();
    target[2 * i] = low;
    target[2 * i + 1] = high;
}

// Puts the two bytes of each difference together again.
fn join_sides(source: &[u8], target: &mut [u8])
    requires { EvenAndAlike source.now target.old }
    ensures target { target.new ≡ bytes_of (from_sides source.now) }
{
    let half = source.len() / 2;
    for i in 0..half {
        store_point(target, i, u16::from_le_bytes([source[i], source[half + i]]));
    }
}

// Adds each difference to the point before.
fn add_up(target: &mut [u8])
    requires { Even target.old }
    ensures target { target.new ≡ bytes_of (sums (points_of target.old)) }
{
    let mut point: u16 = 0;
    for i in 0..target.len() / 2 {
        point = point.wrapping_add(point_at(target, i));
        store_point(target, i, point);
    }
}

// Fills the target with the points that were packed into the source. (It is `pack` but for the work: the contract of one function that
// takes the work as a closure would be longer than what the two share.)
pub fn unpack(source: &[u8], target: &mut [u8]) -> Result<(), BadPoints>
    ensures answer { number_of result ≡ answer source.now target.old }
    ensures source { source.exit.now ≡ source.entry.now }
    ensures target { target.new ≡ filled unpacked source.now target.old }
{
    check(source, target)?;
    join_sides(source, target);
    add_up(target);
    Ok(())
}
