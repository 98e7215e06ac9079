// Which records are good. The limits of single fields are functions of their own: format and grow are held to them too.
ghost use Rattle.std.specs.Prelude.{◌≤◌, ◌≡◌};
ghost use Rattle.state.specs.Good.{geometry, old_good, new_good, added_good, block_good, stripes_good};
ghost use Rattle.state.specs.Good.{moves_good, health_good, good};

use crate::types::{Health, Record};
use layout::Geometry;
use placement::moves_fit;

// The array that a record speaks of.
pub fn geometry_of(r: Record) -> Geometry
    ensures { result ≡ geometry r }
{
    Geometry {
        old: r.old as u32,
        new: r.new as u32,
        stripes: r.stripes,
        moves: r.moves,
    }
}

// May an array have n old disks?
pub fn old_is_good(n: u64) -> bool
    ensures { result ≡ old_good n }
{
    (3..=16).contains(&n)
}

// May m disks be added to an array?
pub fn new_is_good(m: u64) -> bool
    ensures { result ≡ new_good m }
{
    (1..=16).contains(&m)
}

// May a block be this long?
pub fn block_is_good(length: u64) -> bool
    ensures { result ≡ block_good length }
{
    (1..=4096).contains(&length)
}

// May an array have this many stripes?
pub fn stripes_are_good(stripes: u64) -> bool
    ensures { result ≡ stripes_good stripes }
{
    (1..=1048576).contains(&stripes)
}

// May an array have m new disks, or none?
fn added_is_good(m: u64) -> bool
    ensures { result ≡ added_good m }
{
    m == 0 || new_is_good(m)
}

// Can the array have come this far? (With no new disk the total is 0. To ask for it there too costs less than to ask for m first: the
// compiler then makes one division of this and of the test whether all moves are made.)
#[tactic(auto, unfolding(crate::specs::Good::moves_good))]
fn moves_are_good(r: Record) -> bool
    requires { (3 ≤ r.old) × (r.old ≤ 16) × (r.stripes ≤ 1048576) }
    ensures { result ≡ moves_good (geometry r) }
{
    added_is_good(r.new as u64) && moves_fit(geometry_of(r))
}

// Is the disk that is out or being rebuilt, if one is, a disk of the array, and is a stripe of it left to rebuild?
fn health_is_good(disks: u64, stripes: u32, health: Health) -> bool
    ensures { result ≡ health_good disks stripes health }
{
    match health {
        Health::Whole | Health::Lost => true,
        Health::Out(d) => (d as u64) < disks,
        Health::Rebuilding { disk, done } => (disk as u64) < disks && done < stripes,
    }
}

// Is every field in its limits?
#[tactic(auto, unfolding(crate::specs::Good::good))]
pub fn is_good(r: Record) -> bool
    ensures { result ≡ good r }
{
    let n = r.old as u64;
    let m = r.new as u64;
    old_is_good(n)
        && block_is_good(r.block as u64)
        && stripes_are_good(r.stripes as u64)
        && moves_are_good(r)
        && health_is_good(n + m, r.stripes, r.health)
}
