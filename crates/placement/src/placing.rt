// The layout of the whole array: its numbers, places and owners. The place of a block takes three divisions, an owner two, and the total,
// where it is asked for, one more. (Before a growth a case for m = 0 would save one. It is left out, so that the functions stay short.)
// (GoodArray stays a clause of each contract: those who call have a Geometry, and a type that says it would ask them for more.)
ghost use Rattle.std.specs.Prelude.{◌*◌, ◌<◌, ◌≡◌, false, ltb, leb, eqb};
ghost use Rattle.layout.specs.Closed.{taken};
ghost use Rattle.layout.specs.Layout.{disks, total_of, old_blocks, finished_zones, open_stripes, capacity};
ghost use Rattle.layout.specs.Layout.{new_owner, layout};
ghost use Rattle.layout.specs.Slots.{old_slot, new_slot, slot_of, Seated, seat_disk};
ghost use Rattle.layout.specs.Coded.{code};
ghost use Rattle.layout.specs.Limits.{Sized, GoodArray};

use crate::choice::pick;
use crate::coded::{BLANK, role_of};
use crate::row::Row;
use layout::{Carried, Geometry, Place, Role, Seat, Slot, Standing};

// The moves of the growth: those of its whole groups. With no whole group there is none. It is formed here alone, by one division: as
// only whole groups count, to compare products will not do.
pub fn total_of(g: Geometry) -> u32
    requires { Sized g }
    ensures { result ≡ total_of g }
{
    let n = g.old;
    let m = g.new;
    g.stripes / (n * (n + m)) * n * n * m
}

// Is t at most the total?
pub fn moves_fit(g: Geometry) -> bool
    requires { Sized g }
    ensures { result ≡ leb g.moves (total_of g) }
{
    g.moves <= total_of(g)
}

// Are all moves of the growth made? (With no new disk there is none.)
pub fn all_moved(g: Geometry) -> bool
    requires { Sized g }
    ensures { result ≡ eqb g.moves (total_of g) }
{
    g.moves == total_of(g)
}

// The blocks of before the growth.
fn old_blocks(g: Geometry) -> u32
    requires { GoodArray g }
    ensures { result ≡ old_blocks g }
{
    g.stripes * (g.old - 1)
}

// Its finished zones, where it has new disks.
fn finished_zones(g: Geometry) -> u32
    requires { GoodArray g × (0 < g.new) }
    ensures { result ≡ finished_zones g }
{
    g.moves / (g.old * g.new)
}

// The stripes whose blanks are new blocks. (While moves are left there are new disks.)
pub fn open_stripes(g: Geometry) -> u32
    requires { GoodArray g }
    ensures { result ≡ open_stripes g }
{
    if all_moved(g) {
        g.stripes
    } else {
        finished_zones(g) * (g.old + g.new)
    }
}

// The number of blocks.
pub fn capacity_of(g: Geometry) -> u32
    requires { GoodArray g }
    ensures { result ≡ capacity g }
{
    old_blocks(g) + open_stripes(g) * g.new
}

// Is b below the capacity? (Only a new block has to be asked how many there are, and only in mid-growth does that take a division. The zone
// of its stripe would tell without one; but test and place would then be one function, too long to become part of each call.)
pub fn has_block(g: Geometry, b: u64) -> bool
    requires { GoodArray g }
    ensures { result ≡ ltb b (capacity g) }
{
    let old = old_blocks(g) as u64;
    b < old || b - old < (open_stripes(g) * g.new) as u64
}

// The slot of block b of before the growth ..
fn old_slot(g: Geometry, b: u32) -> Slot
    requires { GoodArray g × (b < old_blocks g) }
    ensures { result ≡ old_slot g b }
{
    let x = Row::of(g, b / (g.old - 1));
    Slot {
        stripe: x.stripe,
        seat: Seat::Old(x.data_disk(b % (g.old - 1))),
    }
}

// .. and of new block k, counted from 0.
fn new_slot(g: Geometry, k: u32) -> Slot
    requires { GoodArray g × (k < open_stripes g * g.new) }
    ensures { result ≡ new_slot g k }
{
    Slot {
        stripe: Row::of(g, k / g.new).stripe,
        seat: Seat::New(k % g.new),
    }
}

// The slot of block b. (To find a block takes this function and `place_of`, and not one alone: either is short enough for the compiler
// to make it part of every call that asks, and then no number goes through memory.)
pub fn slot_of(g: Geometry, b: u64) -> Slot
    requires { GoodArray g × (b < capacity g) }
    ensures { result ≡ slot_of g b }
{
    let old = old_blocks(g) as u64;
    if b < old {
        return old_slot(g, b as u32);
    }
    new_slot(g, (b - old) as u32)
}

// Where block b stands, whose slot is y, and its parity; and whether a move carried the block. (The number is for the contract alone.)
pub fn place_of(g: Geometry, b: u64, y: Slot) -> Standing
    requires { GoodArray g × (b < capacity g) × (y ≡ slot_of g b) }
    ensures { result ≡ (layout g).place b }
{
    let stripe = y.stripe.number;
    let x = Row {
        array: g,
        stripe: y.stripe,
    };
    let parity = x.carried_to(x.stripe.home);
    let block = x.seat_disk(y.seat);
    Standing {
        block: Place {
            stripe,
            disk: block.disk,
        },
        parity: Place {
            stripe,
            disk: parity.disk,
        },
        moved: block.moved,
    }
}

impl Row {
    // The disk of a seat, and whether a move carried its block. (New first: with Old first `locate` was up to 8 % slower.)
    fn seat_disk(self, seat: Seat) -> Carried
        requires { Seated self.array self.stripe.number seat }
        ensures { result ≡ seat_disk self.array self.stripe.number seat }
    {
        match seat {
            Seat::New(nth) => Carried {
                disk: self.nth_blank(nth),
                moved: false,
            },
            Seat::Old(disk) => self.carried_to(disk),
        }
    }

    // Is the stripe open: are its blanks new blocks? Its zone is finished, or the growth is over. (With no division for the zone.)
    fn is_open(self) -> bool
        requires { GoodArray self.array × (self.stripe.number < self.array.stripes) }
        ensures { result ≡ ltb self.stripe.number (open_stripes self.array) }
    {
        all_moved(self.array) || self.is_settled()
    }

    // What disk e holds, coded, if nothing of before the growth. It is picked: in mid-growth it cannot be foretold whether the zone of a
    // place is finished. So the blanks are counted for any stripe.
    fn new_code(self, e: u32) -> u32
        requires { GoodArray self.array × (self.stripe.number < self.array.stripes) × (e < disks self.array) }
        ensures { taken self.array.old self.array.new self.array.moves self.stripe.number e ≡ false
            → result ≡ code (new_owner self.array self.stripe.number e) }
    {
        let j = self.count_below(e);
        let new = old_blocks(self.array) + (self.stripe.number * self.array.new + j);
        pick(self.is_open(), new, BLANK)
    }
}

// What disk e of stripe s holds: what came to stand there, or a new block, or nothing.
pub fn owner_of(g: Geometry, s: u32, e: u32) -> Role
    requires { GoodArray g × (s < g.stripes) × (e < disks g) }
    ensures { result ≡ (layout g).owner s e }
{
    let x = Row::of(g, s);
    let d = x.source_of(e);
    let there = x.carried_to(d);
    role_of(pick(there.disk == e, x.home_code(d), x.new_code(e)))
}
