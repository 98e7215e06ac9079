// Document 01: "**Advance** (k): makes moves in order until k are made or none is left, and reports how many, which is t's rise. k = 0
// makes none."
ghost use Rattle.std.specs.Prelude.{◌≡◌, false, [], ◌+◌, ◌≤◌, length};
ghost use Rattle.layout.specs.Layout.{total_of};
ghost use Rattle.layout.specs.Moves.{cursor_at};
ghost use Rattle.state.specs.Good.{geometry};
ghost use Rattle.refusals.specs.Answers.{counted_answer, counted_record};
ghost use Rattle.calls.specs.Call.{advance, feed, on, made};
ghost use Rattle.calls.specs.Images.{size, stored_in};
ghost use Rattle.calls.specs.Table.{idle, refusal_of};
ghost use Rattle.calls.specs.Effect.{move_stores, advance_stores, act, called};

use blocks::move_block;
use layout::Cursor;
use placement::{cursor_of, next_move, total_of};
use refusals::{Progress, Refusal, due, of_advance, place_at};
use state::{Array, Record, geometry_of, with_moves};

// The next move, which is the one at the cursor: the block to its new place, zeroes where it stood.
fn make_move(a: Array, at: Cursor, images: &mut [u8])
    requires { (idle (geometry a.rec) ≡ false) × (at ≡ cursor_at a.rec.old a.rec.new a.rec.moves) × (length images.old ≡ size a.rec) }
    ensures images { images.new ≡ stored_in a.rec (move_stores a.rec images.old) images.old }
{
    let from = place_at(a, at.stripe, at.from);
    let to = place_at(a, at.stripe, at.to);
    move_block(images, from, to, a.rec.block as usize);
}

// The next `count` moves, of which there are so many. Divides for the first; the rest are counted on.
fn make_moves(a: Array, images: &mut [u8], count: u32)
    requires { (idle (geometry a.rec) ≡ false) × (a.rec.moves + count ≤ total_of (geometry a.rec)) × (length images.old ≡ size a.rec) }
    ensures images { images.new ≡ stored_in a.rec (advance_stores count a.rec images.old) images.old }
{
    let r = a.rec;
    let n = r.old as u32;
    let m = r.new as u32;
    let mut at = cursor_of(n, m, r.moves);
    for made in 0..count {
        let rec = with_moves(r, r.moves + made);
        make_move(Array { rec }, at, images);
        at = next_move(n, m, at);
    }
}

// The call once the table lets it through.
fn make_due(a: Array, images: &mut [u8], k: u64) -> Progress
    requires { refusal_of a.rec (feed (advance k) (length images.old) 0) ≡ 0 }
    ensures answer { made result.made ≡ (act (on (advance k) images.old []) a.rec).answer }
    ensures state { result.rec ≡ (act (on (advance k) images.old []) a.rec).state }
    ensures images { images.new ≡ (act (on (advance k) images.old []) a.rec).images }
{
    let r = a.rec;
    let left = total_of(geometry_of(r)) - r.moves;
    let count = due(k, left);
    make_moves(a, images, count);
    Progress {
        made: count as u64,
        rec: with_moves(r, r.moves + count),
    }
}

pub fn advance(r: Record, images: &mut [u8], k: u64) -> Result<Progress, Refusal>
    ensures answer { counted_answer result ≡ (called (on (advance k) images.old []) r).answer }
    ensures state { counted_record r result ≡ (called (on (advance k) images.old []) r).state }
    ensures images { images.new ≡ (called (on (advance k) images.old []) r).images }
{
    let a = of_advance(r, images.len(), k)?;
    Ok(make_due(a, images, k))
}
