// Document 01: "**View**: returns the block as a part of the images, or, if its disk is out, as the lent scratch filled with it. Scratch is
// else untouched."
ghost use Rattle.std.specs.Prelude.{◌≤◌, ◌≡◌, length, IfOk};
ghost use Rattle.access.specs.Viewing.{begins, choice_of, chosen_bytes, chosen_start, ends};
ghost use Rattle.calls.specs.Call.{view, feed, on, number, shown};
ghost use Rattle.calls.specs.Table.{refusal_of};
ghost use Rattle.calls.specs.Effect.{view_of, scratch_left, called};
ghost use Rattle.refusals.specs.Answers.{number_of};

use crate::types::{Choice, Viewed};
use placement::{place_of, slot_of};
use refusals::{Refusal, is_absent, of_lent, of_reach, place_at, sum_others};
use state::{Array, Record, geometry_of};

// Which it is, with the scratch filled if it is that one, on a call that the table lets through.
fn choose(a: Array, images: &[u8], b: u64, scratch: &mut [u8]) -> Choice
    requires { refusal_of a.rec (feed (view b) (length images.now) (length scratch.old)) ≡ 0 }
    ensures choice { result ≡ choice_of (view_of a.rec b) }
    ensures scratch { scratch.new ≡ scratch_left a.rec images.now b scratch.old }
{
    let g = geometry_of(a.rec);
    let q = place_of(g, b, slot_of(g, b)).block;
    if is_absent(a.rec.health, q.stripe, q.disk) {
        sum_others(a, images, q.stripe, q.disk, scratch);
        return Choice::Scratch;
    }
    Choice::Part(place_at(a, q.stripe, q.disk))
}

// The view before its part is taken.
fn view_choice(r: Record, images: &[u8], b: u64, scratch: &mut [u8]) -> Result<Choice, Refusal>
    ensures answer { number_of result ≡ number (called (on (view b) images.now scratch.old) r).answer }
    ensures choice { IfOk result (λ x. x ≡ choice_of (view_of r b)) }
    ensures scratch { scratch.new ≡ (called (on (view b) images.now scratch.old) r).room }
{
    let begun = of_lent(r, images.len());
    let a = of_reach(begun, r, images.len(), b, scratch.len())?;
    Ok(choose(a, images, b, scratch))
}

// What a choice names: a part of the images, or the scratch, which is lent here only to be read.
fn part_of<'a>(
    x: Result<Choice, Refusal>,
    len: usize,
    images: &'a [u8],
    left: &'a [u8],
) -> Viewed<'a>
    requires { ends x len ≤ length images.now }
    ensures view { result.view.now ≡ chosen_bytes x len images.now left.now }
    ensures place { result.view.ref_ptr ≡ chosen_start x images.entry.ref_ptr left.entry.ref_ptr }
    ensures number { number_of result.outcome ≡ number_of x }
    ensures left { result.left.now ≡ left.now }
    ensures left_place { result.left.ref_ptr ≡ left.entry.ref_ptr }
{
    match x {
        Err(e) => Viewed {
            view: &images[..0],
            left,
            outcome: Err(e),
        },
        Ok(Choice::Scratch) => Viewed {
            view: left,
            left,
            outcome: Ok(()),
        },
        Ok(Choice::Part(at)) => Viewed {
            view: &images[at..at + len],
            left,
            outcome: Ok(()),
        },
    }
}

// The view itself. The scratch may be what is shown: so it comes back shared, as `left`, all of it and where it was lent, and there the
// contract says what the call has left of it.
pub fn view<'a>(r: Record, images: &'a [u8], b: u64, scratch: &'a mut [u8]) -> Viewed<'a>
    ensures view { result.view.now ≡ shown (called (on (view b) images.now scratch.old) r).answer }
    ensures place { result.view.ref_ptr ≡
        begins (number (called (on (view b) images.now scratch.old) r).answer) (view_of r b)
        images.entry.ref_ptr scratch.entry.ref_ptr }
    ensures number { number_of result.outcome ≡ number (called (on (view b) images.now scratch.old) r).answer }
    ensures scratch { result.left.now ≡ (called (on (view b) images.now scratch.old) r).room }
    ensures scratch_place { result.left.ref_ptr ≡ scratch.entry.ref_ptr }
{
    let x = view_choice(r, images, b, scratch);
    let left = &scratch[..];
    part_of(x, r.block as usize, images, left)
}
