// Document 01: "**Read**: fills a lent block."
ghost use Rattle.std.specs.Prelude.{◌≡◌, length};
ghost use Rattle.calls.specs.Call.{read, feed, on, number};
ghost use Rattle.calls.specs.Table.{refusal_of};
ghost use Rattle.calls.specs.Effect.{block_of, called};
ghost use Rattle.refusals.specs.Answers.{number_of};

use blocks::copy_out;
use placement::{place_of, slot_of};
use refusals::{Refusal, is_absent, of_lent, of_reach, place_at, sum_others};
use state::{Array, Record, geometry_of};

// Block b, on a call that the table lets through.
fn fill(a: Array, images: &[u8], b: u64, block: &mut [u8])
    requires { refusal_of a.rec (feed (read b) (length images.now) (length block.old)) ≡ 0 }
    ensures block { block.new ≡ block_of a.rec images.now b }
{
    let g = geometry_of(a.rec);
    let q = place_of(g, b, slot_of(g, b)).block;
    if is_absent(a.rec.health, q.stripe, q.disk) {
        sum_others(a, images, q.stripe, q.disk, block);
    } else {
        copy_out(images, place_at(a, q.stripe, q.disk), block);
    }
}

pub fn read(r: Record, images: &[u8], b: u64, block: &mut [u8]) -> Result<(), Refusal>
    ensures answer { number_of result ≡ number (called (on (read b) images.now block.old) r).answer }
    ensures block { block.new ≡ (called (on (read b) images.now block.old) r).room }
{
    let begun = of_lent(r, images.len());
    let a = of_reach(begun, r, images.len(), b, block.len())?;
    fill(a, images, b, block);
    Ok(())
}
