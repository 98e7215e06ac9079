// Document 01: "**Write**: the data place takes the data, the parity place its old value xor old block xor data; either is skipped if its
// disk is out. All other bytes stay." (A disk that is being rebuilt counts as out in the stripes not done: `is_absent`.)
ghost use Rattle.std.specs.Prelude.{◌≡◌, [], length};
ghost use Rattle.calls.specs.Call.{write, feed, on, number};
ghost use Rattle.calls.specs.Images.{stored_in};
ghost use Rattle.calls.specs.Table.{refusal_of};
ghost use Rattle.calls.specs.Effect.{write_stores, called};
ghost use Rattle.refusals.specs.Answers.{number_of};

use blocks::store_bytes;
use parity::{fold_others, fold_parity};
use placement::{place_of, slot_of};
use refusals::{Refusal, disks_of, is_absent, of_lent, of_reach, place_at};
use state::{Array, Record, geometry_of};

// The parity, then the data, on a call that the table lets through.
fn put(a: Array, images: &mut [u8], b: u64, bytes: &[u8])
    requires { refusal_of a.rec (feed (write b bytes.now) (length images.old) 0) ≡ 0 }
    ensures images { images.new ≡
        stored_in a.rec (write_stores a.rec images.old b bytes.now) images.old }
{
    let r = a.rec;
    let g = geometry_of(r);
    let x = place_of(g, b, slot_of(g, b));
    let q = x.block;
    let p = x.parity.disk;
    if is_absent(r.health, q.stripe, q.disk) {
        fold_others(
            images,
            disks_of(r) as usize,
            r.stripes as usize,
            q.stripe as usize,
            q.disk as usize,
            p as usize,
            bytes,
        );
        return;
    }
    let at = place_at(a, q.stripe, q.disk);
    if !is_absent(r.health, q.stripe, p) {
        fold_parity(images, place_at(a, q.stripe, p), at, bytes);
    }
    store_bytes(images, at, bytes);
}

pub fn write(r: Record, images: &mut [u8], b: u64, bytes: &[u8]) -> Result<(), Refusal>
    ensures answer { number_of result ≡ number (called (on (write b bytes.now) images.old []) r).answer }
    ensures images { images.new ≡ (called (on (write b bytes.now) images.old []) r).images }
{
    let begun = of_lent(r, images.len());
    let a = of_reach(begun, r, images.len(), b, bytes.len())?;
    put(a, images, b, bytes);
    Ok(())
}
