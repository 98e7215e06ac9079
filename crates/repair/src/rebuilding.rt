// Document 02, (d): "begin (d), which changes the record only, and continue (k stripes), which does stripes in rising order until k are
// done or none is left, and reports how many".
ghost use Rattle.std.specs.Prelude.{◌≡◌, [], ◌+◌, ◌≤◌, ◌<◌, length};
ghost use Rattle.refusals.specs.Answers.{changed_answer, changed_record, counted_answer, counted_record};
ghost use Rattle.calls.specs.Call.{begin, continue, feed, on, made};
ghost use Rattle.calls.specs.Images.{disks_of, size, others_in, stored_in, fill_disk};
ghost use Rattle.calls.specs.Table.{refusal_of};
ghost use Rattle.calls.specs.Effect.{act, called};

use blocks::rebuild_place;
use refusals::{Progress, Refusal, disks_of, due, of_begin, of_continue, rebuilt_to};
use state::{Array, Health, Record, disk_byte, stripes_done, with_health};

// Disk d of `count` stripes from `first` on, each summed into `block` and then stored: two slices are told apart once and for all, two
// parts of the images are not.
fn fill_disk(a: Array, images: &mut [u8], d: u64, first: usize, count: usize, block: &mut [u8])
    requires { (d < disks_of a.rec) × (first + count ≤ a.rec.stripes)
        × (length images.old ≡ size a.rec) × (length block.old ≡ a.rec.block) }
    ensures images { images.new ≡
        stored_in a.rec (fill_disk first count d (λ S. others_in a.rec images.old S d)) images.old }
{
    let r = a.rec;
    let disks = disks_of(r) as usize;
    let stripes = r.stripes as usize;
    for made in 0..count {
        rebuild_place(images, disks, stripes, first + made, d as usize, block);
    }
}

// The same, with a block of its own to sum into: a short one where that will do, since each call clears it. (It is lent to the function
// that does the work: 4,096 elements in a goal would be dear.)
fn fill_disk_alone(a: Array, images: &mut [u8], d: u64, first: usize, count: usize)
    requires { (d < disks_of a.rec) × (first + count ≤ a.rec.stripes) × (length images.old ≡ size a.rec) }
    ensures images { images.new ≡
        stored_in a.rec (fill_disk first count d (λ S. others_in a.rec images.old S d)) images.old }
{
    let len = a.rec.block as usize;
    if len <= 256 {
        let mut short = [0u8; 256];
        fill_disk(a, images, d, first, count, &mut short[..len]);
        return;
    }
    let mut block = [0u8; 4096];
    fill_disk(a, images, d, first, count, &mut block[..len]);
}

// Begin once the table lets it through. The images are for the contract alone.
fn start_rebuild(r: Record, images: &[u8], d: u64) -> Record
    requires { refusal_of r (feed (begin d) (length images.now) 0) ≡ 0 }
    ensures state { result ≡ (act (on (begin d) images.now []) r).state }
{
    let disk = d as u8;
    with_health(r, Health::Rebuilding { disk, done: 0 })
}

// Continue once the table lets it through.
fn rebuild_due(a: Array, images: &mut [u8], k: u64) -> Progress
    requires { refusal_of a.rec (feed (continue k) (length images.old) 0) ≡ 0 }
    ensures answer { made result.made ≡ (act (on (continue k) images.old []) a.rec).answer }
    ensures state { result.rec ≡ (act (on (continue k) images.old []) a.rec).state }
    ensures images { images.new ≡ (act (on (continue k) images.old []) a.rec).images }
{
    let r = a.rec;
    let disk = disk_byte(r.health);
    let done = stripes_done(r.health);
    let count = due(k, r.stripes - done);
    fill_disk_alone(a, images, disk as u64, done as usize, count as usize);
    Progress {
        made: count as u64,
        rec: with_health(r, rebuilt_to(r.stripes, disk, done + count)),
    }
}

// Begins to rebuild disk d. The images are lent for their length.
pub fn begin_rebuild(r: Record, images: &[u8], d: u64) -> Result<Record, Refusal>
    ensures answer { changed_answer result ≡ (called (on (begin d) images.now []) r).answer }
    ensures state { changed_record r result ≡ (called (on (begin d) images.now []) r).state }
{
    of_begin(r, images.len(), d)?;
    Ok(start_rebuild(r, images, d))
}

// Makes the next k stripes of the disk that is being rebuilt, or all that are left.
pub fn continue_rebuild(r: Record, images: &mut [u8], k: u64) -> Result<Progress, Refusal>
    ensures answer { counted_answer result ≡ (called (on (continue k) images.old []) r).answer }
    ensures state { counted_record r result ≡ (called (on (continue k) images.old []) r).state }
    ensures images { images.new ≡ (called (on (continue k) images.old []) r).images }
{
    let a = of_continue(r, images.len(), k)?;
    Ok(rebuild_due(a, images, k))
}
