// The table of refusals, call by call: the first row whose condition holds. Nothing is looked at but the record, the numbers given and the
// lengths lent. (That a call is let through stays a clause of its act, `refusal_of .. ≡ 0`: no two acts ask the same.)
ghost use Rattle.std.specs.Prelude.{◌≡◌, ◌≤◌, ltb, IfOk};
ghost use Rattle.layout.specs.Layout.{capacity};
ghost use Rattle.state.specs.Good.{geometry};
ghost use Rattle.calls.specs.Call.{format, read, grow, advance, out, begin, continue, status, locate, owner, sweep, feed};
ghost use Rattle.calls.specs.Images.{disks_of, size, size_with};
ghost use Rattle.calls.specs.Table.{idle, formable, word, kept, kept_whole, kept_lent, refusal_of};
ghost use Rattle.refusals.specs.Answers.{number_of};

use crate::health::{is_degraded, is_lost, is_out, is_rebuilding};
use crate::types::Refusal;
use placement::{all_moved, has_block};
use state::{
    Array, Record, block_is_good, checked, geometry_of, new_is_good, old_is_good, stripes_are_good,
};

// N, all disks of an array.
pub fn disks_of(r: Record) -> u64
    ensures count { result ≡ disks_of r }
{
    r.old as u64 + r.new as u64
}

// The length of the images of its old disks and m new ones.
fn size_with(a: Array, m: u64) -> u64
    requires { m ≤ 16 }
    ensures length { result ≡ size_with a.rec m }
{
    let r = a.rec;
    (r.old as u64 + m) * (r.stripes as u64 * r.block as u64)
}

// .. and of its images as they are.
fn size_of(a: Array) -> u64
    ensures length { result ≡ size a.rec }
{
    size_with(a, a.rec.new as u64)
}

// Has the array a block b?
fn is_block(a: Array, b: u64) -> bool
    ensures answer { result ≡ ltb b (capacity (geometry a.rec)) }
{
    has_block(geometry_of(a.rec), b)
}

// Is there no move to make?
fn is_idle(a: Array) -> bool
    ensures answer { result ≡ idle (geometry a.rec) }
{
    all_moved(geometry_of(a.rec))
}

fn is_formable(n: u64, block: u64, stripes: u64) -> bool
    ensures answer { result ≡ formable n block stripes }
{
    old_is_good(n) && block_is_good(block) && stripes_are_good(stripes)
}

pub fn of_format(images: usize, n: u64, block: u64, stripes: u64) -> Result<(), Refusal>
    ensures number { (r : Record) → number_of result ≡ refusal_of r (feed (format n block stripes) images 0) }
{
    if !is_formable(n, block, stripes) {
        return Err(Refusal::Geometry);
    }
    if images as u64 != n * (stripes * block) {
        return Err(Refusal::Images);
    }
    Ok(())
}

// How the rows of many calls begin: 1, 2 ..
fn of_kept(r: Record) -> Result<Array, Refusal>
    ensures number { number_of result ≡ word (kept r) }
    ensures same { IfOk result (λ a. a.rec ≡ r) }
{
    let Some(a) = checked(r) else {
        return Err(Refusal::Record);
    };
    if is_lost(r.health) {
        return Err(Refusal::Lost);
    }
    Ok(a)
}

// .. 1, 2, 3 ..
fn of_whole(r: Record) -> Result<Array, Refusal>
    ensures number { number_of result ≡ word (kept_whole r) }
    ensures same { IfOk result (λ a. a.rec ≡ r) }
{
    let a = of_kept(r)?;
    if is_degraded(r.health) {
        return Err(Refusal::Degraded);
    }
    Ok(a)
}

// .. and 1, 2, 7.
pub fn of_lent(r: Record, images: usize) -> Result<Array, Refusal>
    ensures number { number_of result ≡ word (kept_lent r images) }
    ensures same { IfOk result (λ a. a.rec ≡ r) }
{
    let a = of_kept(r)?;
    if images as u64 != size_of(a) {
        return Err(Refusal::Images);
    }
    Ok(a)
}

// Of read, view and write, with `begun` what of_lent says of them: room is the length of the block that is lent. (Callers ask of_lent, so
// that the compiler makes both part of each call: one function for all would be too long for it. The images are for the contract alone.
// That r is good follows from this number alone, whichever array has begun.)
pub fn of_reach(
    begun: Result<Array, Refusal>,
    r: Record,
    images: usize,
    b: u64,
    room: usize,
) -> Result<Array, Refusal>
    requires { number_of begun ≡ word (kept_lent r images) }
    ensures number { number_of result ≡ refusal_of r (feed (read b) images room) }
    ensures same { IfOk result (λ a. a.rec ≡ r) }
{
    begun?;
    let a = Array { rec: r };
    if !is_block(a, b) {
        return Err(Refusal::PastTheEnd);
    }
    if room != r.block as usize {
        return Err(Refusal::BlockLength);
    }
    Ok(a)
}

pub fn of_grow(r: Record, images: usize, m: u64) -> Result<Array, Refusal>
    ensures number { number_of result ≡ refusal_of r (feed (grow m) images 0) }
    ensures same { IfOk result (λ a. a.rec ≡ r) }
{
    let a = of_whole(r)?;
    if r.new != 0 {
        return Err(Refusal::Grown);
    }
    if !new_is_good(m) {
        return Err(Refusal::Geometry);
    }
    if images as u64 != size_with(a, m) {
        return Err(Refusal::Images);
    }
    Ok(a)
}

pub fn of_advance(r: Record, images: usize, k: u64) -> Result<Array, Refusal>
    ensures number { number_of result ≡ refusal_of r (feed (advance k) images 0) }
    ensures same { IfOk result (λ a. a.rec ≡ r) }
{
    let a = of_whole(r)?;
    if is_idle(a) {
        return Err(Refusal::NothingToMove);
    }
    if images as u64 != size_of(a) {
        return Err(Refusal::Images);
    }
    Ok(a)
}

pub fn of_out(r: Record, d: u64) -> Result<(), Refusal>
    ensures number { number_of result ≡ refusal_of r (feed (out d) 0 0) }
{
    of_kept(r)?;
    if disks_of(r) <= d || is_out(r.health, d) {
        return Err(Refusal::Disk);
    }
    Ok(())
}

pub fn of_begin(r: Record, images: usize, d: u64) -> Result<(), Refusal>
    ensures number { number_of result ≡ refusal_of r (feed (begin d) images 0) }
{
    of_lent(r, images)?;
    if !is_out(r.health, d) {
        return Err(Refusal::Disk);
    }
    Ok(())
}

pub fn of_continue(r: Record, images: usize, k: u64) -> Result<Array, Refusal>
    ensures number { number_of result ≡ refusal_of r (feed (continue k) images 0) }
    ensures same { IfOk result (λ a. a.rec ≡ r) }
{
    let a = of_lent(r, images)?;
    if !is_rebuilding(r.health) {
        return Err(Refusal::Disk);
    }
    Ok(a)
}

pub fn of_status(r: Record) -> Result<Array, Refusal>
    ensures number { number_of result ≡ refusal_of r (feed status 0 0) }
    ensures same { IfOk result (λ a. a.rec ≡ r) }
{
    let Some(a) = checked(r) else {
        return Err(Refusal::Record);
    };
    Ok(a)
}

pub fn of_locate(r: Record, b: u64) -> Result<Array, Refusal>
    ensures number { number_of result ≡ refusal_of r (feed (locate b) 0 0) }
    ensures same { IfOk result (λ a. a.rec ≡ r) }
{
    let Some(a) = checked(r) else {
        return Err(Refusal::Record);
    };
    if !is_block(a, b) {
        return Err(Refusal::PastTheEnd);
    }
    Ok(a)
}

pub fn of_owner(r: Record, s: u64, d: u64) -> Result<Array, Refusal>
    ensures number { number_of result ≡ refusal_of r (feed (owner s d) 0 0) }
    ensures same { IfOk result (λ a. a.rec ≡ r) }
{
    let Some(a) = checked(r) else {
        return Err(Refusal::Record);
    };
    if (r.stripes as u64) <= s {
        return Err(Refusal::PastTheEnd);
    }
    if disks_of(r) <= d {
        return Err(Refusal::Disk);
    }
    Ok(a)
}

pub fn of_sweep(r: Record, images: usize) -> Result<Array, Refusal>
    ensures number { number_of result ≡ refusal_of r (feed sweep images 0) }
    ensures same { IfOk result (λ a. a.rec ≡ r) }
{
    let a = of_whole(r)?;
    if images as u64 != size_of(a) {
        return Err(Refusal::Images);
    }
    Ok(a)
}
