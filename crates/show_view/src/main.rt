// Shows `view`, the one call that is not exported to C, in its cases: on document 01's array of 3 disks and 15 stripes that grows by 2
// disks, with blocks of 4 bytes. A line says what was lent, the number, the view, and what the scratch holds after the call. All calls but
// the writes are those of `lent`, through `viewer`.
#![tactic(auto)]

ghost use Rattle.std.specs.Prelude.{◌≡◌, ◌≤◌, length, take};

use refusals::number_of;
use state::Record;
use std::io;
use viewer::{
    begun, formatted, grown, mark, moved, print_case, print_scratch, print_view, rebuilt, view,
    without, write_marks,
};

// One view; what it leaves of the scratch is returned.
fn show_one<'a>(
    rt: HostRuntime,
    scratch: &'a mut [u8],
    r: Record,
    images: &'a [u8],
    b: u64,
) -> io::Result<&'a [u8]> {
    let x = view(r, images, b, scratch);
    print_view(rt, number_of(x.outcome), x.view)?;
    Ok(x.left)
}

// One case.
fn show_in(
    rt: HostRuntime,
    scratch: &mut [u8],
    r: Record,
    images: &[u8],
    b: u64,
    what: &[u8],
) -> io::Result<()> {
    print_case(rt, b, what)?;
    let left = show_one(rt, scratch, r, images, b)?;
    print_scratch(rt, left)
}

// With a scratch of a block's length, all sevens, which no block holds.
fn show(rt: HostRuntime, r: Record, images: &[u8], b: u64, what: &[u8]) -> io::Result<()> {
    let mut scratch = [7u8; 4];
    show_in(rt, &mut scratch, r, images, b, what)
}

// With disk d out in the record that this one view is lent.
fn show_without(
    rt: HostRuntime,
    d: u64,
    r: Record,
    images: &[u8],
    b: u64,
    what: &[u8],
) -> io::Result<()> {
    show(rt, without(r, d), images, b, what)
}

// Not good: an array has 3 disks or more.
fn no_array() -> Record {
    state::formatted(2, 4, 15)
}

// Block 4 is in stripe 2 on disk 1, block 5 on disk 0. What now stands in the place of block 4 is seen through r, by which the disk is
// still in.
fn show_disk_out(rt: HostRuntime, r: Record, images: &mut [u8]) -> io::Result<()>
    requires { length images.old ≡ 180 }
{
    let out = without(r, 1);
    blocks::store_bytes(images, blocks::offset_of(15, 4, 2, 1), &[9, 9, 9, 9]);
    show(rt, out, images, 4, b"disk 1 out and overwritten")?;
    show(rt, out, images, 5, b"disk 1 out and overwritten")?;
    show(rt, r, images, 4, b"by the record from before")?;
    show_rebuild(rt, out, images)
}

// Stripe 2 is the third to be done.
fn show_rebuild(rt: HostRuntime, out: Record, images: &mut [u8]) -> io::Result<()> {
    let two = rebuilt(begun(out, images, 1), images, 2);
    show(rt, two, images, 4, b"2 stripes of disk 1 rebuilt")?;
    let three = rebuilt(two, images, 1);
    show(rt, three, images, 4, b"3 stripes of disk 1 rebuilt")?;
    let back = rebuilt(three, images, 12);
    show(rt, back, images, 4, b"disk 1 rebuilt")
}

fn show_refusals(rt: HostRuntime, r: Record, images: &[u8]) -> io::Result<()> {
    show(rt, r, images, 30, b"past the end")?;
    let mut short = [7u8; 3];
    show_in(rt, &mut short, r, images, 4, b"scratch a byte short")?;
    show_without(rt, 2, without(r, 1), images, 4, b"two disks out")?;
    show(rt, no_array(), images, 4, b"a record of 2 disks")
}

fn show_before_growth(rt: HostRuntime, images: &mut [u8]) -> io::Result<Record>
    requires { length images.old ≡ 180 }
{
    let r = formatted(no_array(), images, 3, 4, 15);
    write_marks(r, images, 30);
    show(rt, r, images, 4, b"all disks in")?;
    show_disk_out(rt, r, images)?;
    show_refusals(rt, r, images)?;
    Ok(r)
}

// Which disk a block is on shows when that disk is out: then the view is the scratch. Move 1 carries block 4 from disk 1 to 3, move 2
// block 2 from disk 2 to 3.
fn show_one_move(rt: HostRuntime, r: Record, images: &[u8]) -> io::Result<()> {
    show_without(rt, 1, r, images, 4, b"1 move made, disk 1 out")?;
    show_without(rt, 3, r, images, 4, b"1 move made, disk 3 out")
}

fn show_two_moves(rt: HostRuntime, r: Record, images: &[u8]) -> io::Result<()> {
    show_without(rt, 1, r, images, 4, b"2 moves made, disk 1 out")?;
    show_without(rt, 3, r, images, 4, b"2 moves made, disk 3 out")?;
    show_without(rt, 2, r, images, 2, b"2 moves made, disk 2 out")
}

fn show_three_moves(rt: HostRuntime, r: Record, images: &[u8]) -> io::Result<()> {
    show_without(rt, 2, r, images, 2, b"3 moves made, disk 2 out")?;
    show_without(rt, 3, r, images, 2, b"3 moves made, disk 3 out")
}

fn show_moves(rt: HostRuntime, five: Record, images: &mut [u8]) -> io::Result<Record> {
    let one = moved(five, images, 1);
    show_one_move(rt, one, images)?;
    let two = moved(one, images, 1);
    show_two_moves(rt, two, images)?;
    let three = moved(two, images, 1);
    show_three_moves(rt, three, images)?;
    Ok(three)
}

// The sixth move is the last of its zone: after it there is a block 30, in stripe 0 on disk 3.
fn show_zone_end(rt: HostRuntime, three: Record, images: &mut [u8]) -> io::Result<Record> {
    let five = moved(three, images, 2);
    show(rt, five, images, 30, b"5 moves made")?;
    let six = moved(five, images, 1);
    show(rt, six, images, 30, b"6 moves made")?;
    Ok(six)
}

fn show_new_block(rt: HostRuntime, six: Record, images: &mut [u8]) -> io::Result<()> {
    let _ = access::write(six, images, 30, &mark(30));
    show(rt, six, images, 30, b"6 moves made, written")?;
    show_without(rt, 3, six, images, 30, b"6 moves made, written, disk 3 out")
}

// Block 50 is the first of the last zone.
fn show_last_move(rt: HostRuntime, six: Record, images: &mut [u8]) -> io::Result<()> {
    let most = moved(six, images, 11);
    show(rt, most, images, 50, b"17 moves made")?;
    let all = moved(most, images, 1);
    show(rt, all, images, 50, b"18 moves made")?;
    show(rt, all, images, 30, b"18 moves made")
}

fn show_growth(rt: HostRuntime, r: Record, images: &mut [u8]) -> io::Result<()> {
    show(rt, r, images, 4, b"images of 5 disks before growth")?;
    let five = grown(r, images, 2);
    let three = show_moves(rt, five, images)?;
    let six = show_zone_end(rt, three, images)?;
    show_new_block(rt, six, images)?;
    show_last_move(rt, six, images)
}

// One stripe on 3 disks, with blocks as long as `bytes`, which block b is written with. Block 0 is on disk 2, block 1 on disk 1.
fn one_stripe(images: &mut [u8], b: u64, bytes: &[u8]) -> Record {
    let r = formatted(no_array(), images, 3, bytes.len() as u64, 1);
    let _ = access::write(r, images, b, bytes);
    r
}

fn show_one_byte(rt: HostRuntime, r: Record, images: &[u8]) -> io::Result<()> {
    let mut scratch = [7u8; 1];
    show_in(rt, &mut scratch, r, images, 0, b"blocks of 1 byte")?;
    show_in(
        rt,
        &mut scratch,
        without(r, 2),
        images,
        0,
        b"blocks of 1 byte, disk 2 out",
    )?;
    show_in(
        rt,
        &mut scratch,
        r,
        images,
        2,
        b"blocks of 1 byte, past the end",
    )
}

fn show_five_bytes(rt: HostRuntime, r: Record, images: &[u8]) -> io::Result<()> {
    let mut scratch = [7u8; 5];
    show_in(rt, &mut scratch, r, images, 1, b"blocks of 5 bytes")?;
    show_in(
        rt,
        &mut scratch,
        without(r, 1),
        images,
        1,
        b"blocks of 5 bytes, disk 1 out",
    )?;
    show_in(
        rt,
        &mut scratch,
        without(without(r, 0), 1),
        images,
        1,
        b"blocks of 5 bytes, two disks out",
    )
}

fn show_other_lengths(rt: HostRuntime) -> io::Result<()> {
    let mut small = [0u8; 3];
    let one = one_stripe(&mut small, 0, &[200]);
    show_one_byte(rt, one, &small)?;
    let mut odd = [0u8; 15];
    let five = one_stripe(&mut odd, 1, &[1, 2, 3, 4, 5]);
    show_five_bytes(rt, five, &odd)
}

// 3 disks are the first 180 bytes.
fn show_cases(rt: HostRuntime, images: &mut [u8]) -> io::Result<()>
    requires { (180 ≤ length images.old) × (180 ≡ length (take 180 images.old)) }
{
    let r = show_before_growth(rt, &mut images[..180])?;
    show_growth(rt, r, images)
}

// Room for 5 disks.
fn images_buffer() -> [u8; 300]
    ensures { (300 ≡ length result) × (180 ≤ length result) × (180 ≡ length (take 180 result)) }
{
    [0; 300]
}

fn main(rt: HostRuntime) -> io::Result<()> {
    let mut images = images_buffer();
    show_cases(rt, &mut images)?;
    show_other_lengths(rt)
}
