// The answer to a line.
ghost use Rattle.std.specs.Prelude.{◌+◌, ◌*◌, ◌≤◌, ◌<◌, ◌≡◌, length};
ghost use Rattle.layout.specs.Limits.{Disks};
ghost use Rattle.zone_moves.specs.Listing.{Listed, move_line, lines_of, indices, answer, written, Stored};

use crate::parse::{Request, request_of};
use crate::print::{put_column, put_text};

// The line of move k: at most 17 bytes.
fn put_line(out: &mut [u8], at: usize, n: u32, m: u32, k: u32) -> usize
    requires { Listed n m k × (at + 17 ≤ length out.old) }
    ensures { Stored out.old at (move_line n m k) out.new result }
{
    let moved = placement::move_of(n, m, k);
    let zone = moved.zone;
    let within = moved.within;
    let from = moved.from;
    let to = moved.to;
    let a = put_column(out, at, k, b' ');
    let b = put_column(out, a, zone, b' ');
    let c = put_column(out, b, within, b' ');
    let d = put_column(out, c, from, b' ');
    put_column(out, d, to, b'\n')
}

// The lines of count moves from first on, at the start of out.
fn put_lines(out: &mut [u8], n: u32, m: u32, first: u32, count: u32) -> usize
    requires { Disks n m × (0 < m) × (first + count ≤ n * m * n) × (17 * count ≤ length out.old) }
    ensures { Stored out.old 0 (lines_of n m (indices first count)) out.new result }
{
    let mut at = 0;
    let mut i = 0;
    while i < count {
        at = put_line(out, at, n, m, first + i);
        i += 1;
    }
    at
}

// Stores the answer to an input at the start of out, and answers its length. A zone has at most 256 lines of at most 17 bytes: the type of
// out gives that room, and no `requires` is left for a caller to see to.
pub fn answer_to(input: &[u8], out: &mut [u8; 4352]) -> usize
    ensures value { result ≡ length (answer input.now) }
    ensures out_after { out.new ≡ written out.old 0 (answer input.now) }
{
    match request_of(input) {
        Request::Zone { n, m, z } => put_lines(out, n, m, z * m * n, m * n),
        Request::Refused => put_text(out, 0, b"refused 6\n"),
    }
}
