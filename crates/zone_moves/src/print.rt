// Text stored in a lent buffer. Each function stores from `at` on, and answers the position after what it stored.
ghost use Rattle.std.specs.Prelude.{◌+◌, ◌≤◌, ◌<◌, ◌≡◌, [], ◌∷◌, length};
ghost use Rattle.zone_moves.specs.Decimal.{digit, decimal};
ghost use Rattle.zone_moves.specs.Listing.{column, Stored};

fn put_byte(out: &mut [u8], at: usize, b: u8) -> usize
    requires { at < length out.old }
    ensures { Stored out.old at (b ∷ []) out.new result }
{
    out[at] = b;
    at + 1
}

pub fn put_text(out: &mut [u8], at: usize, text: &[u8]) -> usize
    requires { at + length text.now ≤ length out.old }
    ensures { Stored out.old at text.now out.new result }
{
    let mut i = 0;
    while i < text.len() {
        out[at + i] = text[i];
        i += 1;
    }
    at + i
}

fn digit_of(d: u32) -> u8
    requires { d < 10 }
    ensures { result ≡ digit d }
{
    48 + d as u8
}

// A number of one or two digits.
fn put_small(out: &mut [u8], at: usize, x: u32) -> usize
    requires { (x < 100) × (at + length (decimal x) ≤ length out.old) }
    ensures { Stored out.old at (decimal x) out.new result }
{
    if x < 10 {
        return put_byte(out, at, digit_of(x));
    }
    let next = put_byte(out, at, digit_of(x / 10));
    put_byte(out, next, digit_of(x % 10))
}

// A number of up to four digits: those above the last two, then the last two.
fn put_decimal(out: &mut [u8], at: usize, x: u32) -> usize
    requires { (x < 10000) × (at + length (decimal x) ≤ length out.old) }
    ensures { Stored out.old at (decimal x) out.new result }
{
    if x < 100 {
        return put_small(out, at, x);
    }
    let next = put_small(out, at, x / 100);
    let last = put_byte(out, next, digit_of(x / 10 % 10));
    put_byte(out, last, digit_of(x % 10))
}

// A number and the byte that ends it.
pub fn put_column(out: &mut [u8], at: usize, x: u32, stop: u8) -> usize
    requires { (x < 10000) × (at + length (column x stop) ≤ length out.old) }
    ensures { Stored out.old at (column x stop) out.new result }
{
    let next = put_decimal(out, at, x);
    put_byte(out, next, stop)
}
