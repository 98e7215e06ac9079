// What a line asks for.
ghost use Rattle.std.specs.Prelude.{◌-◌, ◌≤◌, ◌<◌, ◌≡◌, get_or};
ghost use Rattle.zone_moves.specs.Request.{is_digit, in_limits, field_of, field_at, request_of};

// What stands at a position: a number, with the position after the byte that ends it, or none.
#[derive(Clone, Copy)]
pub enum Field {
    Number { value: u32, next: usize },
    Bad,
}

// What a line asks: zone z of a growth from n to n + m disks, or nothing that is answered.
#[derive(Clone, Copy)]
pub enum Request {
    Zone { n: u32, m: u32, z: u32 },
    Refused,
}

// The byte at i, and 0 after the end.
fn byte_at(s: &[u8], i: usize) -> u8
    ensures { result ≡ get_or s.now i 0 }
{
    if i < s.len() { s[i] } else { 0 }
}

fn is_digit(b: u8) -> bool
    ensures { result ≡ is_digit b }
{
    b'0' <= b && b <= b'9'
}

fn value_of(b: u8) -> u32
    requires { 48 ≤ b }
    ensures { result ≡ b - 48 }
{
    (b - 48) as u32
}

// What the bytes a, b, c, the first of them at `at`, begin with.
fn field_of(a: u8, b: u8, c: u8, at: usize, stop: u8) -> Field
    requires { at < 4096 }
    ensures { result ≡ field_of a b c at stop }
{
    if !is_digit(a) {
        return Field::Bad;
    }
    if b == stop {
        return Field::Number {
            value: value_of(a),
            next: at + 2,
        };
    }
    if a == b'0' {
        return Field::Bad;
    }
    if !is_digit(b) {
        return Field::Bad;
    }
    if c != stop {
        return Field::Bad;
    }
    Field::Number {
        value: 10 * value_of(a) + value_of(b),
        next: at + 3,
    }
}

fn field_at(s: &[u8], at: usize, stop: u8) -> Field
    requires { at < 4096 }
    ensures { result ≡ field_at s.now at stop }
{
    let a = byte_at(s, at);
    let b = byte_at(s, at + 1);
    let c = byte_at(s, at + 2);
    field_of(a, b, c, at, stop)
}

fn in_limits(n: u32, m: u32, z: u32) -> bool
    ensures { result ≡ in_limits n m z }
{
    if n < 3 {
        return false;
    }
    if 16 < n {
        return false;
    }
    if m < 1 {
        return false;
    }
    if 16 < m {
        return false;
    }
    z < n
}

pub fn request_of(s: &[u8]) -> Request
    ensures { result ≡ request_of s.now }
{
    let Field::Number { value: n, next: a } = field_at(s, 0, b' ') else {
        return Request::Refused;
    };
    let Field::Number { value: m, next: b } = field_at(s, a, b' ') else {
        return Request::Refused;
    };
    let Field::Number { value: z, next: _ } = field_at(s, b, b'\n') else {
        return Request::Refused;
    };
    if in_limits(n, m, z) {
        Request::Zone { n, m, z }
    } else {
        Request::Refused
    }
}
