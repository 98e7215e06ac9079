// Prints the moves of one zone of a growth. Input: a line "n m z"; any other input prints "refused 6".
#![tactic(auto)]

mod listing;
mod parse;
mod print;

ghost use Rattle.std.specs.Prelude.{◌≡◌, ◌≤◌, length, take};

use std::io;
use std::io::{Read, Write};

// Room for the longest line that asks for a zone: `16 16 15` and a line feed.
fn line_buffer() -> [u8; 9]
    ensures { 9 ≡ length result }
{
    [0; 9]
}

// Room for the longest answer.
fn answer_buffer() -> [u8; 4352]
    ensures { 4352 ≡ length result }
{
    [0; 4352]
}

// A byte, if there is one: answers how many were read. A read that fails counts as the end.
fn read_one(input: &mut impl Read, one: &mut [u8; 1]) -> usize {
    match input.read(one) {
        Ok(k) => k,
        Err(_) => 0,
    }
}

// Reads up to and with a line feed, and no further, so that a line typed at a terminal is answered at once: to the end of the input or of
// `line` where none comes. Answers how many bytes it put at the start of `line`. Which they are is left open, as no contract knows the
// input: it says that they fit. The rest is run.
fn read_line(input: &mut impl Read, line: &mut [u8]) -> usize
    ensures { (result ≤ length line.new) × (result ≡ length (take result line.new)) }
{
    let mut n = 0;
    while n < line.len() {
        let mut one = [0u8; 1];
        if read_one(input, &mut one) == 0 {
            return n;
        }
        let b = one[0];
        line[n] = b;
        n += 1;
        if b == b'\n' {
            return n;
        }
    }
    n
}

fn main(rt: HostRuntime) -> io::Result<()> {
    let mut line = line_buffer();
    let n = read_line(&mut rt.stdin(), &mut line);
    let mut out = answer_buffer();
    let k = listing::answer_to(&line[..n], &mut out);
    rt.stdout().write_all(&out[..k])
}
