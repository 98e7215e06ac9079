// Answers in numbers.
ghost use Rattle.std.specs.Prelude.{◌≡◌};
ghost use Rattle.calls.specs.Call.{count};
ghost use Rattle.refusals.specs.Answers.{number_of, counted_answer};

use crate::types::{Progress, Refusal};

// 0, or the refusal's number.
pub fn number_of(x: Result<(), Refusal>) -> u8
    ensures number { result ≡ number_of x }
{
    match x {
        Ok(()) => 0,
        Err(e) => u8::from(e),
    }
}

// The moves or stripes made, beside the number: by a refused call, none.
pub fn made_in(x: Result<Progress, Refusal>) -> u64
    ensures count { result ≡ count (counted_answer x) }
{
    match x {
        Ok(done) => done.made,
        Err(_) => 0,
    }
}
