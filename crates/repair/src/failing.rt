// Document 01: "**Out** (d): whole becomes out; out with another disk becomes lost."
ghost use Rattle.std.specs.Prelude.{◌≡◌, []};
ghost use Rattle.refusals.specs.Answers.{changed_answer, changed_record};
ghost use Rattle.calls.specs.Call.{out, feed, on};
ghost use Rattle.calls.specs.Table.{refusal_of};
ghost use Rattle.calls.specs.Effect.{act, called};

use refusals::{Refusal, after_out, of_out};
use state::{Record, with_health};

// The call once the table lets it through.
fn take_out(r: Record, d: u64) -> Record
    requires { refusal_of r (feed (out d) 0 0) ≡ 0 }
    ensures state { result ≡ (act (on (out d) [] []) r).state }
{
    with_health(r, after_out(r.health, d as u8))
}

pub fn out(r: Record, d: u64) -> Result<Record, Refusal>
    ensures answer { changed_answer result ≡ (called (on (out d) [] []) r).answer }
    ensures state { changed_record r result ≡ (called (on (out d) [] []) r).state }
{
    of_out(r, d)?;
    Ok(take_out(r, d))
}
