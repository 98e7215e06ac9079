// When a call is refused, and with what.
ghost use Rattle.std.specs.Prelude.{◌≡◌, Err};
ghost use Rattle.packing.specs.Number.{number_of};
ghost use Rattle.points.specs.Answer.{answer};

// The error: an odd length, or two lengths that differ.
#[derive(Clone, Copy, Debug, PartialEq, Eq)]
pub struct BadPoints;

// Its number, which C is told.
impl From<BadPoints> for u8 {
    ghost from_gives = { λ e n. n ≡ number_of (Err e) };

    fn from(_e: BadPoints) -> u8 {
        11
    }
}

// Whether a call that is lent these two is accepted.
#[tactic(auto, unfolding(points::specs::Answer::refused))]
pub(crate) fn check(source: &[u8], target: &[u8]) -> Result<(), BadPoints>
    ensures answer { number_of result ≡ answer source.now target.now }
{
    if source.len() % 2 != 0 || source.len() != target.len() {
        return Err(BadPoints);
    }
    Ok(())
}
