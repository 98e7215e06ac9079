// The blank places of a stripe, counted from the lowest disk. Once all moves of its zone have been made: with s its place in the zone and
// P its parity disk, its moves have the lags i with n <= s + i < n + m, and each leaves the old disk i below P, counted on from disk n - 1:
// what is left is one run of disks up to P and one above it. The new disks that no move goes to are one run below s and one from
// s + n on. So the blanks are at most four runs of consecutive disks, and none of them has to be looked for. While none of its moves has
// been made, as in the tail for good, they are one run: the new disks.
ghost use Rattle.std.specs.Prelude.{◌<◌, ◌≤◌, ◌+◌, ◌-◌, ◌≡◌, false, leb, length, get_or};
ghost use Rattle.layout.specs.Closed.{taken};
ghost use Rattle.layout.specs.Blanks.{blanks, blanks_below};
ghost use Rattle.layout.specs.Runs.{settled, Resting, first_lag, end_lag, runs_of, lift_of};

use crate::choice::pick;
use crate::row::Row;
use layout::Runs;

impl Row {
    // The lags of the stripe's moves: from the first ..
    fn first_lag(self) -> u32
        ensures { result ≡ first_lag self.array.old self.stripe.within }
    {
        self.array.old.saturating_sub(self.stripe.within)
    }

    // .. to below this one.
    fn end_lag(self) -> u32
        ensures { result ≡ end_lag self.array.old self.array.new self.stripe.within }
    {
        self.array.old - self.stripe.within.saturating_sub(self.array.new)
    }

    fn runs(self) -> Runs
        ensures { result ≡ runs_of self.array.old self.array.new self.stripe.within self.stripe.home }
    {
        let n = self.array.old;
        let first = self.first_lag();
        let end = self.end_lag();
        let left = end - first;
        let early = left + self.stripe.within.saturating_sub(n);
        let past = self.stripe.home + 1;
        let low = past.saturating_sub(end);
        Runs {
            low,
            high: n - end.saturating_sub(past),
            some: past.saturating_sub(first) - low,
            left,
            early,
        }
    }

    // How far a blank's disk is above the blank's number, once all moves of the stripe's zone have been made. All along a run that is the
    // same, and it is picked: is the blank on an old disk, and if so in the first run; and if not, in the third?
    fn lift(self, r: Runs, old: bool, low: bool, early: bool) -> u32
        requires { r ≡ runs_of self.array.old self.array.new self.stripe.within self.stripe.home }
        ensures { result ≡ lift_of self.array.old self.stripe.within r old low early }
    {
        let n = self.array.old;
        let left = pick(low, r.low, r.high - r.some);
        let new = pick(early, n - r.left, self.stripe.within + n - r.early);
        pick(old, left, new)
    }

    // That of blank place j ..
    fn nth_lift(self, j: u32) -> u32
        requires { j < self.array.new }
        ensures { let n = self.array.old in let m = self.array.new in let S = self.stripe.number in
            j + result ≡ get_or (blanks n m (settled n m S) S) j 0 }
    {
        let r = self.runs();
        self.lift(r, j < r.left, j < r.some, j < r.early)
    }

    // .. and that of disk e, if that is blank.
    fn disk_lift(self, e: u32) -> u32
        requires { e < self.array.old + self.array.new }
        ensures { let n = self.array.old in let m = self.array.new in let S = self.stripe.number in
            taken n m (settled n m S) S e ≡ false → e - result ≡ length (blanks_below n m (settled n m S) S e) }
    {
        let r = self.runs();
        self.lift(
            r,
            e < self.array.old,
            e <= self.stripe.home,
            e < self.stripe.within,
        )
    }

    // Have all moves of the stripe's zone been made? (With no division, as the stripe is taken apart.)
    pub(crate) fn is_settled(self) -> bool
        ensures { result ≡ leb (settled self.array.old self.array.new self.stripe.number) self.array.moves }
    {
        (self.stripe.zone + 1) * self.array.new * self.array.old <= self.array.moves
    }

    // The disk of blank place j, all moves of the stripe's zone made or none of them: then the new disks are the blanks.
    pub(crate) fn nth_blank(self, j: u32) -> u32
        requires { Resting self.array.old self.array.new self.array.moves self.stripe.number × (j < self.array.new) }
        ensures { result ≡ get_or (blanks self.array.old self.array.new self.array.moves self.stripe.number) j 0 }
    {
        j + pick(self.is_settled(), self.nth_lift(j), self.array.old)
    }

    // The way back: the number of blank places below disk e, if that is one itself. (Of any stripe; where only some moves of its zone are
    // made the answer means nothing, and is at most e.)
    pub(crate) fn count_below(self, e: u32) -> u32
        requires { e < self.array.old + self.array.new }
        ensures { let g = self.array in let S = self.stripe.number in
            (result ≤ e) × (Resting g.old g.new g.moves S → taken g.old g.new g.moves S e ≡ false
            → result ≡ length (blanks_below g.old g.new g.moves S e)) }
    {
        e.saturating_sub(pick(self.is_settled(), self.disk_lift(e), self.array.old))
    }
}
