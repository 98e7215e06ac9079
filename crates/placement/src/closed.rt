// Where the contents of a stripe stand after the moves made, by the closed form.
ghost use Rattle.std.specs.Prelude.{◌<◌, ◌≡◌};
ghost use Rattle.layout.specs.Closed.{lag, carried_to, source, taken};

use crate::choice::pick;
use crate::row::Row;
use layout::Carried;

impl Row {
    // The lag of the one move that can carry what stood on disk d.
    fn lag_of(self, d: u32) -> u32
        requires { d < self.array.old }
        ensures { result ≡ lag self.array.old self.stripe.number d }
    {
        let home = self.stripe.home;
        if d <= home {
            home - d
        } else {
            home + self.array.old - d
        }
    }

    // Where, now, stands what stood on disk d, and whether a move carried it there.
    pub(crate) fn carried_to(self, d: u32) -> Carried
        requires { d < self.array.old }
        ensures { result ≡ carried_to self.array.old self.array.new self.array.moves self.stripe.number d }
    {
        let n = self.array.old;
        let m = self.array.new;
        let i = self.lag_of(d);
        let p = self.stripe.within + i;
        let turn = (self.stripe.zone * m + p.saturating_sub(n)) * n + i;
        let moved = (n <= p) & (p < n + m) & (turn < self.array.moves);
        Carried {
            disk: pick(moved, p, d),
            moved,
        }
    }

    // The only disk, an old one, whose content can have come to stand on disk e.
    pub(crate) fn source_of(self, e: u32) -> u32
        ensures { (result ≡ source self.array.old self.array.new self.stripe.number e) × (result < self.array.old) }
    {
        let n = self.array.old;
        let i = e.saturating_sub(self.stripe.within);
        let d = self.lag_of(pick(n <= i, 0, i));
        pick(e < n, e, d)
    }

    // Does anything of before the growth stand on disk e?
    pub fn is_taken(self, e: u32) -> bool
        ensures { result ≡ taken self.array.old self.array.new self.array.moves self.stripe.number e }
    {
        self.carried_to(self.source_of(e)).disk == e
    }
}
