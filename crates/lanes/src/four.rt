// Four of a width are a width.
ghost use Rattle.std.specs.Prelude.{◌*◌};
ghost use Rattle.std.proofs.Common.{lit≤};
ghost use Rattle.lanes.specs.Lanes.{four_bytes};
ghost use Rattle.lanes.specs.Laws.{four-positive, four-long};

use crate::types::{Four, Lane};
use crate::wide::{Quarter, Wide};

impl<T: Quarter> Wide for Four<T> {
    const LEN: usize = 4 * T::LEN;

    ghost LEN = { 4 * T.LEN };

    ghost bytes = { four_bytes T.bytes };

    ghost positive = { four-positive T.positive };

    ghost long = { four-long T.bytes T.long };

    fn load(source: &[u8], at: usize) -> Four<T> {
        let len = T::LEN;
        Four {
            a: T::load(source, at),
            b: T::load(source, at + len),
            c: T::load(source, at + 2 * len),
            d: T::load(source, at + 3 * len),
        }
    }

    fn xor(self, other: Four<T>) -> Four<T> {
        Four {
            a: self.a.xor(other.a),
            b: self.b.xor(other.b),
            c: self.c.xor(other.c),
            d: self.d.xor(other.d),
        }
    }

    fn store(self, target: &mut [u8], at: usize) {
        let len = T::LEN;
        self.a.store(target, at);
        self.b.store(target, at + len);
        self.c.store(target, at + 2 * len);
        self.d.store(target, at + 3 * len);
    }
}

impl Quarter for Four<u8> {
    ghost small = { lit≤ tt };
}

impl Quarter for Lane {
    ghost small = { lit≤ tt };
}
