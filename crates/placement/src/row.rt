// A stripe of an array, taken apart once. What is asked of its disks are methods, in `home`, `closed`, `blanks` and `placing`.
ghost use Rattle.std.specs.Prelude.{◌≡◌};
ghost use Rattle.layout.specs.Closed.{stripe_of};
ghost use Rattle.layout.specs.Limits.{Sizes, TakenApart};

use layout::{Geometry, Stripe};

#[derive(Clone, Copy)]
pub struct Row {
    pub array: Geometry,
    pub stripe: Stripe,
    pub ghost apart: { TakenApart array.old array.new stripe },
}

impl Row {
    // Stripe s.
    pub fn of(array: Geometry, s: u32) -> Row
        requires { Sizes array.old array.new s }
        ensures { (result.array ≡ array) × (result.stripe ≡ stripe_of array.old array.new s) }
    {
        Row {
            array,
            stripe: Stripe {
                number: s,
                zone: s / (array.old + array.new),
                within: s % (array.old + array.new),
                home: s % array.old,
            },
        }
    }
}
