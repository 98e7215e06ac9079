// A record that is good, as a type: what takes one neither asks for that nor tests it.
ghost use Rattle.std.specs.Prelude.{◌≡◌, IfSome, is_some};
ghost use Rattle.std.specs.Coded.{le_prop};
ghost use Rattle.state.specs.Good.{good, GoodRecord, HealthWithin-prop};

use crate::good::is_good;
use crate::types::Record;

#[derive(Clone, Copy, PartialEq, Eq, Debug)]
pub struct Array {
    pub rec: Record,
    pub ghost good: { GoodRecord rec } by { Prim.hlevel (HealthWithin-prop, le_prop) },
}

// The array, if the record is good.
pub fn checked(r: Record) -> Option<Array>
    ensures answer { is_some result ≡ good r }
    ensures same { IfSome result (λ a. a.rec ≡ r) }
{
    if is_good(r) {
        Some(Array { rec: r })
    } else {
        None
    }
}
