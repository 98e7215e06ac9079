// Format, grow and advance.
ghost use Rattle.std.specs.Prelude.{◌≡◌, [], ◌∷◌};
ghost use Rattle.calls.specs.Call.{format, grow, advance, on, number, beside};
ghost use Rattle.calls.specs.Effect.{called_bytes};

use crate::closing::{close, close_counted};
use crate::opening::opened;
use refusals::{Refusal, made_in};
use state::RECORD_LENGTH;

#[unsafe(no_mangle)]
pub extern "C" fn pbm_format(
    rec: &mut [u8],
    images: &mut [u8],
    n: u64,
    block: u64,
    stripes: u64,
) -> u8
    ensures answer { result ≡ number (called_bytes (on (format n block stripes) images.old []) rec.old).answer }
    ensures state { rec.new ≡
        (called_bytes (on (format n block stripes) images.old []) rec.old).state }
    ensures images { images.new ≡
        (called_bytes (on (format n block stripes) images.old []) rec.old).images }
{
    if rec.len() != RECORD_LENGTH {
        return u8::from(Refusal::Record);
    }
    close(rec, growth::format(images, n, block, stripes))
}

#[unsafe(no_mangle)]
pub extern "C" fn pbm_grow(rec: &mut [u8], images: &mut [u8], m: u64) -> u8
    ensures answer { result ≡ number (called_bytes (on (grow m) images.old []) rec.old).answer }
    ensures state { rec.new ≡ (called_bytes (on (grow m) images.old []) rec.old).state }
    ensures images { images.new ≡ (called_bytes (on (grow m) images.old []) rec.old).images }
{
    let Some(r) = opened(rec) else {
        return u8::from(Refusal::Record);
    };
    close(rec, growth::grow(r, images, m))
}

#[unsafe(no_mangle)]
pub extern "C" fn pbm_advance(rec: &mut [u8], images: &mut [u8], k: u64, made: &mut u64) -> u8
    ensures answer { result ≡ number (called_bytes (on (advance k) images.old []) rec.old).answer }
    ensures beside { (made.new ∷ []) ≡
        beside 1 (called_bytes (on (advance k) images.old []) rec.old).answer }
    ensures state { rec.new ≡ (called_bytes (on (advance k) images.old []) rec.old).state }
    ensures images { images.new ≡ (called_bytes (on (advance k) images.old []) rec.old).images }
{
    let Some(r) = opened(rec) else {
        *made = 0;
        return u8::from(Refusal::Record);
    };
    let x = growth::advance(r, images, k);
    // (the count after the record, in pbm_continue before it, as no contract can say: tests/tests/stores.rs)
    let number = close_counted(rec, x);
    *made = made_in(x);
    number
}
