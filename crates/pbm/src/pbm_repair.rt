// Out, begin and continue.
ghost use Rattle.std.specs.Prelude.{◌≡◌, [], ◌∷◌};
ghost use Rattle.calls.specs.Call.{out, begin, continue, on, number, beside};
ghost use Rattle.calls.specs.Effect.{called_bytes};

use crate::closing::{close, close_counted};
use crate::opening::opened;
use refusals::{Refusal, made_in};

#[unsafe(no_mangle)]
pub extern "C" fn pbm_out(rec: &mut [u8], d: u64) -> u8
    ensures answer { result ≡ number (called_bytes (on (out d) [] []) rec.old).answer }
    ensures state { rec.new ≡ (called_bytes (on (out d) [] []) rec.old).state }
{
    let Some(r) = opened(rec) else {
        return u8::from(Refusal::Record);
    };
    close(rec, repair::out(r, d))
}

#[unsafe(no_mangle)]
pub extern "C" fn pbm_begin(rec: &mut [u8], images: &[u8], d: u64) -> u8
    ensures answer { result ≡ number (called_bytes (on (begin d) images.now []) rec.old).answer }
    ensures state { rec.new ≡ (called_bytes (on (begin d) images.now []) rec.old).state }
{
    let Some(r) = opened(rec) else {
        return u8::from(Refusal::Record);
    };
    close(rec, repair::begin_rebuild(r, images, d))
}

#[unsafe(no_mangle)]
pub extern "C" fn pbm_continue(rec: &mut [u8], images: &mut [u8], k: u64, made: &mut u64) -> u8
    ensures answer { result ≡ number (called_bytes (on (continue k) images.old []) rec.old).answer }
    ensures beside { (made.new ∷ []) ≡
        beside 1 (called_bytes (on (continue k) images.old []) rec.old).answer }
    ensures state { rec.new ≡ (called_bytes (on (continue k) images.old []) rec.old).state }
    ensures images { images.new ≡ (called_bytes (on (continue k) images.old []) rec.old).images }
{
    let Some(r) = opened(rec) else {
        *made = 0;
        return u8::from(Refusal::Record);
    };
    let x = repair::continue_rebuild(r, images, k);
    // (the count before the record, in pbm_advance after it)
    *made = made_in(x);
    close_counted(rec, x)
}
