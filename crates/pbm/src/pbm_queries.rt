// The calls that answer from the record alone. The numbers are 0 until the call is known to be accepted.
ghost use Rattle.std.specs.Prelude.{◌≡◌, [], ◌∷◌};
ghost use Rattle.calls.specs.Call.{status, locate, owner, on, number, role_number, role_block, beside};
ghost use Rattle.calls.specs.Effect.{called_bytes};

use crate::opening::opened;
use layout::Role;
use refusals::Refusal;
use state::{disk_byte, health_byte, stripes_done};

#[unsafe(no_mangle)]
pub extern "C" fn pbm_status(
    rec: &[u8],
    capacity: &mut u64,
    moves: &mut u64,
    total: &mut u64,
    health: &mut u64,
    out: &mut u64,
    rebuilt: &mut u64,
) -> u8
    ensures answer { result ≡ number (called_bytes (on status [] []) rec.now).answer }
    ensures beside { (capacity.new ∷ moves.new ∷ total.new ∷ health.new ∷ out.new
        ∷ rebuilt.new ∷ []) ≡ beside 6 (called_bytes (on status [] []) rec.now).answer }
{
    *capacity = 0;
    *moves = 0;
    *total = 0;
    *health = 0;
    *out = 0;
    *rebuilt = 0;
    let Some(r) = opened(rec) else {
        return u8::from(Refusal::Record);
    };
    match queries::status(r) {
        Ok(x) => {
            *capacity = x.capacity;
            *moves = x.moves;
            *total = x.total;
            *health = health_byte(x.health) as u64;
            *out = disk_byte(x.health) as u64;
            *rebuilt = stripes_done(x.health) as u64;
            0
        }
        Err(e) => u8::from(e),
    }
}

#[unsafe(no_mangle)]
pub extern "C" fn pbm_locate(
    rec: &[u8],
    b: u64,
    stripe: &mut u64,
    disk: &mut u64,
    parity: &mut u64,
    moved: &mut u64,
) -> u8
    ensures answer { result ≡ number (called_bytes (on (locate b) [] []) rec.now).answer }
    ensures beside { (stripe.new ∷ disk.new ∷ parity.new ∷ moved.new ∷ []) ≡
        beside 4 (called_bytes (on (locate b) [] []) rec.now).answer }
{
    *stripe = 0;
    *disk = 0;
    *parity = 0;
    *moved = 0;
    let Some(r) = opened(rec) else {
        return u8::from(Refusal::Record);
    };
    match queries::locate(r, b) {
        Ok(x) => {
            *stripe = x.block.stripe as u64;
            *disk = x.block.disk as u64;
            *parity = x.parity.disk as u64;
            *moved = u64::from(x.moved);
            0
        }
        Err(e) => u8::from(e),
    }
}

#[unsafe(no_mangle)]
pub extern "C" fn pbm_owner(rec: &[u8], s: u64, d: u64, role: &mut u64, block: &mut u64) -> u8
    ensures answer { result ≡ number (called_bytes (on (owner s d) [] []) rec.now).answer }
    ensures beside { (role.new ∷ block.new ∷ []) ≡
        beside 2 (called_bytes (on (owner s d) [] []) rec.now).answer }
{
    *role = 0;
    *block = 0;
    let Some(r) = opened(rec) else {
        return u8::from(Refusal::Record);
    };
    match queries::owner(r, s, d) {
        Ok(o) => {
            *role = role_number(o);
            *block = role_block(o);
            0
        }
        Err(e) => u8::from(e),
    }
}

// (Numbers for kinds, as C has them.)
fn role_number(o: Role) -> u64
    ensures number { result ≡ role_number o }
{
    match o {
        Role::Blank => 0,
        Role::Parity => 1,
        Role::Data(_) => 2,
    }
}

fn role_block(o: Role) -> u64
    ensures block { result ≡ role_block o }
{
    match o {
        Role::Blank | Role::Parity => 0,
        Role::Data(b) => b as u64,
    }
}
