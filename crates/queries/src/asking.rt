// Document 01: "**Status**: capacity, t, total, health.", "**Locate** (b): the stripe and disk of block b. **Owner** (S, d): the block
// number there, or parity, or blank. Both read the record only." Document 02, (f): locate also answers the parity's place and "whether a
// move now done, of any growth, carried the block itself".
ghost use Rattle.std.specs.Prelude.{◌≡◌, []};
ghost use Rattle.refusals.specs.Answers.{report_answer, located_answer, owned_answer};
ghost use Rattle.calls.specs.Call.{status, locate, owner, feed, on, figures, placed, owned};
ghost use Rattle.calls.specs.Table.{refusal_of};
ghost use Rattle.calls.specs.Effect.{act, called};

use layout::{Role, Standing};
use placement::{capacity_of, owner_of, place_of, slot_of, total_of};
use refusals::{Figures, Refusal, of_locate, of_owner, of_status};
use state::{Record, geometry_of};

// Status once the table lets it through.
fn figures_of(r: Record) -> Figures
    requires { refusal_of r (feed status 0 0) ≡ 0 }
    ensures answer { figures result.capacity result.moves result.total result.health ≡ (act (on status [] []) r).answer }
{
    let g = geometry_of(r);
    Figures {
        capacity: capacity_of(g) as u64,
        moves: g.moves as u64,
        total: total_of(g) as u64,
        health: r.health,
    }
}

pub fn status(r: Record) -> Result<Figures, Refusal>
    ensures answer { report_answer result ≡ (called (on status [] []) r).answer }
{
    of_status(r)?;
    Ok(figures_of(r))
}

// Locate once the table lets it through.
fn standing_of(r: Record, b: u64) -> Standing
    requires { refusal_of r (feed (locate b) 0 0) ≡ 0 }
    ensures answer { placed result ≡ (act (on (locate b) [] []) r).answer }
{
    let g = geometry_of(r);
    place_of(g, b, slot_of(g, b))
}

pub fn locate(r: Record, b: u64) -> Result<Standing, Refusal>
    ensures answer { located_answer result ≡ (called (on (locate b) [] []) r).answer }
{
    of_locate(r, b)?;
    Ok(standing_of(r, b))
}

// Owner once the table lets it through.
fn role_at(r: Record, s: u64, d: u64) -> Role
    requires { refusal_of r (feed (owner s d) 0 0) ≡ 0 }
    ensures answer { owned result ≡ (act (on (owner s d) [] []) r).answer }
{
    owner_of(geometry_of(r), s as u32, d as u32)
}

pub fn owner(r: Record, s: u64, d: u64) -> Result<Role, Refusal>
    ensures answer { owned_answer result ≡ (called (on (owner s d) [] []) r).answer }
{
    of_owner(r, s, d)?;
    Ok(role_at(r, s, d))
}
