#![tactic(auto)]
// The inverse of a square matrix.
ghost use Rattle.std.specs.Prelude.{length};
ghost use Rattle.refusals.specs.Checks.{InversePasses};
ghost use Rattle.beside.specs.Beside.{BesideCleared};
ghost use Rattle.inverse.specs.Calls.{Inverted, InversionPromised};

use refusals::{Outcome, Refusal};

// past the checks: the inverse of the n x n matrix in m is written to the result; refused where there is none
fn invert_passed(m: &[u64], n: usize, k: usize, res: &mut [u64], room: &mut [u64]) -> Outcome
    requires { InversePasses n n k m.now (length res.old) (length room.old) }
    ensures { Inverted n m.now res.old result res.new × BesideCleared n n k room.old room.new }
{
    beside::reduce(room, m, n, n, k).unwrap();
    let exists = readoff::right_half(room, n, res).unwrap();
    engine::zero_front(room, n * words::per_row(n + n));
    if exists {
        Ok(())
    } else {
        Err(Refusal::NoInverse)
    }
}

// the checks, then the inverse
#[tactic(auto, using(refusals::proofs::Passed::inverse_passed, crate::proofs::Calls::squared))]
pub fn invert(
    m: &[u64],
    rows: usize,
    columns: usize,
    k: usize,
    res: &mut [u64],
    room: &mut [u64],
) -> Outcome
    ensures { InversionPromised rows columns k m.now res.old room.old result res.new room.new }
{
    refusals::inverse(m, rows, columns, k, res.len(), room.len())?;
    invert_passed(m, rows, k, res, room)
}
