#![tactic(auto)]
// The row view, and the reduction by the table.
ghost use Rattle.std.specs.Prelude.{◌≡◌, length, Ok};
ghost use Rattle.words.specs.Words.{StandsAt};
ghost use Rattle.gf2.specs.Additions.{additions};
ghost use Rattle.refusals.specs.Checks.{ReductionPasses};
ghost use Rattle.matrix.specs.Calls.{row_view, row_place, Reduction, TableCleared, ReductionPromised};

use refusals::Refusal;

// what reduction and solving answer: the rank; how many blocks are known, 0 in a reduction; the table additions; and the pivot columns from the top row down,
// with 65,535 in the places behind them
#[derive(Clone, Copy)]
pub struct Answer {
    pub rank: usize,
    pub known: usize,
    pub additions: usize,
    pub pivots: [u16; 512],
}

// the words of row i, lent on from the caller's matrix; no words where the call refuses
pub fn row_view(m: &[u64], rows: usize, columns: usize, i: usize) -> &[u64]
    ensures { (result.now ≡ row_view rows columns i m.now) × StandsAt (row_place rows columns i (length m.now)) result m.entry }
{
    match refusals::view(rows, columns, m.len(), i) {
        Err(_) => &m[..0],
        Ok(()) => {
            let w = words::per_row(columns);
            let a = i * w;
            &m[a..a + w]
        }
    }
}

// past the checks: reduces the matrix in place, by windows of k columns, with tables in the work room
fn reduce_passed(m: &mut [u64], rows: usize, columns: usize, k: usize, room: &mut [u64]) -> Answer
    requires { ReductionPasses rows columns k m.old (length room.old) }
    ensures { Reduction (additions k columns) rows columns m.old (Ok result) m.new × TableCleared columns k room.old room.new }
{
    let mut pivots = [65535u16; 512];
    let reduced = engine::eliminate(m, room, rows, columns, k, &mut pivots).unwrap();
    Answer {
        rank: reduced.rank,
        known: 0,
        additions: reduced.additions,
        pivots,
    }
}

// the checks, then the reduction
#[tactic(auto, using(refusals::proofs::Passed::reduction_passed))]
pub fn reduce(
    m: &mut [u64],
    rows: usize,
    columns: usize,
    k: usize,
    room: &mut [u64],
) -> Result<Answer, Refusal>
    ensures { ReductionPromised rows columns k m.old room.old result m.new room.new }
{
    refusals::reduction(m, rows, columns, k, room.len())?;
    Ok(reduce_passed(m, rows, columns, k, room))
}
