#![tactic(auto)]
// Packets: the blocks that a list of packets makes known, and the packets of a list that contradict each other.
ghost use Rattle.std.specs.Prelude.{length, Ok};
ghost use Rattle.gf2.specs.Additions.{additions};
ghost use Rattle.images.specs.ReadOff.{unknown_block};
ghost use Rattle.refusals.specs.Checks.{SolvingPasses, ContradictionPasses};
ghost use Rattle.matrix.specs.Calls.{TableCleared};
ghost use Rattle.beside.specs.Beside.{BesideCleared};
ghost use Rattle.packets.specs.Solving.{Solving, SolvingPromised};
ghost use Rattle.packets.specs.Contradiction.{Judged, NamingPromised};

use matrix::Answer;
use readoff::Unsolved;
use refusals::Refusal;

// Named: packets that contradict each other have been named; None: there are none, some image meets all
#[derive(Clone, Copy, Debug, PartialEq, Eq)]
pub enum Verdict {
    Named,
    None,
}

// past the checks: reduces the packets in place, and tells which blocks they make known
fn solve_passed(
    m: &mut [u64],
    rows: usize,
    columns: usize,
    n: usize,
    k: usize,
    image: &mut [u64],
    marks: &mut [u8],
    room: &mut [u64],
) -> Result<Answer, Refusal>
    requires { SolvingPasses rows columns n k m.old (length image.old) (length marks.old) (length room.old) }
    ensures { Solving unknown_block (additions k columns) rows columns n m.old image.old marks.old result m.new image.new marks.new × TableCleared columns k room.old room.new }
{
    let mut pivots = [65535u16; 512];
    let reduced = engine::eliminate(m, room, rows, columns, k, &mut pivots).unwrap();
    // the widest block, unknown
    let unknown = [0u64; 16];
    match readoff::solution(m, rows, columns, n, &unknown, image, marks) {
        Ok(known) => Ok(Answer {
            rank: reduced.rank,
            known,
            additions: reduced.additions,
            pivots,
        }),
        Err(Unsolved::Contradictory) => Err(Refusal::Contradictory),
        // past the checks the shapes fit
        Err(Unsolved::Unfit) => unreachable!(),
    }
}

// the checks, then the solution
#[tactic(auto, using(refusals::proofs::Passed::solving_passed))]
pub fn solve(
    m: &mut [u64],
    rows: usize,
    columns: usize,
    n: usize,
    k: usize,
    image: &mut [u64],
    marks: &mut [u8],
    room: &mut [u64],
) -> Result<Answer, Refusal>
    ensures { SolvingPromised rows columns n k m.old image.old marks.old room.old result m.new image.new marks.new room.new }
{
    refusals::solving(m, rows, columns, n, k, image.len(), marks.len(), room.len())?;
    solve_passed(m, rows, columns, n, k, image, marks, room)
}

// past the checks: names packets that contradict each other, if there are any
fn name_passed(
    m: &[u64],
    rows: usize,
    columns: usize,
    n: usize,
    k: usize,
    named: &mut [u64],
    room: &mut [u64],
) -> Verdict
    requires { ContradictionPasses rows columns n k m.now (length named.old) (length room.old) }
    ensures { Judged rows columns n m.now named.old (Ok result) named.new × BesideCleared rows columns k room.old room.new }
{
    beside::reduce(room, m, rows, columns, k).unwrap();
    let any = readoff::named(room, rows, columns + rows, n, columns, named).unwrap();
    engine::zero_front(room, rows * words::per_row(columns + rows));
    if any { Verdict::Named } else { Verdict::None }
}

// the checks, then the names
#[tactic(auto, using(refusals::proofs::Passed::contradiction_passed))]
pub fn contradiction(
    m: &[u64],
    rows: usize,
    columns: usize,
    n: usize,
    k: usize,
    named: &mut [u64],
    room: &mut [u64],
) -> Result<Verdict, Refusal>
    ensures { NamingPromised rows columns n k m.now named.old room.old result named.new room.new }
{
    refusals::contradiction(m, rows, columns, n, k, named.len(), room.len())?;
    Ok(name_passed(m, rows, columns, n, k, named, room))
}
