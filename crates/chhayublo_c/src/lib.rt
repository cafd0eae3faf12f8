// The archive that C links: the calls of the crate chhayublo with C's calling convention, each with the clauses that it has there.
#![tactic(auto)]

ghost use Rattle.std.specs.Prelude.{◌≡◌, length, Result};
ghost use Rattle.gf2.specs.Rows.{part};
ghost use Rattle.refusals.specs.declared.Refusal.{Refusal};
ghost use Rattle.refusals.specs.Outcome.{Outcome, outcome_number};
ghost use Rattle.matrix.specs.declared.Answer.{Answer};
ghost use Rattle.matrix.specs.Calls.{row_view, ReductionPromised};
ghost use Rattle.inverse.specs.Calls.{InversionPromised};
ghost use Rattle.packets.specs.declared.Verdict.{Verdict};
ghost use Rattle.packets.specs.Solving.{SolvingPromised};
ghost use Rattle.packets.specs.Contradiction.{NamingPromised};
ghost use Rattle.bundle.specs.Bundle.{both_kinds, meaning};
ghost use Rattle.bundle.specs.Answers.{counted_in, find, told_of, lent_entry, unpacked_of};
ghost use Rattle.pack.specs.Writing.{written, output};
ghost use Rattle.chhayublo.specs.Calls.{seen_row, seen_answer, seen_verdict, seen_count, seen_entry, seen_length, version};

use chhayublo::{SeenAnswer, SeenCount, SeenEntry, SeenLength, SeenNames, SeenRow};

#[unsafe(no_mangle)]
pub extern "C" fn chhayublo_version() -> u64
    ensures { result ≡ version }
{
    chhayublo::chhayublo_version()
}

#[unsafe(no_mangle)]
pub extern "C" fn chhayublo_row_view(m: &[u64], rows: usize, columns: usize, i: usize) -> SeenRow
    ensures { (result ≡ seen_row rows columns i m.now) × (part result.start result.words m.now ≡ row_view rows columns i m.now) }
{
    chhayublo::chhayublo_row_view(m, rows, columns, i)
}

#[unsafe(no_mangle)]
pub extern "C" fn chhayublo_reduce(
    m: &mut [u64],
    rows: usize,
    columns: usize,
    k: usize,
    room: &mut [u64],
) -> SeenAnswer
    ensures { (a : Result Answer Refusal) × ReductionPromised rows columns k m.old room.old a m.new room.new × (result ≡ seen_answer a) }
{
    chhayublo::chhayublo_reduce(m, rows, columns, k, room)
}

#[unsafe(no_mangle)]
pub extern "C" fn chhayublo_invert(
    m: &[u64],
    rows: usize,
    columns: usize,
    k: usize,
    res: &mut [u64],
    room: &mut [u64],
) -> u64
    ensures { (o : Outcome) × InversionPromised rows columns k m.now res.old room.old o res.new room.new × (result ≡ outcome_number o) }
{
    chhayublo::chhayublo_invert(m, rows, columns, k, res, room)
}

#[unsafe(no_mangle)]
pub extern "C" fn chhayublo_solve(
    m: &mut [u64],
    rows: usize,
    columns: usize,
    n: usize,
    k: usize,
    image: &mut [u64],
    marks: &mut [u8],
    room: &mut [u64],
) -> SeenAnswer
    ensures { (a : Result Answer Refusal) × SolvingPromised rows columns n k m.old image.old marks.old room.old a m.new image.new marks.new room.new × (result ≡ seen_answer a) }
{
    chhayublo::chhayublo_solve(m, rows, columns, n, k, image, marks, room)
}

#[unsafe(no_mangle)]
pub extern "C" fn chhayublo_contradiction(
    m: &[u64],
    rows: usize,
    columns: usize,
    n: usize,
    k: usize,
    named: &mut [u64],
    room: &mut [u64],
) -> SeenNames
    ensures { (v : Result Verdict Refusal) × NamingPromised rows columns n k m.now named.old room.old v named.new room.new × (result ≡ seen_verdict v) }
{
    chhayublo::chhayublo_contradiction(m, rows, columns, n, k, named, room)
}

#[unsafe(no_mangle)]
pub extern "C" fn chhayublo_bundle_read(bytes: &[u8]) -> SeenCount
    ensures { result ≡ seen_count (counted_in (meaning both_kinds bytes.now)) }
{
    chhayublo::chhayublo_bundle_read(bytes)
}

#[unsafe(no_mangle)]
pub extern "C" fn chhayublo_bundle_entry(bytes: &[u8], i: usize) -> SeenEntry
    ensures { result ≡ seen_entry (told_of (find i (meaning both_kinds bytes.now))) }
{
    chhayublo::chhayublo_bundle_entry(bytes, i)
}

#[unsafe(no_mangle)]
pub extern "C" fn chhayublo_bundle_unpack(bytes: &[u8], i: usize, words: &mut [u64]) -> SeenEntry
    ensures { (result ≡ seen_entry (told_of (lent_entry both_kinds i bytes.now words.old))) × (words.new ≡ unpacked_of (lent_entry both_kinds i bytes.now words.old) words.old) }
{
    chhayublo::chhayublo_bundle_unpack(bytes, i, words)
}

#[unsafe(no_mangle)]
pub extern "C" fn chhayublo_bundle_write(
    kinds: &[u16],
    rows: &[u16],
    columns: &[u16],
    words: &[u64],
    out: &mut [u8],
) -> SeenLength
    ensures { (result ≡ seen_length (written both_kinds kinds.now rows.now columns.now words.now (length out.old))) × (out.new ≡ output both_kinds kinds.now rows.now columns.now words.now out.old) }
{
    chhayublo::chhayublo_bundle_write(kinds, rows, columns, words, out)
}
