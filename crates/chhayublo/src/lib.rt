#![tactic(auto)]
// The calls as C sees them: plain numbers and structs. The crate chhayublo_c exports them; a slice is passed as a pointer and a length, and include/chhayublo.h declares all of it for C.
ghost use Rattle.std.specs.Prelude.{◌≡◌, length, Result};
ghost use Rattle.gf2.specs.Rows.{part};
ghost use Rattle.refusals.specs.declared.Refusal.{Refusal};
ghost use Rattle.refusals.specs.Outcome.{Outcome, outcome_number};
ghost use Rattle.matrix.specs.declared.Answer.{Answer};
ghost use Rattle.matrix.specs.Calls.{row_view, ReductionPromised};
ghost use Rattle.inverse.specs.Calls.{InversionPromised};
ghost use Rattle.packets.specs.declared.Verdict.{Verdict};
ghost use Rattle.packets.specs.Solving.{SolvingPromised};
ghost use Rattle.packets.specs.Contradiction.{NamingPromised};
ghost use Rattle.bundle.specs.Bundle.{both_kinds, meaning};
ghost use Rattle.bundle.specs.Answers.{counted_in, find, told_of, lent_entry, unpacked_of};
ghost use Rattle.pack.specs.Writing.{written, output};
ghost use Rattle.chhayublo.specs.Calls.{seen_row, seen_answer, seen_verdict, seen_count, seen_entry, seen_length, version};

use bundle::Numbers;
use matrix::Answer;
use packets::Verdict;
use refusals::Refusal;

// where a row stands in the caller's words: its first word, and how many words it has; 0 and 0 where the view is refused
#[repr(C)]
#[derive(Clone, Copy)]
pub struct SeenRow {
    pub start: usize,
    pub words: usize,
}

// what reduction and solving answer; refusal is its number, or 0
#[repr(C)]
#[derive(Clone, Copy)]
pub struct SeenAnswer {
    pub refusal: u64,
    pub rank: usize,
    pub known: usize,
    pub additions: usize,
    pub pivots: [u16; 512],
}

// what the contradiction call answers: named is 1 where packets have been named, else 0
#[repr(C)]
#[derive(Clone, Copy)]
pub struct SeenNames {
    pub refusal: u64,
    pub named: u64,
}

// how many entries a bundle has
#[repr(C)]
#[derive(Clone, Copy)]
pub struct SeenCount {
    pub refusal: u64,
    pub entries: usize,
}

// an entry's three numbers
#[repr(C)]
#[derive(Clone, Copy)]
pub struct SeenEntry {
    pub refusal: u64,
    pub kind: u64,
    pub rows: u64,
    pub columns: u64,
}

// how many bytes a written bundle has; a struct of its own, as the header has it
#[repr(C)]
#[derive(Clone, Copy)]
pub struct SeenLength {
    pub refusal: u64,
    pub bytes: usize,
}

// the version of these structs and calls: grows with each change of them, together with the header's and the bindings' number
pub fn chhayublo_version() -> u64
    ensures { result ≡ version }
{
    1
}

pub fn chhayublo_row_view(m: &[u64], rows: usize, columns: usize, i: usize) -> SeenRow
    ensures { (result ≡ seen_row rows columns i m.now) × (part result.start result.words m.now ≡ row_view rows columns i m.now) }
{
    let shown = matrix::row_view(m, rows, columns, i);
    let words = shown.len();
    if words == 0 {
        return SeenRow { start: 0, words: 0 };
    }
    SeenRow {
        start: i * words,
        words,
    }
}

// an answer as C sees it: beside a refusal no rank, no totals, no pivots
impl From<Result<Answer, Refusal>> for SeenAnswer {
    ghost from_gives = { λ a s. s ≡ seen_answer a };

    fn from(answer: Result<Answer, Refusal>) -> SeenAnswer {
        let refusal = u64::from(refusals::number(&answer));
        match answer {
            Ok(a) => {
                let pivots = a.pivots;
                SeenAnswer {
                    refusal,
                    rank: a.rank,
                    known: a.known,
                    additions: a.additions,
                    pivots,
                }
            }
            Err(_) => {
                let pivots = [65535; 512];
                SeenAnswer {
                    refusal,
                    rank: 0,
                    known: 0,
                    additions: 0,
                    pivots,
                }
            }
        }
    }
}

pub fn chhayublo_reduce(
    m: &mut [u64],
    rows: usize,
    columns: usize,
    k: usize,
    room: &mut [u64],
) -> SeenAnswer
    ensures { (a : Result Answer Refusal) × ReductionPromised rows columns k m.old room.old a m.new room.new × (result ≡ seen_answer a) }
{
    SeenAnswer::from(matrix::reduce(m, rows, columns, k, room))
}

pub fn chhayublo_invert(
    m: &[u64],
    rows: usize,
    columns: usize,
    k: usize,
    res: &mut [u64],
    room: &mut [u64],
) -> u64
    ensures { (o : Outcome) × InversionPromised rows columns k m.now res.old room.old o res.new room.new × (result ≡ outcome_number o) }
{
    u64::from(refusals::number(&inverse::invert(m, rows, columns, k, res, room)))
}

pub fn chhayublo_solve(
    m: &mut [u64],
    rows: usize,
    columns: usize,
    n: usize,
    k: usize,
    image: &mut [u64],
    marks: &mut [u8],
    room: &mut [u64],
) -> SeenAnswer
    ensures { (a : Result Answer Refusal) × SolvingPromised rows columns n k m.old image.old marks.old room.old a m.new image.new marks.new room.new × (result ≡ seen_answer a) }
{
    SeenAnswer::from(packets::solve(m, rows, columns, n, k, image, marks, room))
}

// a verdict as C sees it
impl From<Result<Verdict, Refusal>> for SeenNames {
    ghost from_gives = { λ v s. s ≡ seen_verdict v };

    fn from(verdict: Result<Verdict, Refusal>) -> SeenNames {
        SeenNames {
            refusal: u64::from(refusals::number(&verdict)),
            named: u64::from(verdict == Ok(Verdict::Named)),
        }
    }
}

pub fn chhayublo_contradiction(
    m: &[u64],
    rows: usize,
    columns: usize,
    n: usize,
    k: usize,
    named: &mut [u64],
    room: &mut [u64],
) -> SeenNames
    ensures { (v : Result Verdict Refusal) × NamingPromised rows columns n k m.now named.old room.old v named.new room.new × (result ≡ seen_verdict v) }
{
    SeenNames::from(packets::contradiction(m, rows, columns, n, k, named, room))
}

pub fn chhayublo_bundle_read(bytes: &[u8]) -> SeenCount
    ensures { result ≡ seen_count (counted_in (meaning both_kinds bytes.now)) }
{
    let count = bundle::read(bytes);
    SeenCount {
        refusal: u64::from(refusals::number(&count)),
        entries: count.unwrap_or(0),
    }
}

// what is told of an entry, as C sees it
impl From<Result<Numbers, Refusal>> for SeenEntry {
    ghost from_gives = { λ e s. s ≡ seen_entry e };

    fn from(entry: Result<Numbers, Refusal>) -> SeenEntry {
        let refusal = u64::from(refusals::number(&entry));
        match entry {
            Ok(e) => SeenEntry {
                refusal,
                kind: u64::from(e.kind),
                rows: u64::from(e.rows),
                columns: u64::from(e.columns),
            },
            Err(_) => SeenEntry {
                refusal,
                kind: 0,
                rows: 0,
                columns: 0,
            },
        }
    }
}

pub fn chhayublo_bundle_entry(bytes: &[u8], i: usize) -> SeenEntry
    ensures { result ≡ seen_entry (told_of (find i (meaning both_kinds bytes.now))) }
{
    SeenEntry::from(bundle::entry(bytes, i))
}

pub fn chhayublo_bundle_unpack(bytes: &[u8], i: usize, words: &mut [u64]) -> SeenEntry
    ensures { (result ≡ seen_entry (told_of (lent_entry both_kinds i bytes.now words.old))) × (words.new ≡ unpacked_of (lent_entry both_kinds i bytes.now words.old) words.old) }
{
    SeenEntry::from(bundle::unpack(bytes, i, words))
}

pub fn chhayublo_bundle_write(
    kinds: &[u16],
    rows: &[u16],
    columns: &[u16],
    words: &[u64],
    out: &mut [u8],
) -> SeenLength
    ensures { (result ≡ seen_length (written both_kinds kinds.now rows.now columns.now words.now (length out.old))) × (out.new ≡ output both_kinds kinds.now rows.now columns.now words.now out.old) }
{
    let length = pack::write(kinds, rows, columns, words, out);
    SeenLength {
        refusal: u64::from(refusals::number(&length)),
        bytes: length.unwrap_or(0),
    }
}
