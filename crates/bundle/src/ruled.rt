// Reading under a rule for kinds: kind 1 is taken, kind 2 gets what the caller says, any other is unknown.
ghost use Rattle.std.specs.Prelude.{◌≡◌, ◌+◌, ◌*◌, ◌≤◌, ◌<◌, length, Ok, Err};
ghost use Rattle.std.specs.Result.{result_and, ForOk, ForErr};
ghost use Rattle.refusals.specs.Outcome.{◌and_then◌, first};
ghost use Rattle.refusals.specs.Checks.{Sized};
ghost use Rattle.bundle.specs.Bundle.{body_words, head_bytes, count_of, words_in, kind_rule, bad_shape, body_order, entry_order, entries_checks, bundle_checks, meaning};
ghost use Rattle.bundle.specs.Answers.{counted_in, find, told_of, lent_entry, unpacked_of};
ghost use Rattle.bundle.specs.Steps.{head_at, Found};

use crate::{Numbers, body};
use refusals::{Outcome, Refusal};

// what a kind gets
#[tactic(auto, unfolding(crate::specs::Bundle::kind_rule))]
fn kind_gets(two: Outcome, kind: usize) -> Outcome
    ensures { result ≡ kind_rule two kind }
{
    match kind {
        1 => Ok(()),
        2 => two,
        _ => Err(Refusal::BadKind),
    }
}

#[tactic(auto, unfolding(crate::specs::Bundle::bad_shape))]
fn bad_shape(rows: usize, columns: usize) -> Outcome
    ensures { result ≡ bad_shape rows columns }
{
    refusals::sizes(rows, columns).or(Err(Refusal::BadShape))
}

// an entry's kind and shape
pub fn shape(two: Outcome, kind: usize, rows: usize, columns: usize) -> Outcome
    ensures { result ≡ kind_rule two kind and_then bad_shape rows columns }
{
    kind_gets(two, kind)?;
    bad_shape(rows, columns)
}

// what the contents say of an entry, the kind a number as it is stored; its body begins at byte `offset`
#[derive(Clone, Copy)]
struct Head {
    kind: usize,
    rows: usize,
    columns: usize,
    offset: usize,
}

impl Head {
    // that of entry i
    fn at(b: &[u8], i: usize) -> Head
        requires { head_bytes (i + 1) ≤ length b.now }
        ensures { result ≡ head_at i b.now }
    {
        let at = 2 + 10 * i;
        Head {
            kind: body::size(b, at, 2),
            rows: body::size(b, at + 2, 2),
            columns: body::size(b, at + 4, 2),
            offset: body::size(b, at + 6, 4),
        }
    }

    // the words of the body, where the shape is right
    fn words(self) -> usize
        requires { Sized 512 self.rows self.columns }
        ensures { (result ≡ body_words self.rows self.columns) × (result ≤ 8192) }
    {
        self.rows * words::per_row(self.columns)
    }

    // the three numbers, each of two bytes
    fn numbers(self) -> Numbers
        requires { (self.kind < 65536) × (self.rows < 65536) × (self.columns < 65536) }
        ensures { result ≡ record { kind = self.kind; rows = self.rows; columns = self.columns } }
    {
        Numbers {
            kind: self.kind as u16,
            rows: self.rows as u16,
            columns: self.columns as u16,
        }
    }
}

// a body that should begin at byte at: the byte behind it
#[tactic(auto, using(crate::proofs::Steps::tests), unfolding(crate::specs::Bundle::body_order))]
fn check_body(b: &[u8], head: Head, at: usize) -> Result<usize, Refusal>
    requires { Sized 512 head.rows head.columns × (at ≤ length b.now) }
    ensures { result ≡ result_and (first (body_order head.kind head.rows head.columns head.offset at b.now)) (Ok (at + 8 * body_words head.rows head.columns)) }
{
    if head.offset != at {
        return Err(Refusal::WrongOffset);
    }
    let end = at + 8 * head.words();
    if b.len() < end {
        return Err(Refusal::BodyPast);
    }
    if !body::is_clean(b, head.kind, at, head.rows, head.columns) {
        return Err(Refusal::DirtyPadding);
    }
    Ok(end)
}

// entry i, whose body should begin at byte at: the byte behind the body
#[tactic(auto, using(crate::proofs::Steps::entry_shape), unfolding(crate::specs::Bundle::entry_order))]
fn check_entry(two: Outcome, b: &[u8], i: usize, at: usize) -> Result<usize, Refusal>
    requires { (head_bytes (i + 1) ≤ length b.now) × (at ≤ length b.now) }
    ensures { result ≡ result_and (first (entry_order (kind_rule two) i at b.now)) (Ok (at + 8 * words_in i b.now)) }
{
    let head = Head::at(b, i);
    shape(two, head.kind, head.rows, head.columns)?;
    check_body(b, head, at)
}

// n entries one after the other; then nothing may be left
fn check_entries(two: Outcome, b: &[u8], n: usize) -> Outcome
    requires { head_bytes n ≤ length b.now }
    ensures { result ≡ entries_checks (kind_rule two) n 0 (head_bytes n) b.now }
{
    let mut at = 2 + 10 * n;
    for i in 0..n {
        at = check_entry(two, b, i, at)?;
    }
    if at != b.len() {
        return Err(Refusal::BytesLeft);
    }
    Ok(())
}

// how many entries
fn count(b: &[u8]) -> usize
    requires { 2 ≤ length b.now }
    ensures { result ≡ count_of b.now }
{
    body::size(b, 0, 2)
}

// the checks of a bundle, in their order
#[tactic(auto, using(crate::proofs::Steps::tests), unfolding(crate::specs::Bundle::bundle_order))]
pub fn check(two: Outcome, b: &[u8]) -> Outcome
    ensures { result ≡ bundle_checks (kind_rule two) b.now }
{
    if b.len() < 2 || 65535 < b.len() {
        return Err(Refusal::BundleSize);
    }
    let n = count(b);
    if n == 0 || 64 < n {
        return Err(Refusal::EntryCount);
    }
    if b.len() < 2 + 10 * n {
        return Err(Refusal::ContentsCut);
    }
    check_entries(two, b, n)
}

#[tactic(auto, using(crate::proofs::Meaning::two_bytes_long), unfolding(crate::specs::Answers::counted_in, crate::specs::Bundle::meaning, crate::specs::Bundle::entries_of))]
pub fn read(two: Outcome, bytes: &[u8]) -> Result<usize, Refusal>
    ensures { result ≡ counted_in (meaning (kind_rule two) bytes.now) }
{
    check(two, bytes)?;
    Ok(count(bytes))
}

// what the contents of a bundle say of entry i
#[tactic(auto, unfolding(crate::specs::Answers::find, crate::specs::Bundle::meaning))]
fn find(two: Outcome, bytes: &[u8], i: usize) -> Result<Head, Refusal>
    ensures found { ForOk result (Found (kind_rule two) i bytes.now) }
    ensures missing { ForErr result (λ r. find i (meaning (kind_rule two) bytes.now) ≡ Err r) }
{
    check(two, bytes)?;
    refusals::not_below(i, count(bytes))?;
    Ok(Head::at(bytes, i))
}

#[tactic(auto, using(crate::proofs::Meaning::numbers_small), unfolding(crate::specs::Answers::told_of, crate::specs::Bundle::entry_at))]
pub fn entry(two: Outcome, bytes: &[u8], i: usize) -> Result<Numbers, Refusal>
    ensures { result ≡ told_of (find i (meaning (kind_rule two) bytes.now)) }
{
    Ok(find(two, bytes, i)?.numbers())
}

#[tactic(auto, using(crate::proofs::Meaning::numbers_small), unfolding(crate::specs::Answers::told_of, crate::specs::Answers::lent_for, crate::specs::Answers::unpacked_of, crate::specs::Bundle::entry_at))]
pub fn unpack(two: Outcome, bytes: &[u8], i: usize, words: &mut [u64]) -> Result<Numbers, Refusal>
    ensures { (result ≡ told_of (lent_entry (kind_rule two) i bytes.now words.old)) × (words.new ≡ unpacked_of (lent_entry (kind_rule two) i bytes.now words.old) words.old) }
{
    let head = find(two, bytes, i)?;
    if words.len() != head.words() {
        return Err(Refusal::WrongLength);
    }
    body::fill(bytes, head.kind, head.offset, words);
    Ok(head.numbers())
}
