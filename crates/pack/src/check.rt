// The writer's checks, in their order.
ghost use Rattle.std.specs.Prelude.{◌≡◌, ◌≤◌, length};
ghost use Rattle.bundle.specs.Bundle.{kind_rule};
ghost use Rattle.pack.specs.Writing.{shapes_checks, all_words, write_checks};

use crate::entries::{Entries, body_words};
use refusals::{Outcome, Refusal};

// kind and shape, entry by entry
fn shapes(two: Outcome, kinds: &[u16], rows: &[u16], columns: &[u16]) -> Outcome
    ensures { result ≡ shapes_checks (kind_rule two) kinds.now rows.now columns.now }
{
    for ((&kind, &rows), &columns) in kinds.iter().zip(rows).zip(columns) {
        bundle::ruled::shape(
            two,
            usize::from(kind),
            usize::from(rows),
            usize::from(columns),
        )?;
    }
    Ok(())
}

// the words of all bodies: at most 64 times as many as one has
fn all_words(rows: &[u16], columns: &[u16]) -> usize
    requires { length rows.now ≤ 64 }
    ensures { result ≡ all_words rows.now columns.now }
{
    rows.iter()
        .zip(columns)
        .map(|(&rows, &columns)| body_words(rows, columns))
        .sum()
}

// lists of one length, how many entries, their kinds and shapes, their words and padding, the bundle's length, the output's room
#[tactic(auto, using(bundle::proofs::Steps::tests), unfolding(crate::specs::Writing::write_order, crate::specs::Writing::rest_order))]
pub(crate) fn all(
    two: Outcome,
    kinds: &[u16],
    rows: &[u16],
    columns: &[u16],
    words: &[u64],
    room: usize,
) -> Outcome
    ensures { result ≡ write_checks (kind_rule two) kinds.now rows.now columns.now words.now room }
{
    if rows.len() != kinds.len() || columns.len() != kinds.len() {
        return Err(Refusal::WrongBuffer);
    }
    if kinds.len() == 0 || 64 < kinds.len() {
        return Err(Refusal::EntryCount);
    }
    shapes(two, kinds, rows, columns)?;
    if words.len() != all_words(rows, columns) {
        return Err(Refusal::WrongLength);
    }
    let entries = Entries {
        kinds,
        rows,
        columns,
        words,
    };
    if !entries.are_narrow() {
        return Err(Refusal::DirtyPadding);
    }
    if 65535 < entries.size() {
        return Err(Refusal::BundleOver);
    }
    if room < entries.size() {
        return Err(Refusal::ShortOutput);
    }
    Ok(())
}
