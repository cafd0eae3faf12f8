#![tactic(auto)]
// A bundle written from lists of kinds, rows, columns and words.
mod check;
mod entries;
mod put;

ghost use Rattle.std.specs.Prelude.{◌≡◌, length};
ghost use Rattle.bundle.specs.Bundle.{both_kinds};
ghost use Rattle.pack.specs.Writing.{written, output};

use crate::entries::Entries;
use refusals::Refusal;

// writes the bundle of the entries given, whose words are in the order of kind 1; answers its length in bytes
#[tactic(auto, unfolding(crate::specs::Writing::written_by, crate::specs::Writing::output_by))]
pub fn write(
    kinds: &[u16],
    rows: &[u16],
    columns: &[u16],
    words: &[u64],
    out: &mut [u8],
) -> Result<usize, Refusal>
    ensures { (result ≡ written both_kinds kinds.now rows.now columns.now words.now (length out.old)) × (out.new ≡ output both_kinds kinds.now rows.now columns.now words.now out.old) }
{
    check::all(Ok(()), kinds, rows, columns, words, out.len())?;
    let entries = Entries {
        kinds,
        rows,
        columns,
        words,
    };
    put::bundle(out, &entries);
    Ok(entries.size())
}
