#![tactic(auto)]
// A matrix with an identity on its right, reduced in one room.
ghost use Rattle.std.specs.Prelude.{◌≡◌, ◌+◌, ◌*◌, ◌^◌, ◌≤◌, length, drop};
ghost use Rattle.gf2.specs.Rows.{◌⊕◌};
ghost use Rattle.gf2.specs.Inverse.{adjoin};
ghost use Rattle.words.specs.Words.{value, words_of, rows_of, first_words, window_bits};
ghost use Rattle.beside.specs.Beside.{beside_checks, BesideReduced};

use refusals::{Outcome, Unfit};

// word l of a row whose only one is in column c
#[tactic(auto, using(crate::proofs::Units::unit_here, crate::proofs::Units::unit_elsewhere))]
fn unit_word(c: usize, l: usize) -> u64
    ensures { result ≡ window_bits (64 * l) 64 (2 ^ c) }
{
    if c / 64 == l { 1 << (c % 64) } else { 0 }
}

// the words of `to` become the row, with a one more in column c
fn put(to: &mut [u64], row: &[u64], c: usize)
    ensures { to.new ≡ first_words (length to.old) (value row.now ⊕ 2 ^ c) }
{
    for (l, word) in to.iter_mut().enumerate() {
        *word = row.get(l).copied().unwrap_or(0) ^ unit_word(c, l);
    }
}

// the rows of m, with an identity on their right
#[tactic(auto, using(words::proofs::Rows::row_end))]
fn adjoin(room: &mut [u64], m: &[u64], rows: usize, columns: usize)
    requires { (columns + rows ≤ 1024) × (rows * words_of (columns + rows) ≤ length room.old) × (rows * words_of columns ≤ length m.now) }
    ensures { (rows_of (words_of (columns + rows)) rows room.new ≡ adjoin columns (rows_of (words_of columns) rows m.now)) × (drop (rows * words_of (columns + rows)) room.new ≡ drop (rows * words_of (columns + rows)) room.old) }
{
    let v = words::per_row(columns + rows);
    let w = words::per_row(columns);
    for i in 0..rows {
        let to = &mut room[i * v..i * v + v];
        put(to, &m[i * w..i * w + w], columns + i);
    }
}

// refuses shapes that the call below does not take
fn check(m: &[u64], rows: usize, columns: usize, k: usize, room: usize) -> Outcome
    ensures { result ≡ beside_checks rows columns k m.now room }
{
    refusals::sizes(rows, columns)?;
    refusals::too_wide(columns, rows)?;
    refusals::bad_k(k)?;
    // the sizes have passed: the sum does not wrap
    refusals::short_room(rows, k, columns + rows, room)?;
    refusals::dirty_padding(m, rows, columns)
}

// the matrix in m, with an identity on its right, is written to the room and reduced there; the table's words behind it end zero. Where the
// shapes do not fit nothing is changed
pub fn reduce(
    room: &mut [u64],
    m: &[u64],
    rows: usize,
    columns: usize,
    k: usize,
) -> Result<(), Unfit>
    ensures { BesideReduced result rows columns k m.now room.old room.new }
{
    check(m, rows, columns, k, room.len())?;
    adjoin(room, m, rows, columns);
    let mut pivots = [65535u16; 512];
    engine::eliminate_in(room, rows, columns + rows, k, &mut pivots).unwrap();
    Ok(())
}
