#![tactic(auto)]
// The words of a buffer as rows, each one number.
ghost use Rattle.std.specs.Prelude.{◌≡◌, ◌*◌, ◌%◌, ◌≤◌, ◌<◌, length, get_or};
ghost use Rattle.gf2.specs.Rows.{part};
ghost use Rattle.words.specs.Words.{words_of, rows_of, narrow, holds_rows};

// the words of a row
pub fn per_row(columns: usize) -> usize
    ensures { result ≡ words_of columns }
{
    columns.div_ceil(64)
}

// the columns in the last word of a row, 0 where it is full
pub fn odd_bits(columns: usize) -> usize
    ensures { result ≡ columns % 64 }
{
    columns % 64
}

// word l of the row of w words at place `at`; zero where the row, or the buffer, ends before it
pub fn word(m: &[u64], at: usize, w: usize, l: usize) -> u64
    ensures { result ≡ get_or (part at w m.now) l 0 }
{
    if w <= l {
        return 0;
    }
    match m.get(at..) {
        Some(row) => row.get(l).copied().unwrap_or(0),
        None => 0,
    }
}

// whether no row has a one past its last column
fn is_clean(m: &[u64], w: usize, rows: usize, columns: usize) -> bool
    requires { (rows * w ≤ length m.now) × (w ≡ words_of columns) × (0 < w) }
    ensures { result ≡ narrow columns (rows_of w rows m.now) }
{
    let s = odd_bits(columns);
    s == 0 || (0..rows).all(|i| m[i * w + (w - 1)] >> s == 0)
}

// whether the buffer starts with that many rows, and none of them has a one past its last column
pub fn hold_rows(m: &[u64], rows: usize, columns: usize) -> bool
    ensures { result ≡ holds_rows rows columns m.now }
{
    let w = per_row(columns);
    if w == 0 {
        return true;
    }
    if m.len() / w < rows {
        return false;
    }
    is_clean(m, w, rows, columns)
}
