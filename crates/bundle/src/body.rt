// Numbers and words in bytes, and a body's padding.
ghost use Rattle.std.specs.Prelude.{◌≡◌, not, ◌+◌, ◌*◌, ◌/◌, ◌^◌, ◌≤◌, eqb, length};
ghost use Rattle.words.specs.Words.{narrow};
ghost use Rattle.refusals.specs.Checks.{Sized};
ghost use Rattle.wire.specs.Bytes.{num};
ghost use Rattle.wire.specs.Kinds.{order, words_at};
ghost use Rattle.bundle.specs.Bundle.{body_words, matrix_at};

// the number in the k bytes from byte at on, the first lowest
fn number(b: &[u8], at: usize, k: usize) -> u64
    requires { (at + k ≤ length b.now) × (k ≤ 8) }
    ensures { result ≡ num k at b.now }
{
    let mut bytes = [0; 8];
    bytes[..k].copy_from_slice(&b[at..at + k]);
    u64::from_le_bytes(bytes)
}

pub(crate) fn size(b: &[u8], at: usize, k: usize) -> usize
    requires { (at + k ≤ length b.now) × (k ≤ 8) }
    ensures { result ≡ num k at b.now }
{
    number(b, at, k) as usize
}

// a word of a body, in the order of kind 1
fn word(b: &[u8], kind: usize, at: usize) -> u64
    requires { at + 8 ≤ length b.now }
    ensures { result ≡ order kind (num 8 at b.now) }
{
    wire::ordered(kind, number(b, at, 8))
}

// the words of a body, in the order of kind 1
pub(crate) fn fill(b: &[u8], kind: usize, at: usize, words: &mut [u64])
    requires { at + 8 * length words.old ≤ length b.now }
    ensures { words.new ≡ words_at kind at (length words.old) b.now }
{
    for (j, out) in words.iter_mut().enumerate() {
        *out = word(b, kind, at + 8 * j);
    }
}

// whether a word of a body has a one past its first s columns
fn is_past(b: &[u8], kind: usize, at: usize, s: usize) -> bool
    requires { at + 8 ≤ length b.now }
    ensures { result ≡ not (eqb (order kind (num 8 at b.now) / 2 ^ s) 0) }
{
    wire::past(kind, number(b, at, 8), s)
}

// whether a body has no one past its last column: only the last words of its rows are read. As words tells it of a buffer, but over bytes in the order of a kind
pub(crate) fn is_clean(b: &[u8], kind: usize, at: usize, rows: usize, columns: usize) -> bool
    requires { Sized 512 rows columns × (at + 8 * body_words rows columns ≤ length b.now) }
    ensures { result ≡ narrow columns (matrix_at kind at rows columns b.now) }
{
    let s = words::odd_bits(columns);
    if s == 0 {
        return true;
    }
    let w = words::per_row(columns);
    for i in 0..rows {
        if is_past(b, kind, at + 8 * (i * w + (w - 1)), s) {
            return false;
        }
    }
    true
}
