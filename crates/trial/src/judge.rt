// What an answer is held to.
use super::buffer::{self, Matrix};
use super::plain;
use matrix::Answer;

// the additions of a plain reduced matrix of that rank, if the pivots are its own
fn additions<const N: usize>(
    pivots: &[u16; 512],
    m: &Matrix<N>,
    rank: usize,
    k: usize,
) -> Option<usize> {
    let (columns, unused) = pivots.split_at_checked(rank)?;
    let mut sum = 0usize;
    let mut weight = 0;
    let mut window = None;
    for (i, &pivot) in columns.iter().enumerate() {
        let c = plain::lead(m, i, 0..m.columns)?;
        if usize::from(pivot) != c {
            return None;
        }
        // a window with r pivots costs 1 + 2 + .. + 2^(r - 1)
        let here = c.checked_div(k);
        weight = if here == window { weight << 1 } else { 1 };
        window = here;
        sum = sum.wrapping_add(weight);
    }
    unused.iter().all(|&pivot| pivot == 65535).then_some(sum)
}

// whether that is the answer for a plain reduced matrix of that rank, with so many known blocks
pub(crate) fn told<const N: usize>(
    a: &Answer,
    m: &Matrix<N>,
    k: usize,
    rank: usize,
    known: usize,
) -> bool {
    a.rank == rank && a.known == known && additions(&a.pivots, m, rank, k) == Some(a.additions)
}

// whether row j of s is row i of m from column c on, with clean padding
pub(crate) fn holds<const N: usize>(
    s: &Matrix<N>,
    j: usize,
    m: &Matrix<N>,
    i: usize,
    c: usize,
) -> bool {
    let bits = buffer::words(1, s.columns).saturating_mul(64);
    (0..bits).all(|b| s.bit(j, b) == (b < s.columns && m.bit(i, c.wrapping_add(b))))
}

// column c of the sum of those rows of m that row i of s names
pub(crate) fn summed<const N: usize>(s: &Matrix<N>, i: usize, m: &Matrix<N>, c: usize) -> bool {
    let named = (0..m.rows).filter(|&j| s.bit(i, j) && m.bit(j, c));
    named.count() % 2 == 1
}
