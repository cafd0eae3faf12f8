// The reduction by its definition, column by column and bit by bit: what the library's answers are held to.
use super::buffer::Matrix;
use std::ops::Range;

// the first of those columns with a one in row i
pub(crate) fn lead<const N: usize>(
    m: &Matrix<N>,
    i: usize,
    mut columns: Range<usize>,
) -> Option<usize> {
    columns.find(|&c| m.bit(i, c))
}

// the first of so many rows with no one in the first n columns
pub(crate) fn free_row<const N: usize>(m: &Matrix<N>, rows: usize, n: usize) -> Option<usize> {
    (0..rows).find(|&i| lead(m, i, 0..n).is_none())
}

// adds a row to another, from column c on
fn add<const N: usize>(m: &mut Matrix<N>, from: usize, to: usize, c: usize) {
    // by no branch: the bits are as good as drawn, and each other guess at one would be wrong
    for q in c..m.columns {
        let bit = m.bit(from, q);
        m.add(to, q, bit);
    }
}

// adds row p, which is zero before column c, to each other row that has a one there
fn clear<const N: usize>(m: &mut Matrix<N>, p: usize, c: usize) {
    for i in 0..m.rows {
        if i != p && m.bit(i, c) {
            add(m, p, i, c);
        }
    }
}

// column c, after that many pivots; whether it has another one
fn column<const N: usize>(m: &mut Matrix<N>, rank: usize, c: usize) -> bool {
    let Some(p) = (rank..m.rows).find(|&i| m.bit(i, c)) else {
        return false;
    };
    if p != rank {
        add(m, p, rank, c);
    }
    clear(m, rank, c);
    true
}

// reduces m, and answers the rank
pub(crate) fn reduce<const N: usize>(m: &mut Matrix<N>) -> usize {
    let mut rank = 0;
    for c in 0..m.columns {
        if column(m, rank, c) {
            rank += 1;
        }
    }
    rank
}
