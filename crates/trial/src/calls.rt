// The calls, each lent the rows of its matrices and the whole room; a refusal is told by its number.
use super::buffer::Matrix;
use matrix::Answer;
use packets::Verdict;

// the words of a row, as the row view shows them
pub(crate) fn row<const N: usize>(m: &Matrix<N>, i: usize) -> &[u64] {
    matrix::row_view(m.lent(), m.rows, m.columns, i)
}

pub(crate) fn reduce<const N: usize>(
    m: &mut Matrix<N>,
    k: usize,
    room: &mut [u64],
) -> Result<Answer, u8> {
    let rows = m.rows;
    let columns = m.columns;
    matrix::reduce(m.lent_mut(), rows, columns, k, room).map_err(u8::from)
}

pub(crate) fn invert<const N: usize>(
    m: &Matrix<N>,
    k: usize,
    inverse: &mut Matrix<N>,
    room: &mut [u64],
) -> Result<(), u8> {
    let result = inverse.lent_mut();
    inverse::invert(m.lent(), m.rows, m.columns, k, result, room).map_err(u8::from)
}

pub(crate) fn solve<const N: usize>(
    m: &mut Matrix<N>,
    k: usize,
    image: &mut Matrix<N>,
    marks: &mut [u8],
    room: &mut [u64],
) -> Result<Answer, u8> {
    let rows = m.rows;
    let columns = m.columns;
    let n = image.rows;
    let blocks = image.lent_mut();
    packets::solve(m.lent_mut(), rows, columns, n, k, blocks, marks, room).map_err(u8::from)
}

pub(crate) fn name<const N: usize>(
    m: &Matrix<N>,
    n: usize,
    k: usize,
    names: &mut Matrix<N>,
    room: &mut [u64],
) -> Result<Verdict, u8> {
    let named = names.lent_mut();
    packets::contradiction(m.lent(), m.rows, m.columns, n, k, named, room).map_err(u8::from)
}
