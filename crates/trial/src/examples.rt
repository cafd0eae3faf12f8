// Worked examples: the limits, padding, additions of full windows, and nothing at all.
use super::buffer::{self, Matrix, ONES, is_zeroed};
use super::draw::{Case, Kind};
use super::{calls, draw, judge, tries};

// 2^r - 1
fn full(r: usize) -> usize {
    !(usize::MAX << (r % 64))
}

// the additions of so many pivots that stand in the first columns, one in each
fn due(pivots: usize, k: usize) -> usize {
    if k == 0 {
        return 0;
    }
    (pivots / k)
        .saturating_mul(full(k))
        .saturating_add(full(pivots % k))
}

// the rank and the additions of a matrix with a pivot in each of the first columns, as many as it has rows
fn counted(rows: usize, columns: usize, k: usize) -> Result<(usize, usize), u8> {
    let mut m = draw::matrix::<8704>(Case {
        rows,
        columns,
        n: columns,
        k,
        kind: Kind::Diagonal,
        seed: 1,
    });
    let mut room = [ONES; 8704];
    let a = calls::reduce(&mut m, k, &mut room)?;
    Ok((a.rank, a.additions))
}

// windows are full until the rows are used up
pub(crate) fn full_windows(rows: usize, columns: usize, k: usize) -> bool {
    let sum = due(rows, k);
    counted(rows, columns, k) == Ok((rows, sum)) && sum <= due(columns, k)
}

// what is at the limits, and past each of them
pub(crate) fn limits(t: usize) -> bool {
    match t {
        0 => full_windows(512, 1024, 8),
        1 => counted(513, 1024, 8) == Err(1),
        2 => counted(512, 1025, 8) == Err(2),
        3 => counted(512, 1024, 0) == Err(3),
        _ => counted(512, 1024, 9) == Err(3),
    }
}

// The second row has a one at place c alone. A row view shows it; the reduction moves it to the first row, or refuses it as padding.
fn spot(rows: usize, columns: usize, c: usize) -> bool {
    let mut m = Matrix::<4>::over(0, rows, columns);
    let mut row = Matrix::<4>::over(0, 1, columns);
    let mut room = [ONES; 4];
    m.toggle(1, c);
    row.toggle(0, c);
    let before = m;
    let shown = calls::row(&m, 1) == row.lent();
    let held = match calls::reduce(&mut m, 1, &mut room) {
        Ok(a) => {
            let zeros = buffer::words(2, columns);
            c < columns && m.bit(0, c) && is_zeroed(&room, zeros) && judge::told(&a, &m, 1, 1, 0)
        }
        Err(number) => columns <= c && number == 5 && m == before && is_zeroed(&room, 0),
    };
    shown && held
}

// rows of 64 columns have no padding, and those of 65 have 63 bits of it
pub(crate) fn padding(t: usize) -> bool {
    match t {
        0..=63 => spot(4, 64, t),
        _ => spot(2, 65, t),
    }
}

// no rows: rank 0, nothing known, none named, and no inverse, since there are columns
pub(crate) fn empty(k: usize) -> bool {
    let s = Case {
        rows: 0,
        columns: 70,
        n: 3,
        k,
        kind: Kind::Uniform,
        seed: 1,
    };
    let m = Matrix::<1>::over(0, s.rows, s.columns);
    let mut inverse = Matrix::over(ONES, s.rows, s.columns);
    let mut room = [ONES; 512];
    calls::invert(&m, k, &mut inverse, &mut room) == Err(8)
        && tries::reduced(s)
        && tries::solved(s)
        && tries::named(s)
}

// all blocks but for one bit of payload, which the last columns alone tell
pub(crate) fn wide(k: usize) -> bool {
    tries::solved(Case {
        rows: 12,
        columns: 1024,
        n: 1023,
        k,
        kind: Kind::LastColumns,
        seed: 3,
    })
}
