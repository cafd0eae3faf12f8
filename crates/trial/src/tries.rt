// The calls on drawn matrices and lists of packets, in a room with more words than needed.
use super::buffer::{self, Matrix, ONES, ROOM, WORDS};
use super::draw::Case;
use super::{calls, draw, judge, plain};
use matrix::Answer;
use packets::Verdict;

// what no call writes as a mark
const STALE: u8 = 170;

pub(crate) fn reduced(s: Case) -> bool {
    let mut m = draw::matrix::<WORDS>(s);
    let mut foreseen = m;
    let mut room = [ONES; ROOM];
    let rank = plain::reduce(&mut foreseen);
    let told = calls::reduce(&mut m, s.k, &mut room);
    m == foreseen
        && buffer::is_cleared(&room, 0, s.k, s.columns)
        && told.is_ok_and(|a| judge::told(&a, &foreseen, s.k, rank, 0))
}

// whether the inverse is the right half of the reduced matrix beside an identity, and times m is the identity
fn undone(inverse: &Matrix<WORDS>, m: &Matrix<WORDS>, beside: &Matrix<WORDS>) -> bool {
    let n = m.rows;
    (0..n).all(|i| {
        judge::holds(inverse, i, beside, i, n)
            && (0..n).all(|c| judge::summed(inverse, i, m, c) == (i == c))
    })
}

pub(crate) fn inverted(s: Case) -> bool {
    let m = draw::matrix(s);
    let beside = draw::beside(s);
    let mut inverse = Matrix::over(ONES, s.rows, s.columns);
    let mut room = [ONES; ROOM];
    let told = calls::invert(&m, s.k, &mut inverse, &mut room);
    let right = if plain::free_row(&beside, s.rows, s.rows).is_some() {
        told == Err(9) && inverse.is_untouched()
    } else {
        told == Ok(()) && undone(&inverse, &m, &beside)
    };
    right && buffer::is_cleared(&room, s.rows, s.k, beside.columns)
}

// whether marks and image are what the plain reduced packets say; row i has the next pivot, and the row after the last one is zero
fn shown(m: &Matrix<WORDS>, rank: usize, image: &Matrix<WORDS>, marks: &[u8]) -> bool {
    let n = image.rows;
    let mut i = 0;
    for (j, &mark) in marks.iter().enumerate() {
        let here = plain::lead(m, i, 0..n) == Some(j);
        let known = here && plain::lead(m, i, j + 1..n).is_none();
        let row = if known { i } else { rank };
        if mark != u8::from(known) || !judge::holds(image, j, m, row, n) {
            return false;
        }
        if here {
            i += 1;
        }
    }
    true
}

// whether answer, marks and image are right, by the plain reduced packets
fn settled(
    told: Result<Answer, u8>,
    image: &Matrix<WORDS>,
    marks: &[u8],
    m: &Matrix<WORDS>,
    rank: usize,
    k: usize,
) -> bool {
    if plain::free_row(m, rank, image.rows).is_some() {
        return matches!(told, Err(10))
            && image.is_untouched()
            && marks.iter().all(|&mark| mark == STALE);
    }
    let known = marks.iter().filter(|&&mark| mark == 1).count();
    shown(m, rank, image, marks) && told.is_ok_and(|a| judge::told(&a, m, k, rank, known))
}

pub(crate) fn solved(s: Case) -> bool {
    let mut m = draw::matrix(s);
    let mut foreseen = m;
    let mut image = Matrix::over(ONES, s.n, s.columns.saturating_sub(s.n));
    let mut stale = [STALE; WORDS];
    let mut room = [ONES; ROOM];
    let rank = plain::reduce(&mut foreseen);
    let marks = buffer::first(&mut stale, s.n);
    let told = calls::solve(&mut m, s.k, &mut image, marks, &mut room);
    m == foreseen
        && buffer::is_cleared(&room, 0, s.k, s.columns)
        && settled(told, &image, marks, &foreseen, rank, s.k)
}

// whether verdict and names are right, by the plain reduced packets beside an identity
fn justly(
    told: Result<Verdict, u8>,
    names: &Matrix<WORDS>,
    m: &Matrix<WORDS>,
    beside: &Matrix<WORDS>,
    n: usize,
) -> bool {
    let free = plain::free_row(beside, m.rows, n);
    match free.filter(|&i| plain::lead(beside, i, n..m.columns).is_some()) {
        None => told == Ok(Verdict::None) && names.is_untouched(),
        // the sum of the named packets begins in the payload
        Some(i) => {
            told == Ok(Verdict::Named)
                && judge::holds(names, 0, beside, i, m.columns)
                && (0..n).all(|c| !judge::summed(names, 0, m, c))
                && (n..m.columns).any(|c| judge::summed(names, 0, m, c))
        }
    }
}

pub(crate) fn named(s: Case) -> bool {
    let m = draw::matrix(s);
    let beside = draw::beside(s);
    let mut names = Matrix::over(ONES, 1, s.rows);
    let mut room = [ONES; ROOM];
    let told = calls::name(&m, s.n, s.k, &mut names, &mut room);
    buffer::is_cleared(&room, s.rows, s.k, beside.columns) && justly(told, &names, &m, &beside, s.n)
}
