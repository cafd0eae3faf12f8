// The generator, and the matrices and lists of packets that it draws.
use super::buffer::Matrix;
use super::plain;

#[derive(Clone, Copy)]
pub enum Kind {
    Uniform,
    Sparse,
    // with nothing left of the diagonal
    Diagonal,
    // four rows, again and again
    Repeated,
    // nothing but in the last rows
    LastRows,
    // nothing but in the last columns
    LastColumns,
}

// The numbers of a call, the kind of its matrix, and the generator's start. Where there are no packets n is the columns.
#[derive(Clone, Copy)]
pub struct Case {
    pub rows: usize,
    pub columns: usize,
    pub n: usize,
    pub k: usize,
    pub kind: Kind,
    pub seed: u64,
}

// what is drawn
#[derive(Clone, Copy)]
pub enum Drawn {
    Any,
    Square,
    Packets,
}

// xorshift64
fn next(x: u64) -> u64 {
    let a = x ^ (x << 13);
    let b = a ^ (a >> 7);
    b ^ (b << 17)
}

// A number below n, or 0. The sums' carries matter: the generator alone is linear over the field of two elements.
fn number(x: u64, n: usize) -> usize {
    let a = x.wrapping_add(x << 29);
    let b = a ^ (a >> 32);
    let v = b.wrapping_add(b << 19);
    ((v >> 20) as usize).checked_rem(n).unwrap_or(0)
}

// small sizes, and sizes at the borders of words
fn size(n: usize) -> usize {
    match n / 3 {
        0 => n + 1,
        1 => 4 + n % 3 * 8,
        2 => 63 + n % 3,
        _ => 127 + n % 3,
    }
}

impl Kind {
    // the first six numbers are one of each
    fn numbered(n: usize) -> Kind {
        match n {
            0 => Kind::Uniform,
            1 => Kind::Sparse,
            2 => Kind::Diagonal,
            3 => Kind::Repeated,
            4 => Kind::LastRows,
            _ => Kind::LastColumns,
        }
    }
}

impl Drawn {
    // try t, with each k; the kinds of square matrices are the first three
    pub(crate) fn case(self, t: usize) -> Case {
        let seed = next(next(next((t as u64) << 8 | 129)));
        let y = next(seed);
        let a = size(t / 8 % 12);
        let sum = a.wrapping_add(size(number(y, 12)));
        let some = number(next(y), 70);
        let (rows, columns, n, kinds) = match self {
            Drawn::Any => (some, sum, sum, 6),
            Drawn::Square => (a, a, a, 3),
            Drawn::Packets => (some, sum, a, 6),
        };
        Case {
            rows,
            columns,
            n,
            k: t % 8 + 1,
            kind: Kind::numbered(number(next(next(y)), kinds)),
            seed,
        }
    }
}

// Whether row i has a one in column c, where the bits before it are drawn. Payloads are sums of one image's blocks.
fn chosen<const N: usize>(m: &Matrix<N>, s: Case, i: usize, c: usize, x: u64) -> bool {
    let n = s.n;
    if n == 0 {
        return false;
    }
    if n <= c {
        let more = c % 3 == 0 && m.bit(i, c / 2 % n);
        return m.bit(i, c % n) != more;
    }
    let odd = number(x, 2) == 1;
    match s.kind {
        Kind::Uniform => odd,
        Kind::Sparse => number(x, 24) == 0,
        Kind::Diagonal => i == c || (i < c && odd),
        Kind::Repeated => (i < 4 && odd) || (4 <= i && m.bit(i % 4, c)),
        Kind::LastRows => s.rows / 8 * 7 <= i && odd,
        Kind::LastColumns => n / 8 * 7 <= c && odd,
    }
}

// The matrix, over zeros. In one of three the last bit of a middle row is changed: its packet may be false.
fn fill<const N: usize>(m: &mut Matrix<N>, s: Case) {
    if s.columns == 0 || s.rows == 0 {
        return;
    }
    let mut x = s.seed;
    for i in 0..s.rows {
        for c in 0..s.columns {
            x = next(x);
            if chosen(m, s, i, c, x) {
                m.toggle(i, c);
            }
        }
    }
    if number(s.seed, 3) == 0 {
        m.toggle(s.rows / 2, s.columns - 1);
    }
}

// the matrix, or the packets
pub(crate) fn matrix<const N: usize>(s: Case) -> Matrix<N> {
    let mut m = Matrix::over(0, s.rows, s.columns);
    fill(&mut m, s);
    m
}

// the matrix beside an identity, by the plain reduction
pub(crate) fn beside<const N: usize>(s: Case) -> Matrix<N> {
    let mut m = Matrix::over(0, s.rows, s.columns.wrapping_add(s.rows));
    fill(&mut m, s);
    for i in 0..s.rows {
        m.toggle(i, s.columns.wrapping_add(i));
    }
    plain::reduce(&mut m);
    m
}
