#![tactic(auto)]
// What is read off a reduced matrix. Nothing here knows how it came to be reduced, and every answer is defined for matrices that are not.
ghost use Rattle.std.specs.Prelude.{◌≡◌, [], ℕ, ◌*◌, ◌≤◌, ◌<◌, length, get_or, set};
ghost use Rattle.std.proofs.Math.Seq.{paste};
ghost use Rattle.gf2.specs.Rows.{row};
ghost use Rattle.gf2.specs.Inverse.{begins_with_identity, right_of};
ghost use Rattle.words.specs.Words.{value, flat};
ghost use Rattle.images.specs.ReadOff.{has_pivot, marked};
ghost use Rattle.readoff.specs.declared.Unsolved.TheVariants as unsolved;
ghost use Rattle.readoff.specs.ReadOff.{Shown, IsRefuted, RightRead, Halved, BlocksRead};
ghost use Rattle.readoff.specs.Steps.{FirstIn, InBlocks, Tells};

mod row;
mod rows;

use refusals::Unfit;
use rows::Rows;

// why no block is told: the shapes do not fit, or a pivot stands in the payload
#[derive(Clone, Copy, Debug, PartialEq, Eq)]
pub enum Unsolved {
    Unfit,
    Contradictory,
}

impl From<Unfit> for Unsolved {
    ghost from_gives = { λ _ e. e ≡ unsolved.Unfit };

    fn from(_unfit: Unfit) -> Unsolved {
        Unsolved::Unfit
    }
}

// the first row whose pivot stands in columns a to e - 1
fn pivot_row(m: &Rows, a: usize, e: usize) -> Option<usize>
    ensures { FirstIn a e m.now result }
{
    (0..m.len()).find(|&i| m.row(i).stands_in(a, e))
}

// whether some row's pivot does
fn has_pivot(m: &Rows, a: usize, e: usize) -> bool
    ensures { result ≡ has_pivot a e m.now }
{
    pivot_row(m, a, e).is_some()
}

// Below, true says that what was looked for is there, and written where a buffer is lent; else nothing is written.

// whether a pivot falls in the columns from n on
pub fn contradictory(m: &[u64], rows: usize, columns: usize, n: usize) -> Result<bool, Unfit>
    ensures { IsRefuted result rows columns n m.now }
{
    if columns < n {
        return Err(Unfit);
    }
    let m = Rows::held(m, rows, columns)?;
    Ok(has_pivot(&m, n, columns))
}

// of the first row with its pivot in columns a to e - 1 the columns from e on become the words of `names`
pub fn named(
    m: &[u64],
    rows: usize,
    columns: usize,
    a: usize,
    e: usize,
    names: &mut [u64],
) -> Result<bool, Unfit>
    ensures { RightRead result rows columns a e m.now names.old names.new }
{
    if columns < e || names.len() != words::per_row(columns - e) {
        return Err(Unfit);
    }
    let m = Rows::held(m, rows, columns)?;
    match pivot_row(&m, a, e) {
        None => Ok(false),
        Some(i) => {
            m.row(i).write_from(e, names);
            Ok(true)
        }
    }
}

// whether the first columns are those of the identity
fn begins_with_identity(m: &Rows) -> bool
    ensures { result ≡ begins_with_identity (length m.now) m.now }
{
    let n = m.len();
    (0..n).all(|i| m.row(i).is_unit(n, i))
}

// a matrix of n rows and 2n columns that begins with the identity: its right half is written to the result
pub fn right_half(m: &[u64], n: usize, res: &mut [u64]) -> Result<bool, Unfit>
    ensures { Halved result n m.now res.old res.new }
{
    if 512 < n {
        return Err(Unfit);
    }
    let m = Rows::held(m, n, n + n)?;
    let v = words::per_row(n);
    if res.len() != n * v {
        return Err(Unfit);
    }
    if !begins_with_identity(&m) {
        return Ok(false);
    }
    right(&m, v, res);
    Ok(true)
}

// the columns of n rows from n on, v words of each
fn right(m: &Rows, v: usize, res: &mut [u64])
    requires { (length m.now ≤ 512) × (v ≤ 16) × (length res.old ≡ length m.now * v) }
    ensures { res.new ≡ flat v (right_of (length m.now) m.now) }
{
    let n = m.len();
    for i in 0..n {
        m.row(i).write_from(n, &mut res[i * v..i * v + v]);
    }
}

// block j is not known: the words of an unknown block stand in its place
fn set_unknown(unknown: &[u64], image: &mut [u64], marks: &mut [u8], j: usize)
    requires { InBlocks (length unknown.now) (length image.old) (length marks.old) × (j < length marks.old) }
    ensures { (image.new ≡ paste image.old (j * length unknown.now) unknown.now (length unknown.now)) × (marks.new ≡ set marks.old j 0) }
{
    let v = unknown.len();
    image[j * v..j * v + v].copy_from_slice(unknown);
    marks[j] = 0;
}

// what row i says of the block of its pivot
fn tell(m: &Rows, i: usize, unknown: &[u64], image: &mut [u64], marks: &mut [u8])
    requires { InBlocks (length unknown.now) (length image.old) (length marks.old) × (i < length m.now) }
    ensures { Tells (value unknown.now) (length marks.old) (length unknown.now) (row m.now i) image.old marks.old image.new marks.new }
{
    let row = m.row(i);
    let n = marks.len();
    let Some(j) = row.next_one(0) else {
        return;
    };
    if n <= j {
        return;
    }
    if row.has_one(j + 1, n) {
        set_unknown(unknown, image, marks, j);
        return;
    }
    let v = unknown.len();
    row.write_from(n, &mut image[j * v..j * v + v]);
    marks[j] = 1;
}

// at first no block is known
fn none_known(unknown: &[u64], image: &mut [u64], marks: &mut [u8])
    requires { InBlocks (length unknown.now) (length image.old) (length marks.old) }
    ensures { Shown (value unknown.now) (length marks.old) (length unknown.now) [] image.new marks.new }
{
    for j in 0..marks.len() {
        set_unknown(unknown, image, marks, j);
    }
}

// how many marks are set
fn marks_set(marks: &[u8]) -> usize
    requires { (j : ℕ) → get_or marks.now j 0 ≤ 1 }
    ensures { result ≡ marked marks.now }
{
    marks.iter().filter(|mark| **mark == 1).count()
}

// the blocks and marks of all rows; answers how many are known
fn blocks(m: &Rows, unknown: &[u64], image: &mut [u64], marks: &mut [u8]) -> usize
    requires { InBlocks (length unknown.now) (length image.old) (length marks.old) }
    ensures { Shown (value unknown.now) (length marks.old) (length unknown.now) m.now image.new marks.new × (result ≡ marked marks.new) }
{
    none_known(unknown, image, marks);
    // from the last row to the first, so that of two rows with one pivot column the first counts
    for i in (0..m.len()).rev() {
        tell(m, i, unknown, image, marks);
    }
    marks_set(marks)
}

// the blocks that the reduced packets make known, and their marks, with the words of `unknown` in place of every other block; answers how many are known.
// Nothing is written where the packets are contradictory
pub fn solution(
    m: &[u64],
    rows: usize,
    columns: usize,
    n: usize,
    unknown: &[u64],
    image: &mut [u64],
    marks: &mut [u8],
) -> Result<usize, Unsolved>
    ensures { BlocksRead result rows columns n m.now unknown.now image.old marks.old image.new marks.new }
{
    if columns < n {
        return Err(Unsolved::Unfit);
    }
    let m = Rows::held(m, rows, columns)?;
    let v = words::per_row(columns - n);
    if unknown.len() < v || image.len() != n * v || marks.len() != n {
        return Err(Unsolved::Unfit);
    }
    if has_pivot(&m, n, columns) {
        return Err(Unsolved::Contradictory);
    }
    Ok(blocks(&m, &unknown[..v], image, marks))
}
