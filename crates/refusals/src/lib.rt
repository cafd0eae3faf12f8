#![tactic(auto)]
// The refusals, and the checks that give them: each check once, total and exact for all numbers.
ghost use Rattle.std.specs.Prelude.{◌≡◌, ◌+◌, ◌*◌, ◌^◌, eqb, ltb, not};
ghost use Rattle.words.specs.Words.{words_of};
ghost use Rattle.refusals.specs.Outcome.{number_of, outcome_number, refuse_if};
ghost use Rattle.refusals.specs.Checks.{too_many_rows, bad_columns, size_checks, bad_k, wrong_length, short_room, bad_blocks, not_square, too_wide, wrong_buffer, wrong_marks, not_below, dirty_padding, view_checks, reduction_checks, inverse_checks, solving_checks, contradiction_checks};

#[derive(Clone, Copy, Debug, PartialEq, Eq)]
pub enum Refusal {
    TooManyRows,
    BadColumns,
    BadK,
    WrongLength,
    DirtyPadding,
    ShortRoom,
    BadBlocks,
    NotSquare,
    NoInverse,
    Contradictory,
    TooWide,
    NotBelow,
    WrongBuffer,
    BundleSize,
    EntryCount,
    ContentsCut,
    BadKind,
    BadShape,
    WrongOffset,
    BodyPast,
    BytesLeft,
    ShortOutput,
    BundleOver,
}

// what a check answers
pub type Outcome = Result<(), Refusal>;

// shapes that a call of the core does not take
#[derive(Clone, Copy, Debug, PartialEq, Eq)]
pub struct Unfit;

// what a check refuses is such a shape
impl From<Refusal> for Unfit {
    ghost from_gives = { λ _ u. u ≡ record {} };

    fn from(_: Refusal) -> Unfit {
        Unfit
    }
}

// the number of a refusal, by which the requirements list it
impl From<Refusal> for u8 {
    ghost from_gives = { λ r n. n ≡ number_of r };

    fn from(r: Refusal) -> u8 {
        match r {
            Refusal::TooManyRows => 1,
            Refusal::BadColumns => 2,
            Refusal::BadK => 3,
            Refusal::WrongLength => 4,
            Refusal::DirtyPadding => 5,
            Refusal::ShortRoom => 6,
            Refusal::BadBlocks => 7,
            Refusal::NotSquare => 8,
            Refusal::NoInverse => 9,
            Refusal::Contradictory => 10,
            Refusal::TooWide => 11,
            Refusal::NotBelow => 12,
            Refusal::WrongBuffer => 13,
            Refusal::BundleSize => 20,
            Refusal::EntryCount => 21,
            Refusal::ContentsCut => 22,
            Refusal::BadKind => 23,
            Refusal::BadShape => 24,
            Refusal::WrongOffset => 25,
            Refusal::BodyPast => 26,
            Refusal::BytesLeft => 27,
            Refusal::ShortOutput => 28,
            Refusal::BundleOver => 29,
        }
    }
}

// 0, or the refusal's number
pub fn number<T>(answer: &Result<T, Refusal>) -> u8
    ensures { result ≡ outcome_number answer.now }
{
    match answer {
        Ok(_) => 0,
        Err(r) => u8::from(*r),
    }
}

// the refusal, if the test holds
fn refuse_if(test: bool, r: Refusal) -> Outcome
    ensures { result ≡ refuse_if test r }
{
    if test { Err(r) } else { Ok(()) }
}

#[tactic(auto, unfolding(crate::specs::Checks::too_many_rows))]
pub fn too_many_rows(rows: usize) -> Outcome
    ensures { result ≡ too_many_rows rows }
{
    refuse_if(512 < rows, Refusal::TooManyRows)
}

#[tactic(auto, unfolding(crate::specs::Checks::bad_columns))]
pub fn bad_columns(columns: usize) -> Outcome
    ensures { result ≡ bad_columns columns }
{
    refuse_if(columns == 0 || 1024 < columns, Refusal::BadColumns)
}

// the sizes of a matrix
#[tactic(auto, unfolding(crate::specs::Checks::size_checks))]
pub fn sizes(rows: usize, columns: usize) -> Outcome
    ensures { result ≡ size_checks rows columns }
{
    too_many_rows(rows)?;
    bad_columns(columns)
}

#[tactic(auto, unfolding(crate::specs::Checks::bad_k))]
pub fn bad_k(k: usize) -> Outcome
    ensures { result ≡ bad_k k }
{
    refuse_if(k == 0 || 8 < k, Refusal::BadK)
}

// the refusal, if len is not rows x the words of that many columns
fn unless_exact(rows: usize, columns: usize, len: usize, r: Refusal) -> Outcome
    ensures { result ≡ refuse_if (not (eqb len (rows * words_of columns))) r }
{
    refuse_if(rows.checked_mul(words::per_row(columns)) != Some(len), r)
}

#[tactic(auto, unfolding(crate::specs::Checks::wrong_length))]
pub fn wrong_length(rows: usize, columns: usize, len: usize) -> Outcome
    ensures { result ≡ wrong_length rows columns len }
{
    unless_exact(rows, columns, len, Refusal::WrongLength)
}

// whether room is less than (more + 2^k) x w, without multiplying: the product may be any number
fn is_short(room: usize, more: usize, k: usize, w: usize) -> bool
    ensures { result ≡ ltb room ((more + 2 ^ k) * w) }
{
    if w == 0 {
        return false;
    }
    if 63 < k {
        return true;
    }
    let rows = room / w;
    rows < more || rows - more < 1 << k
}

#[tactic(auto, unfolding(crate::specs::Checks::short_room))]
pub fn short_room(more: usize, k: usize, columns: usize, room: usize) -> Outcome
    ensures { result ≡ short_room more k columns room }
{
    refuse_if(
        is_short(room, more, k, words::per_row(columns)),
        Refusal::ShortRoom,
    )
}

#[tactic(auto, unfolding(crate::specs::Checks::bad_blocks))]
pub fn bad_blocks(n: usize, columns: usize) -> Outcome
    ensures { result ≡ bad_blocks n columns }
{
    refuse_if(n == 0 || columns <= n, Refusal::BadBlocks)
}

#[tactic(auto, unfolding(crate::specs::Checks::not_square))]
pub fn not_square(rows: usize, columns: usize) -> Outcome
    ensures { result ≡ not_square rows columns }
{
    refuse_if(rows != columns, Refusal::NotSquare)
}

#[tactic(auto, unfolding(crate::specs::Checks::too_wide))]
pub fn too_wide(columns: usize, packets: usize) -> Outcome
    ensures { result ≡ too_wide columns packets }
{
    refuse_if(1024 < columns.saturating_add(packets), Refusal::TooWide)
}

#[tactic(auto, unfolding(crate::specs::Checks::wrong_buffer))]
pub fn wrong_buffer(rows: usize, columns: usize, len: usize) -> Outcome
    ensures { result ≡ wrong_buffer rows columns len }
{
    unless_exact(rows, columns, len, Refusal::WrongBuffer)
}

#[tactic(auto, unfolding(crate::specs::Checks::wrong_marks))]
pub fn wrong_marks(n: usize, len: usize) -> Outcome
    ensures { result ≡ wrong_marks n len }
{
    refuse_if(len != n, Refusal::WrongBuffer)
}

#[tactic(auto, unfolding(crate::specs::Checks::not_below))]
pub fn not_below(i: usize, count: usize) -> Outcome
    ensures { result ≡ not_below i count }
{
    refuse_if(count <= i, Refusal::NotBelow)
}

#[tactic(auto, unfolding(crate::specs::Checks::dirty_padding))]
pub fn dirty_padding(m: &[u64], rows: usize, columns: usize) -> Outcome
    ensures { result ≡ dirty_padding rows columns m.now }
{
    refuse_if(!words::hold_rows(m, rows, columns), Refusal::DirtyPadding)
}

// the row view's checks
pub fn view(rows: usize, columns: usize, len: usize, i: usize) -> Outcome
    ensures { result ≡ view_checks rows columns len i }
{
    sizes(rows, columns)?;
    wrong_length(rows, columns, len)?;
    not_below(i, rows)
}

// Below, the padding comes last: no word of the matrix is read unless all before it has passed.

// the reduction's checks
pub fn reduction(m: &[u64], rows: usize, columns: usize, k: usize, room: usize) -> Outcome
    ensures { result ≡ reduction_checks rows columns k m.now room }
{
    sizes(rows, columns)?;
    bad_k(k)?;
    // a short room counts only where the length is right
    wrong_length(rows, columns, m.len())?;
    short_room(0, k, columns, room)?;
    dirty_padding(m, rows, columns)
}

// the inverse's checks
pub fn inverse(m: &[u64], rows: usize, columns: usize, k: usize, res: usize, room: usize) -> Outcome
    ensures { result ≡ inverse_checks rows columns k m.now res room }
{
    sizes(rows, columns)?;
    not_square(rows, columns)?;
    bad_k(k)?;
    wrong_length(rows, columns, m.len())?;
    wrong_buffer(rows, columns, res)?;
    // the sizes have passed: the sum does not wrap
    short_room(rows, k, rows + columns, room)?;
    dirty_padding(m, rows, columns)
}

// the checks of solving
pub fn solving(
    m: &[u64],
    rows: usize,
    columns: usize,
    n: usize,
    k: usize,
    image: usize,
    marks: usize,
    room: usize,
) -> Outcome
    ensures { result ≡ solving_checks rows columns n k m.now image marks room }
{
    sizes(rows, columns)?;
    bad_blocks(n, columns)?;
    bad_k(k)?;
    wrong_length(rows, columns, m.len())?;
    // an image of n blocks, as wide as the payload
    wrong_buffer(n, columns.saturating_sub(n), image)?;
    wrong_marks(n, marks)?;
    short_room(0, k, columns, room)?;
    dirty_padding(m, rows, columns)
}

// the checks of the contradiction call
pub fn contradiction(
    m: &[u64],
    rows: usize,
    columns: usize,
    n: usize,
    k: usize,
    named: usize,
    room: usize,
) -> Outcome
    ensures { result ≡ contradiction_checks rows columns n k m.now named room }
{
    sizes(rows, columns)?;
    bad_blocks(n, columns)?;
    too_wide(columns, rows)?;
    bad_k(k)?;
    wrong_length(rows, columns, m.len())?;
    wrong_buffer(1, rows, named)?;
    // the sizes have passed: the sum does not wrap
    short_room(rows, k, columns + rows, room)?;
    dirty_padding(m, rows, columns)
}
