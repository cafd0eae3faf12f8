#![tactic(auto)]
// The reduction by the table, over lists of words: a total core for every call above it. Matrix and table stand in two slices, or in one room, which is split.
// Names throughout: m holds a matrix of n rows of w words. A window is the k columns from column c on; base rows have their pivots left of it, r (while they are
// sought: s) have theirs in it, and x counts its columns from 0. t is the table. h and o have a byte for each row: see search.rt; in table.rt, o has the number
// of the table row that clears it. cols has the pivot columns found.
ghost use Rattle.std.specs.Prelude.{◌≡◌, ◌⊎◌, OnOk, OnErr, ◌+◌, ◌*◌, ◌^◌, ◌≤◌, ◌<◌, min, length, drop};
ghost use Rattle.gf2.specs.Additions.{windows, table_additions, additions};
ghost use Rattle.words.specs.Words.{words_of, rows_of, zeroed};
ghost use Rattle.engine.specs.Core.{Fits, ReducedTo, TwoSlices, OneRoom};
ghost use Rattle.method.specs.Stage.{Stage, Unset};
ghost use Rattle.engine.specs.Stage.{Windowed, Reduces};

mod bytes;
mod rows;
mod search;
mod table;

use refusals::Unfit;
use search::Window;
use table::Pivots;

// the rank and the table additions: of a reduced matrix, or what one window adds to both
#[derive(Clone, Copy)]
pub struct Eliminated {
    pub rank: usize,
    pub additions: usize,
}

// the window's pivots are found, and their columns cleared
fn reduce_window(
    window: Window,
    m: &mut [u64],
    t: &mut [u64],
    h: &mut [u8],
    o: &mut [u8],
    cols: &mut [u16],
) -> Eliminated
    requires { (window.n * window.w ≤ length m.old) × (2 ^ window.k * window.w ≤ length t.old) × (length h.old ≡ window.n) × (length o.old ≡ window.n) × Stage window.n window.c window.base (rows_of window.w window.n m.old) cols.old }
    ensures { Windowed window.n window.c window.k window.base result.rank (rows_of window.w window.n m.old) (rows_of window.w window.n m.new) cols.old cols.new × (drop (window.n * window.w) m.new ≡ drop (window.n * window.w) m.old) × (drop (2 ^ window.k * window.w) t.new ≡ drop (2 ^ window.k * window.w) t.old) × (result.additions ≡ table_additions result.rank) }
{
    let Window { w, n, c, base, .. } = window;
    let r = window.search(m, h, o, cols);
    if r == 0 {
        return Eliminated {
            rank: 0,
            additions: 0,
        };
    }
    window.numbers(m, r, h, cols);
    let additions = table::apply(m, t, h, Pivots { n, w, base, r }, w - c / 64);
    Eliminated { rank: r, additions }
}

// the width of the window from c
fn width(columns: usize, k: usize, c: usize) -> usize
    requires { (0 < k) × (c < columns) }
    ensures { (0 < result) × (result ≤ k) × (c + result ≤ columns) × ((c + result ≡ columns) ⊎ (result ≡ k)) }
{
    k.min(columns - c)
}

// the number of windows
fn window_count(columns: usize, k: usize) -> usize
    requires { 0 < k }
    ensures { result ≡ windows k columns }
{
    columns.div_ceil(k)
}

// all windows
fn all(
    m: &mut [u64],
    w: usize,
    n: usize,
    columns: usize,
    k: usize,
    t: &mut [u64],
    cols: &mut [u16],
) -> Eliminated
    requires { (w ≡ words_of columns) × Fits n columns k 0 (length t.old) (length cols.old) m.old × Unset cols.old }
    ensures { ReducedTo (additions k columns) (rows_of w n m.old) (rows_of w n m.new) result cols.new × (drop (n * w) m.new ≡ drop (n * w) m.old) × (drop (2 ^ k * w) t.new ≡ drop (2 ^ k * w) t.old) }
{
    let mut h = [0u8; 1024];
    let mut o = [0u8; 1024];
    let (h, o) = (&mut h[..n], &mut o[..n]);
    let mut rank = 0;
    let mut additions = 0;
    for j in 0..window_count(columns, k) {
        let c = j * k;
        let window = Window {
            w,
            n,
            c,
            k: width(columns, k, c),
            base: rank,
        };
        let found = reduce_window(window, m, t, h, o, cols);
        rank += found.rank;
        additions += found.additions;
    }
    Eliminated { rank, additions }
}

// the shapes are those that the core takes, or else this says so
fn fits(
    m: &[u64],
    rows: usize,
    columns: usize,
    k: usize,
    more: usize,
    room: usize,
    list: usize,
) -> Result<(), Unfit>
    ensures fit { OnOk result (Fits rows columns k more room list m.now) }
    ensures unfit { OnErr result (Fits rows columns k more room list m.now → ⊥) }
{
    refusals::bad_columns(columns)?;
    refusals::bad_k(k)?;
    refusals::short_room(more, k, columns, room)?;
    if list.min(1024) < rows {
        return Err(Unfit);
    }
    if words::hold_rows(m, rows, columns) {
        Ok(())
    } else {
        Err(Unfit)
    }
}

// reduces the matrix at the start of m, where the shapes fit; then the table's words are zero
fn reduce(
    m: &mut [u64],
    t: &mut [u64],
    rows: usize,
    columns: usize,
    k: usize,
    pivots: &mut [u16],
) -> Eliminated
    requires { Fits rows columns k 0 (length t.old) (length pivots.old) m.old }
    ensures { Reduces result rows columns k m.old t.old m.new t.new pivots.new }
{
    let w = words::per_row(columns);
    // no pivot yet
    pivots.fill(65535);
    let r = all(m, w, rows, columns, k, t, pivots);
    rows::zero(t, 0, table::pow2(k) * w);
    r
}

// reduces the matrix at the start of m, with the table in t, whose needed words end zero. Where the shapes do not fit it changes nothing and says so
pub fn eliminate(
    m: &mut [u64],
    t: &mut [u64],
    rows: usize,
    columns: usize,
    k: usize,
    pivots: &mut [u16],
) -> Result<Eliminated, Unfit>
    ensures { TwoSlices result rows columns k m.old t.old pivots.old m.new t.new pivots.new }
{
    fits(m, rows, columns, k, 0, t.len(), pivots.len())?;
    Ok(reduce(m, t, rows, columns, k, pivots))
}

// the same with the table behind the matrix in one room
pub fn eliminate_in(
    m: &mut [u64],
    rows: usize,
    columns: usize,
    k: usize,
    pivots: &mut [u16],
) -> Result<Eliminated, Unfit>
    ensures { OneRoom result rows columns k m.old pivots.old m.new pivots.new }
{
    fits(m, rows, columns, k, rows, m.len(), pivots.len())?;
    let (matrix, table) = m.split_at_mut(rows * words::per_row(columns));
    Ok(reduce(matrix, table, rows, columns, k, pivots))
}

// the first len words become zero, as far as there are so many
pub fn zero_front(d: &mut [u64], len: usize)
    ensures { d.new ≡ zeroed 0 (min len (length d.old)) d.old }
{
    rows::zero(d, 0, len.min(d.len()));
}
