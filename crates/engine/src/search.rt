// The search for a window's pivots: on two bytes a row, the window's bits that it has (h) and those that it will have (o, 0 for a used row).
// Words of a row are touched only where that row is chosen. Then the numbers: for each row that of the table row which clears it.
ghost use Rattle.std.specs.Prelude.{◌≡◌, ℕ, ◌+◌, ◌*◌, ◌≤◌, ◌<◌, length, get_or, drop};
ghost use Rattle.gf2.specs.Rows.{bit, row};
ghost use Rattle.words.specs.Words.{rows_of, window_bits};
ghost use Rattle.method.specs.Stage.{Stage};
ghost use Rattle.engine.specs.Stage.{Search, Kept, Union, Own, Settled, Lifted, WindowPivots, Numbers};

use super::{bytes, rows};

// a window, with what is true of its numbers
#[derive(Clone, Copy)]
pub(crate) struct Window {
    // words of a row
    pub(crate) w: usize,
    // rows
    pub(crate) n: usize,
    // the first column
    pub(crate) c: usize,
    // columns
    pub(crate) k: usize,
    // rows, the first ones, that have their pivots left of the window
    pub(crate) base: usize,
    ghost narrow: { w ≤ 16 },
    ghost few: { n ≤ 1024 },
    ghost some: { 0 < k },
    ghost most: { k ≤ 8 },
    ghost inside: { c + k ≤ w * 64 },
    ghost left: { base ≤ n },
}

// the union of what the rows not yet used will have, and the number of pivots found
#[derive(Clone, Copy)]
struct Seen {
    union: u8,
    found: usize,
}

impl Window {
    // the window's bits of rows `from` to `to`; answers their union
    fn read(self, m: &[u64], from: usize, to: usize, h: &mut [u8]) -> u8
        requires { (self.n * self.w ≤ length m.now) × (from ≤ to) × (to ≤ self.n) × (length h.old ≡ self.n) }
        ensures { ((i : ℕ) → from ≤ i → i < to → get_or h.new i 0 ≡ window_bits self.c self.k (row (rows_of self.w self.n m.now) i)) × ((i : ℕ) → to ≤ i → get_or h.new i 0 ≡ get_or h.old i 0) × Union to from h.new result }
    {
        let mut union = 0;
        for i in from..to {
            let bits = rows::bits(m, self.w, i, self.c, self.k) as u8;
            h[i] = bits;
            union |= bits;
        }
        union
    }

    // row i is cleared by the window's first s pivot rows
    fn settle(self, m: &mut [u64], s: usize, cols: &[u16], i: usize)
        requires { (self.n * self.w ≤ length m.old) × (self.base + s ≤ i) × (i < self.n) × (self.n ≤ length cols.now) × Own self.w self.base s (rows_of self.w self.n m.old) cols.now }
        ensures { Settled self.base s (self.base + s) i (rows_of self.w self.n m.old) cols.now (rows_of self.w self.n m.new) × (drop (self.n * self.w) m.new ≡ drop (self.n * self.w) m.old) }
    {
        for p in self.base..self.base + s {
            rows::clear_row(m, self.w, self.n, usize::from(cols[p]), p, i);
        }
    }

    // column c + x of the window's first s pivot rows is cleared by the next
    fn lift(self, m: &mut [u64], x: usize, s: usize)
        requires { (self.n * self.w ≤ length m.old) × (self.base + s < self.n) × (x < self.k) }
        ensures { Lifted (self.c + x) self.base s (self.base + s) (rows_of self.w self.n m.old) (rows_of self.w self.n m.new) × (drop (self.n * self.w) m.new ≡ drop (self.n * self.w) m.old) }
    {
        let by = self.base + s;
        for p in self.base..by {
            rows::clear_row(m, self.w, self.n, self.c + x, by, p);
        }
    }

    // row i becomes the pivot row of column c + x
    fn take(
        self,
        m: &mut [u64],
        x: usize,
        s: usize,
        i: usize,
        h: &mut [u8],
        o: &mut [u8],
        cols: &mut [u16],
    ) -> u8
        requires { (self.n * self.w ≤ length m.old) × (x < self.k) × (self.base + s ≤ i) × (i < self.n) × (bit x (get_or o.old i 0) ≡ 1) × Search self.n self.c self.k x self.base s (rows_of self.w self.n m.old) h.old o.old cols.old }
        ensures { Search self.n self.c self.k (x + 1) self.base (s + 1) (rows_of self.w self.n m.new) h.new o.new cols.new × Union self.n 0 o.new result × Kept self.w self.n self.base m.old m.new cols.old cols.new }
    {
        let p = self.base + s;
        self.settle(m, s, cols, i);
        rows::exchange(m, self.w, self.n, i, p);
        self.lift(m, x, s);
        cols[p] = (self.c + x) as u16;
        let b = o[i];
        o[i] = o[p];
        o[p] = 0;
        h[i] = h[p];
        bytes::sweep(o, x, b)
    }

    // column c + x gets its pivot row, if a row not yet used will have a one in it
    fn column(
        self,
        m: &mut [u64],
        x: usize,
        seen: Seen,
        h: &mut [u8],
        o: &mut [u8],
        cols: &mut [u16],
    ) -> Seen
        requires { (self.n * self.w ≤ length m.old) × (x < self.k) × Search self.n self.c self.k x self.base seen.found (rows_of self.w self.n m.old) h.old o.old cols.old × Union self.n (self.base + seen.found) o.old seen.union }
        ensures { Search self.n self.c self.k (x + 1) self.base result.found (rows_of self.w self.n m.new) h.new o.new cols.new × Union self.n (self.base + result.found) o.new result.union × Kept self.w self.n self.base m.old m.new cols.old cols.new }
    {
        let s = seen.found;
        if (seen.union >> x) % 2 == 0 {
            return seen;
        }
        match bytes::find(o, x, self.base + s) {
            Some(i) => Seen {
                union: self.take(m, x, s, i, h, o, cols),
                found: s + 1,
            },
            // cannot be, for the union is exact; what is proved of it is only that it misses no one
            None => seen,
        }
    }

    // the pivots are found among all rows from base on: how many
    pub(crate) fn search(self, m: &mut [u64], h: &mut [u8], o: &mut [u8], cols: &mut [u16]) -> usize
        requires { (self.n * self.w ≤ length m.old) × (length h.old ≡ self.n) × (length o.old ≡ self.n) × Stage self.n self.c self.base (rows_of self.w self.n m.old) cols.old }
        ensures { Search self.n self.c self.k self.k self.base result (rows_of self.w self.n m.new) h.new o.new cols.new × Kept self.w self.n self.base m.old m.new cols.old cols.new }
    {
        let union = self.read(m, self.base, self.n, h);
        o.copy_from_slice(h);
        o[..self.base].fill(0);
        let mut seen = Seen { union, found: 0 };
        for x in 0..self.k {
            seen = self.column(m, x, seen, h, o, cols);
        }
        seen.found
    }

    // h, which has the window's bits of the rows behind the r pivot rows, becomes the numbers of all rows
    pub(crate) fn numbers(self, m: &[u64], r: usize, h: &mut [u8], cols: &[u16])
        requires { (self.n * self.w ≤ length m.now) × (r ≤ self.k) × (self.base + r ≤ self.n) × (length h.old ≡ self.n) × (self.n ≤ length cols.now) × WindowPivots self.c self.k self.base r cols.now × ((i : ℕ) → self.base + r ≤ i → i < self.n → get_or h.old i 0 ≡ window_bits self.c self.k (row (rows_of self.w self.n m.now) i)) }
        ensures { Numbers self.n self.base r (rows_of self.w self.n m.now) h.new cols.now }
    {
        self.read(m, 0, self.base, h);
        // where every column of the window has a pivot, the bits are the number already
        if r != self.k {
            bytes::gather_all(h, &cols[self.base..self.base + r], self.c);
        }
        h[self.base..self.base + r].fill(0);
    }
}
