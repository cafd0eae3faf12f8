// Matrices of bits in buffers of fixed length, in rows of whole words; all reads and stores are total.

// with which each lent buffer begins
pub const ONES: u64 = u64::MAX;

// what the buffers of a drawn try hold
pub const WORDS: usize = 1024;

pub const ROOM: usize = 4352;

// The rows stand at the buffer's front.
#[derive(Clone, Copy, PartialEq)]
pub struct Matrix<const N: usize> {
    pub rows: usize,
    pub columns: usize,
    pub buffer: [u64; N],
}

// the words of so many rows
pub(crate) fn words(rows: usize, columns: usize) -> usize {
    rows.saturating_mul(columns.div_ceil(64))
}

// the first n, or all where there are fewer
pub(crate) fn first<T>(s: &mut [T], n: usize) -> &mut [T] {
    let end = n.min(s.len());
    &mut s[..end]
}

impl<const N: usize> Matrix<N> {
    // over a buffer of that one word
    pub(crate) fn over(word: u64, rows: usize, columns: usize) -> Self {
        Matrix {
            rows,
            columns,
            buffer: [word; N],
        }
    }

    // the words of its rows
    pub(crate) fn lent(&self) -> &[u64] {
        let end = words(self.rows, self.columns).min(N);
        &self.buffer[..end]
    }

    pub(crate) fn lent_mut(&mut self) -> &mut [u64] {
        let end = words(self.rows, self.columns);
        first(&mut self.buffer, end)
    }

    // where the word with the bit in row i and column c stands: nothing wraps, for all rows and columns here are few
    fn place(&self, i: usize, c: usize) -> usize {
        i.wrapping_mul(words(1, self.columns)).wrapping_add(c / 64)
    }

    pub(crate) fn bit(&self, i: usize, c: usize) -> bool {
        let word = self.buffer.get(self.place(i, c)).copied().unwrap_or(0);
        word >> (c % 64) & 1 == 1
    }

    // adds that bit to the one in row i and column c
    pub(crate) fn add(&mut self, i: usize, c: usize, bit: bool) {
        let place = self.place(i, c);
        if let Some(word) = self.buffer.get_mut(place) {
            *word ^= u64::from(bit) << (c % 64);
        }
    }

    // changes the bit in row i and column c
    pub(crate) fn toggle(&mut self, i: usize, c: usize) {
        self.add(i, c, true);
    }

    // whether all of the buffer is as it began, all ones
    pub(crate) fn is_untouched(&self) -> bool {
        is_zeroed(&self.buffer, 0)
    }
}

// whether that many words are zero, and the others all ones
pub(crate) fn is_zeroed(s: &[u64], zeros: usize) -> bool {
    s.iter()
        .enumerate()
        .all(|(i, &word)| word == if i < zeros { 0 } else { ONES })
}

// the same of a room, where so many rows and a table are needed
pub(crate) fn is_cleared(room: &[u64], rows: usize, k: usize, columns: usize) -> bool {
    let table = 1usize << (k % 64);
    is_zeroed(room, words(table.saturating_add(rows), columns))
}
