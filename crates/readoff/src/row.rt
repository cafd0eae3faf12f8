// A row of words. A contract sees it as the number that they hold: the lowest bit of the first word is column 0.
ghost use Rattle.std.specs.Prelude.{◌≡◌, ◌/◌, ◌%◌, ◌^◌, ◌<◌, ◌≤◌, length, eqb};
ghost use Rattle.words.specs.Words.{first_words, window_bits};
ghost use Rattle.images.specs.ReadOff.{inside};
ghost use Rattle.readoff.specs.Steps.{NextOne, HasOne};

use std::marker::Model;

#[derive(Drop)]
pub(crate) struct Row<'a> {
    pub(crate) words: &'a [u64],
}

impl<'a> Model for Row<'a> {
    ghost use Rattle.std.specs.Prelude.{ℕ, ◌≤◌, length};
    ghost use Rattle.words.specs.Words.{value, Fit};

    ghost Value = { ℕ };

    ghost view = { λ r. value r.words.now };

    ghost invariant = { λ r. (length r.words.now ≤ 16) × Fit r.words.now };
}

impl<'a> Row<'a> {
    // the 64 columns from column c on; past the row's end, zeros
    fn columns_from(&self, c: usize) -> u64
        ensures { result ≡ window_bits c 64 self.now }
    {
        let words = self.words;
        let l = c / 64;
        let s = c % 64;
        let low = words.get(l).copied().unwrap_or(0) >> s;
        if s == 0 {
            return low;
        }
        low | (words.get(l + 1).copied().unwrap_or(0) << (64 - s))
    }

    // the words of `to` become the columns from c on
    pub(crate) fn write_from(&self, c: usize, to: &mut [u64])
        requires { (length to.old ≤ 16) × (c ≤ 1024) }
        ensures { to.new ≡ first_words (length to.old) (self.now / 2 ^ c) }
    {
        for (l, x) in to.iter_mut().enumerate() {
            *x = self.columns_from(c + 64 * l);
        }
    }

    // the column of the first one from column c on
    pub(crate) fn next_one(&self, c: usize) -> Option<usize>
        ensures { NextOne c self.now result }
    {
        let words = self.words;
        let mut q = c;
        for l in c / 64..words.len() {
            let x = words[l] >> (q % 64);
            if x != 0 {
                return Some(q + x.trailing_zeros() as usize);
            }
            q = 64 * (l + 1);
        }
        None
    }

    // whether a one stands in columns a to e - 1
    pub(crate) fn has_one(&self, a: usize, e: usize) -> bool
        ensures { HasOne a e self.now result }
    {
        self.next_one(a).is_some_and(|c| c < e)
    }

    // whether its pivot stands in columns a to e - 1
    pub(crate) fn stands_in(&self, a: usize, e: usize) -> bool
        ensures { result ≡ inside a e self.now }
    {
        self.next_one(0).is_some_and(|c| a <= c && c < e)
    }

    // whether the only one in the first n columns is in column j
    pub(crate) fn is_unit(&self, n: usize, j: usize) -> bool
        requires { j < n }
        ensures { result ≡ eqb (self.now % 2 ^ n) (2 ^ j) }
    {
        self.next_one(0).is_some_and(|c| c == j) && !self.has_one(j + 1, n)
    }
}
