// The entries that the lists give, once they have passed the checks.
ghost use Rattle.std.specs.Prelude.{◌≡◌, ◌≤◌};
ghost use Rattle.bundle.specs.Bundle.{body_words};
ghost use Rattle.pack.specs.Writing.{all_narrow};
ghost use Rattle.pack.specs.Steps.{Checked, first_left, second_left, third_left};

use std::iter::Zip;
use std::slice::Iter;

// the words of a body, whatever its rows and columns: at most 65,535 rows of 1,024 words
pub(crate) fn body_words(rows: u16, columns: u16) -> usize
    ensures { (result ≡ body_words rows columns) × (result ≤ 67107840) }
{
    usize::from(rows) * words::per_row(usize::from(columns))
}

// a kind, rows and columns entry by entry, and the words of all bodies: shapes of matrices, and as many words as they take
#[derive(Clone, Copy)]
pub(crate) struct Entries<'a> {
    pub kinds: &'a [u16],
    pub rows: &'a [u16],
    pub columns: &'a [u16],
    pub words: &'a [u64],
    pub ghost checked: { Checked kinds.now rows.now columns.now words.now },
}

impl<'a> Entries<'a> {
    ghost use Rattle.pack.specs.Given.{entries_in, bytes_in};

    // entry by entry kind, rows and columns
    pub(crate) fn iter(&self) -> Zip<Zip<Iter<'a, u16>, Iter<'a, u16>>, Iter<'a, u16>>
        ensures kinds { first_left result ≡ self.now.kinds.now }
        ensures rows { second_left result ≡ self.now.rows.now }
        ensures columns { third_left result ≡ self.now.columns.now }
    {
        self.kinds.iter().zip(self.rows).zip(self.columns)
    }

    // whether no row of any has a one past its last column
    pub(crate) fn are_narrow(&self) -> bool
        ensures { result ≡ all_narrow (entries_in self.now) }
    {
        let mut left = self.words;
        for ((_, &rows), &columns) in self.iter() {
            let (body, rest) = left.split_at(body_words(rows, columns));
            if !words::hold_rows(body, usize::from(rows), usize::from(columns)) {
                return false;
            }
            left = rest;
        }
        true
    }

    // the bytes of the bundle
    pub(crate) fn size(&self) -> usize
        ensures { result ≡ bytes_in self.now }
    {
        2 + 10 * self.kinds.len() + 8 * self.words.len()
    }
}
