// Rows of words at the start of a buffer. A contract sees them as the numbers that they hold.
ghost use Rattle.std.specs.Prelude.{◌≡◌, ◌<◌, ◌≤◌, length, MatchResult};
ghost use Rattle.gf2.specs.Rows.{row};
ghost use Rattle.words.specs.Words.{words_of, rows_of};
ghost use Rattle.readoff.specs.ReadOff.{Holds};

use crate::row::Row;
use refusals::Unfit;
use std::marker::Model;

#[derive(Drop)]
pub(crate) struct Rows<'a> {
    words: &'a [u64],
    width: usize,
    count: usize,
}

impl<'a> Model for Rows<'a> {
    ghost use Rattle.std.specs.Prelude.{List, ℕ, ◌*◌, ◌≤◌, length};
    ghost use Rattle.words.specs.Words.{Fit, rows_of};

    ghost Value = { List ℕ };

    ghost view = { λ r. rows_of r.width r.count r.words.now };

    ghost invariant = { λ r. (r.count * r.width ≤ length r.words.now) × (r.width ≤ 16) × Fit r.words.now };
}

impl<'a> Rows<'a> {
    // the rows of that many columns, where they stand there
    pub(crate) fn held(words: &'a [u64], count: usize, columns: usize) -> Result<Rows<'a>, Unfit>
        ensures { MatchResult result (λ r. Holds count columns words.now × (r ≡ rows_of (words_of columns) count words.now)) (λ _. Holds count columns words.now → ⊥) }
    {
        if 1024 < columns {
            return Err(Unfit);
        }
        let width = words::per_row(columns);
        if width != 0 && words.len() / width < count {
            return Err(Unfit);
        }
        Ok(Rows {
            words,
            width,
            count,
        })
    }

    // how many there are
    pub(crate) fn len(&self) -> usize
        ensures { result ≡ length self.now }
    {
        self.count
    }

    // row i
    #[tactic(auto, using(crate::proofs::Held::held_end))]
    pub(crate) fn row(&self, i: usize) -> Row<'a>
        requires { i < length self.now }
        ensures { result ≡ row self.now i }
    {
        Row {
            words: &self.words[i * self.width..i * self.width + self.width],
        }
    }
}
