#![tactic(auto)]
// What programs on bundles share: a refusal as a line, an entry unpacked and reduced.
ghost use Rattle.std.specs.Prelude.{◌≡◌};
ghost use Rattle.text.specs.Put.{Written};
ghost use Rattle.desk.specs.Desk.{refused_text, ReducedEntry};
ghost use Rattle.desk.specs.declared.NotReduced.TheVariants.{Refused};

use refusals::Refusal;
use text::Page;

// how many columns a window has, in every program
const K: usize = 4;

// how many rows a table has
const TABLE_ROWS: usize = 1 << K;

// an entry's shape, and the rank and table additions of its reduced form
#[derive(Clone, Copy, Debug, PartialEq, Eq)]
pub struct Figures {
    pub rows: usize,
    pub columns: usize,
    pub rank: usize,
    pub additions: usize,
}

// why an entry is not reduced: it is refused; or words or room are too short
#[derive(Clone, Copy, Debug, PartialEq, Eq)]
pub enum NotReduced {
    Refused(Refusal),
    Unfit,
}

impl From<Refusal> for NotReduced {
    ghost from_gives = { λ r e. e ≡ Refused r };

    fn from(r: Refusal) -> NotReduced {
        NotReduced::Refused(r)
    }
}

// the line of a refusal
pub fn refused(page: &mut Page<'_>, r: Refusal)
    ensures { Written (refused_text r) page.old page.new }
{
    page.bytes(b"refused ");
    page.decimal(usize::from(u8::from(r)));
    page.bytes(b"\n");
}

// entry i, unpacked into the words lent and reduced there
pub fn reduce_entry(
    bytes: &[u8],
    i: usize,
    words: &mut [u64],
    room: &mut [u64],
) -> Result<Figures, NotReduced>
    ensures { ReducedEntry i bytes.now words.old room.old result words.new room.new }
{
    let entry = bundle::entry(bytes, i)?;
    let rows = usize::from(entry.rows);
    let columns = usize::from(entry.columns);
    let w = words::per_row(columns);
    if words.len() < rows * w || room.len() < TABLE_ROWS * w {
        return Err(NotReduced::Unfit);
    }
    let words = &mut words[..rows * w];
    bundle::unpack(bytes, i, words)?;
    let reduced = matrix::reduce(words, rows, columns, K, room)?;
    Ok(Figures {
        rows,
        columns,
        rank: reduced.rank,
        additions: reduced.additions,
    })
}
