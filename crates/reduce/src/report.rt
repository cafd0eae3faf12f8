// The text that the program writes: a line for each entry, its rows that are not zero, and the count; or the refusal.
ghost use Rattle.std.specs.Prelude.{◌≡◌, ◌≢◌, ◌++◌, ℕ, ◌*◌, ◌≤◌, ◌<◌, length, drop, Ok};
ghost use Rattle.gf2.specs.Rows.{row};
ghost use Rattle.gf2.specs.Rref.{rref};
ghost use Rattle.words.specs.Words.{words_of, rows_of};
ghost use Rattle.bundle.specs.Bundle.{count_of, both_kinds, bundle_checks, entry_at};
ghost use Rattle.text.specs.Text.{decimal};
ghost use Rattle.text.specs.Put.{Written};
ghost use Rattle.reduce.specs.Report.{entry_line, row_lines, entry_text, report};

use desk::Figures;
use text::Page;

// a name and a number
fn field(page: &mut Page<'_>, name: &[u8], n: usize)
    ensures { Written (name.now ++ decimal n) page.old page.new }
{
    page.bytes(name);
    page.decimal(n);
}

// the line that opens an entry
fn entry_line(page: &mut Page<'_>, i: usize, f: Figures)
    ensures { Written (entry_line i f.rows f.columns f.rank f.additions) page.old page.new }
{
    field(page, b"entry ", i);
    field(page, b" rows ", f.rows);
    field(page, b" columns ", f.columns);
    field(page, b" rank ", f.rank);
    field(page, b" additions ", f.additions);
    page.bytes(b"\n");
}

// the first n rows, a line each; none of them is zero
fn row_lines(page: &mut Page<'_>, words: &[u64], n: usize, columns: usize)
    requires { ((i : ℕ) → i < n → row (rows_of (words_of columns) n words.now) i ≢ 0) × (n * words_of columns ≤ length words.now) × (page.old.end ≤ length page.old.buffer.now) }
    ensures { Written (row_lines columns (rows_of (words_of columns) n words.now)) page.old page.new }
{
    let w = words::per_row(columns);
    for i in 0..n {
        page.bits(&words[i * w..i * w + w], columns);
        page.bytes(b"\n");
    }
}

// entry i: its line, and its rows that are not zero
fn entry(page: &mut Page<'_>, bytes: &[u8], i: usize, words: &mut [u64], room: &mut [u64])
    requires { (bundle_checks both_kinds bytes.now ≡ Ok tt) × (i < count_of bytes.now) × (8192 ≤ length words.old) × (256 ≤ length room.old) }
    ensures { Written (entry_text i (entry_at i bytes.now) (rref (entry_at i bytes.now).matrix)) page.old page.new }
{
    // nothing is refused: the bundle has been read, and the buffers are long enough for every entry
    let figures = desk::reduce_entry(bytes, i, words, room).unwrap();
    entry_line(page, i, figures);
    row_lines(page, words, figures.rank, figures.columns);
}

// the entries and the count; or the refusal
fn told(page: &mut Page<'_>, bytes: &[u8], words: &mut [u64], room: &mut [u64])
    requires { (8192 ≤ length words.old) × (256 ≤ length room.old) × (page.old.end ≤ length page.old.buffer.now) }
    ensures { Written (report bytes.now) page.old page.new }
{
    match bundle::read(bytes) {
        Err(r) => desk::refused(page, r),
        Ok(n) => {
            for i in 0..n {
                entry(page, bytes, i, words, room);
            }
            field(page, b"done ", n);
            page.bytes(b"\n");
        }
    }
}

// the whole text, which every input leaves room for
pub(crate) fn whole(bytes: &[u8], words: &mut [u64], room: &mut [u64], out: &mut [u8]) -> usize
    requires { (8192 ≤ length words.old) × (256 ≤ length room.old) × (544768 ≤ length out.old) }
    ensures { (result ≡ length (report bytes.now)) × (out.new ≡ report bytes.now ++ drop result out.old) }
{
    let mut page = Page {
        buffer: out,
        end: 0,
    };
    told(&mut page, bytes, words, room);
    page.end
}
