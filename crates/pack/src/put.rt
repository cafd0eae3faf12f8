// The bytes of a bundle, put one after the other.
ghost use Rattle.std.specs.Prelude.{◌≡◌, ◌++◌, ◌+◌, ◌*◌, ◌≤◌, length, drop};
ghost use Rattle.wire.specs.Bytes.{bytes_of};
ghost use Rattle.wire.specs.Kinds.{bytes_of_words};
ghost use Rattle.bundle.specs.Bundle.{head_bytes};
ghost use Rattle.pack.specs.Encode.{head_of, contents_of, bodies_of, encode};
ghost use Rattle.pack.specs.Given.{entries_in, bytes_in};
ghost use Rattle.pack.specs.Steps.{splice};

use crate::entries::{Entries, body_words};

// the k lowest bytes of a number, the lowest first
fn number(out: &mut [u8], at: usize, k: usize, x: u64)
    requires { (at + k ≤ length out.old) × (k ≤ 8) }
    ensures { out.new ≡ splice at (bytes_of k x) out.old }
{
    out[at..at + k].copy_from_slice(&x.to_le_bytes()[..k]);
}

// an entry's ten bytes
fn head(out: &mut [u8], at: usize, kind: u16, rows: u16, columns: u16, offset: usize)
    requires { at + 10 ≤ length out.old }
    ensures { out.new ≡ splice at (head_of kind rows columns offset) out.old }
{
    number(out, at, 2, u64::from(kind));
    number(out, at + 2, 2, u64::from(rows));
    number(out, at + 4, 2, u64::from(columns));
    number(out, at + 6, 4, offset as u64);
}

// words, in the order of a kind
fn body(out: &mut [u8], at: usize, kind: u16, words: &[u64])
    requires { at + 8 * length words.now ≤ length out.old }
    ensures { out.new ≡ splice at (bytes_of_words kind words.now) out.old }
{
    for (j, &word) in words.iter().enumerate() {
        number(out, at + 8 * j, 8, wire::ordered(usize::from(kind), word));
    }
}

// the contents: each body begins where the one before it ends
fn contents(out: &mut [u8], entries: &Entries)
    requires { bytes_in entries.now ≤ length out.old }
    ensures { out.new ≡ splice 2 (contents_of (head_bytes (length entries.now.kinds.now)) (entries_in entries.now)) out.old }
{
    let mut at = 2;
    let mut offset = 2 + 10 * entries.kinds.len();
    for ((&kind, &rows), &columns) in entries.iter() {
        head(out, at, kind, rows, columns, offset);
        at += 10;
        offset += 8 * body_words(rows, columns);
    }
}

fn bodies(out: &mut [u8], entries: &Entries)
    requires { bytes_in entries.now ≤ length out.old }
    ensures { out.new ≡ splice (head_bytes (length entries.now.kinds.now)) (bodies_of (entries_in entries.now)) out.old }
{
    let mut at = 2 + 10 * entries.kinds.len();
    let mut left = entries.words;
    for ((&kind, &rows), &columns) in entries.iter() {
        let (words, rest) = left.split_at(body_words(rows, columns));
        body(out, at, kind, words);
        at += 8 * words.len();
        left = rest;
    }
}

pub(crate) fn bundle(out: &mut [u8], entries: &Entries)
    requires { bytes_in entries.now ≤ length out.old }
    ensures { out.new ≡ encode (entries_in entries.now) ++ drop (length (encode (entries_in entries.now))) out.old }
{
    number(out, 0, 2, entries.kinds.len() as u64);
    contents(out, entries);
    bodies(out, entries);
}
