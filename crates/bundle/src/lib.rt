#![tactic(auto)]
// A bundle of matrices as bytes: contents first, then bodies. Reading it, an entry's numbers, an entry's words.
mod body;
pub mod ruled;

ghost use Rattle.std.specs.Prelude.{◌≡◌};
ghost use Rattle.bundle.specs.Bundle.{both_kinds, meaning};
ghost use Rattle.bundle.specs.Answers.{counted_in, find, told_of, lent_entry, unpacked_of};

use refusals::Refusal;

// kind, rows and columns of an entry, as the contents have them
#[derive(Clone, Copy, Debug, PartialEq, Eq)]
pub struct Numbers {
    pub kind: u16,
    pub rows: u16,
    pub columns: u16,
}

// how many entries a bundle has
pub fn read(bytes: &[u8]) -> Result<usize, Refusal>
    ensures { result ≡ counted_in (meaning both_kinds bytes.now) }
{
    ruled::read(Ok(()), bytes)
}

// kind, rows and columns of entry i
pub fn entry(bytes: &[u8], i: usize) -> Result<Numbers, Refusal>
    ensures { result ≡ told_of (find i (meaning both_kinds bytes.now)) }
{
    ruled::entry(Ok(()), bytes, i)
}

// the words of entry i, in the order of kind 1 whatever its own; and its three numbers, the kind as it is stored
pub fn unpack(bytes: &[u8], i: usize, words: &mut [u64]) -> Result<Numbers, Refusal>
    ensures { (result ≡ told_of (lent_entry both_kinds i bytes.now words.old)) × (words.new ≡ unpacked_of (lent_entry both_kinds i bytes.now words.old) words.old) }
{
    ruled::unpack(Ok(()), bytes, i, words)
}
