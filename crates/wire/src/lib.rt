#![tactic(auto)]
// The order of bits that a kind gives a word. A kind is a number as a bundle stores it, and what is promised holds for every number: kind 2 has its own order, all others that of kind 1.
ghost use Rattle.std.specs.Prelude.{◌≡◌, not, ◌+◌, ◌*◌, ◌/◌, ◌^◌, ◌≤◌, eqb};
ghost use Rattle.wire.specs.Kinds.{reversed, order};
ghost use Rattle.wire.specs.Swaps.{swap_pairs, mask_of};

// neighbours of s bits change places; m has the lower half of each pair
#[tactic(auto, using(crate::proofs::Reversal::stage_is, crate::proofs::Reversal::stage_fits))]
fn swap_pairs(x: u64, m: u64, s: u32) -> u64
    requires { (m ≡ mask_of (32 / s) s) × (32 / s * (s + s) ≡ 64) × (s ≤ 32) }
    ensures { result ≡ swap_pairs (32 / s) s x }
{
    ((x & m) << s) + ((x >> s) & m)
}

// the 64 bits of a word in reverse; the library's `reverse_bits` goes bit by bit, which is some forty times slower
#[tactic(auto, using(crate::proofs::Reversal::six), unfolding(crate::specs::Swaps::mask_of))]
fn reverse(x: u64) -> u64
    ensures { result ≡ reversed 64 x }
{
    let a = swap_pairs(x, 0x5555555555555555, 1);
    let b = swap_pairs(a, 0x3333333333333333, 2);
    let c = swap_pairs(b, 0x0f0f0f0f0f0f0f0f, 4);
    let d = swap_pairs(c, 0x00ff00ff00ff00ff, 8);
    let e = swap_pairs(d, 0x0000ffff0000ffff, 16);
    swap_pairs(e, 0x00000000ffffffff, 32)
}

// whether a word of a kind has a one past its first s columns
#[tactic(auto, using(crate::proofs::Orders::past_none, crate::proofs::Orders::past_two, crate::proofs::Orders::past_one))]
pub fn past(kind: usize, x: u64, s: usize) -> bool
    ensures { result ≡ not (eqb (order kind x / 2 ^ s) 0) }
{
    if s >= 64 {
        return false;
    }
    if kind == 2 { x << s != 0 } else { x >> s != 0 }
}

// a word of a kind in the order of kind 1, and back
#[tactic(auto, using(crate::proofs::Orders::order_two, crate::proofs::Orders::order_one))]
pub fn ordered(kind: usize, x: u64) -> u64
    ensures { result ≡ order kind x }
{
    if kind == 2 { reverse(x) } else { x }
}
