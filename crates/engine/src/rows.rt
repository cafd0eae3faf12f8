// Words by place, and rows of w words by number. Plain loops: where the compiler knows v and one side is a local row, it writes them out. With the
// slice's copy_from_slice in their place the reduction was slower by a fifth, and with its swap the search ran a twentieth more instructions.
ghost use Rattle.std.specs.Prelude.{◌≡◌, ◌≢◌, ◌+◌, ◌-◌, ◌*◌, ◌/◌, ◌^◌, ◌≤◌, ◌<◌, length, set, replicate};
ghost use Rattle.std.proofs.Math.Seq.{paste};
ghost use Rattle.gf2.specs.Rows.{bit, ◌⊕◌, row, part, swapped, pick};
ghost use Rattle.words.specs.Words.{value, rows_of, xors, window_bits};
ghost use Rattle.refusals.specs.Outcome.{Decides};
ghost use Rattle.engine.specs.Stage.{row_words, put_row, Now};

// v words from place b of s on are added to those from place a of d on
pub(crate) fn add_words(d: &mut [u64], a: usize, s: &[u64], b: usize, v: usize)
    requires { (a + v ≤ length d.old) × (b + v ≤ length s.now) }
    ensures { d.new ≡ paste d.old a (xors (part a v d.old) (part b v s.now)) v }
{
    for l in 0..v {
        d[a + l] ^= s[b + l];
    }
}

// row j of d is added to row i of d
fn add_within(d: &mut [u64], i: usize, j: usize, w: usize)
    requires { (i * w + w ≤ length d.old) × (j * w + w ≤ length d.old) × (i ≢ j) }
    ensures { d.new ≡ put_row d.old i w (xors (row_words i w d.old) (row_words j w d.old)) }
{
    let a = i * w;
    let b = j * w;
    for l in 0..w {
        d[a + l] ^= d[b + l];
    }
}

// v words from place a of d on become those from place b of s on
pub(crate) fn copy_words(d: &mut [u64], a: usize, s: &[u64], b: usize, v: usize)
    requires { (a + v ≤ length d.old) × (b + v ≤ length s.now) }
    ensures { d.new ≡ paste d.old a (part b v s.now) v }
{
    for l in 0..v {
        d[a + l] = s[b + l];
    }
}

// rows i and j of d, which are two, change places word by word
fn swap_rows(d: &mut [u64], i: usize, j: usize, w: usize)
    requires { (i * w + w ≤ length d.old) × (j * w + w ≤ length d.old) × (i ≢ j) }
    ensures { d.new ≡ put_row (put_row d.old i w (row_words j w d.old)) j w (row_words i w d.old) }
{
    let a = i * w;
    let b = j * w;
    for l in 0..w {
        let x = d[a + l];
        d[a + l] = d[b + l];
        d[b + l] = x;
    }
}

// len words from place a on become zero
pub(crate) fn zero(d: &mut [u64], a: usize, len: usize)
    requires { a + len ≤ length d.old }
    ensures { d.new ≡ paste d.old a (replicate len 0) len }
{
    d[a..a + len].fill(0);
}

// the k lowest bits
fn mask(k: usize) -> u64
    requires { k ≤ 8 }
    ensures { result ≡ 2 ^ k - 1 }
{
    (1u64 << k) - 1
}

// the k bits of row i from column c on, as a number: one word or two are read
pub(crate) fn bits(m: &[u64], w: usize, i: usize, c: usize, k: usize) -> u64
    requires { (c + k ≤ w * 64) × (0 < k) × (k ≤ 8) × (i * w + w ≤ length m.now) }
    ensures { result ≡ window_bits c k (value (row_words i w m.now)) }
{
    let at = i * w + c / 64;
    let s = c % 64;
    let low = m[at] >> s;
    if s + k <= 64 {
        low & mask(k)
    } else {
        (low | (m[at + 1] << (64 - s))) & mask(k)
    }
}

// whether row i has a one in column c
fn is_one(m: &[u64], w: usize, i: usize, c: usize) -> bool
    requires { (c / 64 < w) × (i * w + w ≤ length m.now) }
    ensures { Decides result (bit c (value (row_words i w m.now)) ≡ 1) }
{
    (m[i * w + c / 64] >> (c % 64)) % 2 == 1
}

// row p is added to row i where that one has a one in column c
pub(crate) fn clear_row(m: &mut [u64], w: usize, n: usize, c: usize, p: usize, i: usize)
    requires { (n * w ≤ length m.old) × (c / 64 < w) × (p < n) × (i < n) × (i ≢ p) }
    ensures { Now w n m.old m.new (set (rows_of w n m.old) i (row (rows_of w n m.old) i ⊕ pick (bit c (row (rows_of w n m.old) i)) (row (rows_of w n m.old) p))) }
{
    if is_one(m, w, i, c) {
        add_within(m, i, p, w);
    }
}

// rows i and p change places
pub(crate) fn exchange(m: &mut [u64], w: usize, n: usize, i: usize, p: usize)
    requires { (n * w ≤ length m.old) × (i < n) × (p < n) }
    ensures { Now w n m.old m.new (swapped i p (rows_of w n m.old)) }
{
    if i != p {
        swap_rows(m, i, p, w);
    }
}
