// The table of all sums of a window's pivot rows, and the rows cleared by it.
// Row 0, the sum of no rows, is neither made nor read: a row whose number is 0 stays as it is.
ghost use Rattle.std.specs.Prelude.{◌≡◌, ℕ, ◌+◌, ◌-◌, ◌*◌, ◌^◌, ◌≤◌, ◌<◌, length, get_or, drop};
ghost use Rattle.std.specs.Int.Count.{count_trailing_zeros};
ghost use Rattle.std.proofs.Math.Seq.{paste};
ghost use Rattle.gf2.specs.Additions.{table_additions};
ghost use Rattle.gf2.specs.Rows.{row, part};
ghost use Rattle.words.specs.Words.{rows_of, xors};
ghost use Rattle.method.specs.Gray.{gray};
ghost use Rattle.engine.specs.Stage.{Sizes, Now, Within, spaced, Table, table_row, added, Applies, Applied};

use super::rows;

// the codebook, the reflected Gray code of 0 to 255: entry t is t ^ t / 2, as proofs/Codebook checks for all entries at once
static CODES: [u8; 256] = [
    0, 1, 3, 2, 6, 7, 5, 4, 12, 13, 15, 14, 10, 11, 9, 8, 24, 25, 27, 26, 30, 31, 29, 28, 20, 21,
    23, 22, 18, 19, 17, 16, 48, 49, 51, 50, 54, 55, 53, 52, 60, 61, 63, 62, 58, 59, 57, 56, 40, 41,
    43, 42, 46, 47, 45, 44, 36, 37, 39, 38, 34, 35, 33, 32, 96, 97, 99, 98, 102, 103, 101, 100,
    108, 109, 111, 110, 106, 107, 105, 104, 120, 121, 123, 122, 126, 127, 125, 124, 116, 117, 119,
    118, 114, 115, 113, 112, 80, 81, 83, 82, 86, 87, 85, 84, 92, 93, 95, 94, 90, 91, 89, 88, 72,
    73, 75, 74, 78, 79, 77, 76, 68, 69, 71, 70, 66, 67, 65, 64, 192, 193, 195, 194, 198, 199, 197,
    196, 204, 205, 207, 206, 202, 203, 201, 200, 216, 217, 219, 218, 222, 223, 221, 220, 212, 213,
    215, 214, 210, 211, 209, 208, 240, 241, 243, 242, 246, 247, 245, 244, 252, 253, 255, 254, 250,
    251, 249, 248, 232, 233, 235, 234, 238, 239, 237, 236, 228, 229, 231, 230, 226, 227, 225, 224,
    160, 161, 163, 162, 166, 167, 165, 164, 172, 173, 175, 174, 170, 171, 169, 168, 184, 185, 187,
    186, 190, 191, 189, 188, 180, 181, 183, 182, 178, 179, 177, 176, 144, 145, 147, 146, 150, 151,
    149, 148, 156, 157, 159, 158, 154, 155, 153, 152, 136, 137, 139, 138, 142, 143, 141, 140, 132,
    133, 135, 134, 130, 131, 129, 128,
];

// the code of t
fn code(t: usize) -> usize
    requires { t < 256 }
    ensures { result ≡ gray t }
{
    usize::from(CODES[t])
}

// which of the window's pivot rows is added at step t: the codes of t - 1 and t differ in that digit
fn joins(t: usize) -> usize
    requires { t < 256 }
    ensures { result ≡ count_trailing_zeros 64 t }
{
    t.trailing_zeros() as usize
}

// the number of sums of k rows
pub(crate) fn pow2(k: usize) -> usize
    requires { k ≤ 8 }
    ensures { result ≡ 2 ^ k }
{
    1 << k
}

// the pivot rows that a window has found: r rows from row base on, among n rows of w words
#[derive(Clone, Copy)]
pub(crate) struct Pivots {
    pub(crate) n: usize,
    pub(crate) w: usize,
    pub(crate) base: usize,
    pub(crate) r: usize,
}

// x, the sum of the step before, becomes that of step l and is stored
fn step<const V: usize>(t: &mut [u64], x: &mut [u64; V], m: &[u64], a: usize, l: usize, w: usize)
    requires { (l < 256) × (a + count_trailing_zeros 64 l * w + V ≤ length m.now) × (gray l * V + V ≤ length t.old) }
    ensures { (x.new ≡ xors x.old (part (a + count_trailing_zeros 64 l * w) V m.now)) × (t.new ≡ paste t.old (gray l * V) x.new V) }
{
    rows::add_words(x, 0, m, a + joins(l) * w, V);
    rows::copy_words(t, code(l) * V, x, 0, V);
}

// the table of the r rows of V words, w words apart, from place a of m on: in Gray code order, row j at place j * V. Answers the number of additions
fn make<const V: usize>(t: &mut [u64], m: &[u64], a: usize, r: usize, w: usize) -> usize
    requires { (r ≤ 8) × (V ≤ 16) × Within a w V r (length m.now) × (2 ^ r * V ≤ length t.old) }
    ensures { (result ≡ table_additions r) × Table r (spaced a w V r m.now) (row (rows_of V (2 ^ r) t.new)) × (drop (2 ^ r * V) t.new ≡ drop (2 ^ r * V) t.old) }
{
    let mut x = [0u64; V];
    let mut additions = 0;
    for l in 1..pow2(r) {
        step(t, &mut x, m, a, l, w);
        additions += 1;
    }
    additions
}

// V words from place b of t on are added to those from place a of m on, by way of a local row
fn clear_by<const V: usize>(m: &mut [u64], a: usize, t: &[u64], b: usize)
    requires { (V ≤ 16) × (a + V ≤ length m.old) × (b + V ≤ length t.now) }
    ensures { m.new ≡ paste m.old a (xors (part a V m.old) (part b V t.now)) V }
{
    let mut x = [0u64; V];
    rows::copy_words(&mut x, 0, t, b, V);
    rows::add_words(m, a, &x, 0, V);
}

// to the last V words of each row the table row is added whose number it has
fn clear<const V: usize>(m: &mut [u64], n: usize, t: &[u64], o: &[u8], w: usize)
    requires { Sizes w n (length m.old) × (V ≤ w) × (n ≤ length o.now) × ((i : ℕ) → i < n → get_or o.now i 0 * V + V ≤ length t.now) }
    ensures { Now w n m.old m.new (added (w - V) o.now (table_row V t.now) (rows_of w n m.old)) }
{
    for i in 0..n {
        let j = usize::from(o[i]);
        if j != 0 {
            clear_by::<V>(m, i * w + (w - V), t, j * V);
        }
    }
}

// makes the table of the last V words of the pivot rows and clears the rows by it; answers the additions
fn apply_width<const V: usize>(m: &mut [u64], t: &mut [u64], o: &[u8], s: Pivots) -> usize
    requires { Applies s.w V s.n s.base s.r m.old t.old o.now }
    ensures { Applied s.w s.n s.base s.r m.old t.old o.now m.new t.new result }
{
    let a = s.base * s.w + (s.w - V);
    let additions = make::<V>(t, m, a, s.r, s.w);
    clear::<V>(m, s.n, t, o, s.w);
    additions
}

// the same for every width: each is written out by the compiler, and all of them apart from the search, which is faster. The other words of the pivot rows are zero
#[inline(never)]
pub(crate) fn apply(m: &mut [u64], t: &mut [u64], o: &[u8], s: Pivots, v: usize) -> usize
    requires { (0 < v) × Applies s.w v s.n s.base s.r m.old t.old o.now }
    ensures { Applied s.w s.n s.base s.r m.old t.old o.now m.new t.new result }
{
    match v {
        1 => apply_width::<1>(m, t, o, s),
        2 => apply_width::<2>(m, t, o, s),
        3 => apply_width::<3>(m, t, o, s),
        4 => apply_width::<4>(m, t, o, s),
        5 => apply_width::<5>(m, t, o, s),
        6 => apply_width::<6>(m, t, o, s),
        7 => apply_width::<7>(m, t, o, s),
        8 => apply_width::<8>(m, t, o, s),
        9 => apply_width::<9>(m, t, o, s),
        10 => apply_width::<10>(m, t, o, s),
        11 => apply_width::<11>(m, t, o, s),
        12 => apply_width::<12>(m, t, o, s),
        13 => apply_width::<13>(m, t, o, s),
        14 => apply_width::<14>(m, t, o, s),
        15 => apply_width::<15>(m, t, o, s),
        16 => apply_width::<16>(m, t, o, s),
        _ => unreachable!(),
    }
}
