// A byte for each row: the columns of one window.
ghost use Rattle.std.specs.Prelude.{ℕ, ◌≤◌, ◌<◌, length, get_or};
ghost use Rattle.engine.specs.Stage.{Union, FirstOne, Swept, PivotsNear, Gathered};

// the first place from `from` on where bit x is one. Apart, so that the loop counts nothing else
#[inline(never)]
#[tactic(auto, using(crate::proofs::ByteLaws::is_set, crate::proofs::ByteLaws::is_clear))]
pub(crate) fn find(o: &[u8], x: usize, from: usize) -> Option<usize>
    requires { (x < 8) × (from ≤ length o.now) }
    ensures { FirstOne o.now x from result }
{
    let one = 1u8 << x;
    for i in from..o.len() {
        if o[i] & one != 0 {
            return Some(i);
        }
    }
    None
}

// bit x is cleared by b in each byte; answers their union
pub(crate) fn sweep(o: &mut [u8], x: usize, b: u8) -> u8
    requires { x < 8 }
    ensures { Swept x b o.old o.new × Union (length o.new) 0 o.new result }
{
    let one = 1u8 << x;
    let mut union = 0;
    for v in o.iter_mut() {
        *v = if *v & one == 0 { *v } else { *v ^ b };
        union |= *v;
    }
    union
}

// the number that bits of x name, pivot by pivot: those of the pivots' columns, counted from c
fn gather(x: u8, pivots: &[u16], c: usize) -> u8
    requires { PivotsNear c pivots.now }
    ensures { Gathered c (length pivots.now) pivots.now x result }
{
    let mut y = 0;
    for (b, pivot) in pivots.iter().enumerate() {
        let q = usize::from(*pivot) - c;
        y |= ((x >> q) % 2) << b;
    }
    y
}

// each byte becomes the number that it names
pub(crate) fn gather_all(o: &mut [u8], pivots: &[u16], c: usize)
    requires { PivotsNear c pivots.now }
    ensures { (i : ℕ) → i < length o.old → Gathered c (length pivots.now) pivots.now (get_or o.old i 0) (get_or o.new i 0) }
{
    for x in o.iter_mut() {
        *x = gather(*x, pivots, c);
    }
}
