#![tactic(auto)]
// Tries the library's calls on worked examples, and on drawn matrices against a plain reduction; writes how many tries went wrong: none should.
use draw::Drawn::{Any, Packets, Square};
use examples::full_windows;

mod buffer;
mod calls;
mod draw;
mod examples;
mod judge;
mod plain;
mod tries;

// makes so many tries, and says how many went wrong; where the output fails, the tries go on all the same
fn say<F: Fn(usize) -> bool>(name: &[u8], tries: usize, right: F)
    requires { F.IsAlwaysCallable right }
{
    let wrong = (0..tries).filter(|&t| !right(t)).count();
    io::write_all(1, name);
    io::print_decimal(1, tries as u64);
    io::write_all(1, b" wrong ");
    io::print_decimal(1, wrong as u64);
    io::write_all(1, b"\n");
}

// in most t chooses k
fn examples_tried() {
    say(b"limits ", 5, examples::limits);
    say(b"padding ", 128, examples::padding);
    say(b"full windows ", 8, |t| full_windows(64, 64, t % 8 + 1));
    say(b"one window ", 9, |t| full_windows(t, 8, 8));
    say(b"no rows ", 8, |t| examples::empty(t % 8 + 1));
    say(b"1,023 blocks ", 8, |t| examples::wide(t % 8 + 1));
}

fn drawn_tried() {
    say(b"reductions ", 192, |t| tries::reduced(Any.case(t)));
    say(b"inverses ", 96, |t| tries::inverted(Square.case(t)));
    say(b"solutions ", 128, |t| tries::solved(Packets.case(t)));
    say(b"contradictions ", 128, |t| tries::named(Packets.case(t)));
}

fn main() {
    examples_tried();
    drawn_tried();
}
