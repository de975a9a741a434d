// The session program: forms from standard input, one a line, over two areas of 32,768 zero bytes; answers to standard output.
#![tactic(auto)]

ghost use Rattle.std.specs.Prelude.{◌≡◌, ◌≤◌, ◌<◌, length};
ghost use Rattle.model.specs.Session.{zero_area, program_areas};
ghost use Rattle.answers.specs.Performs.{areas};
ghost use Rattle.lines.specs.Lines.{longest};
ghost use Rattle.printer.specs.Puts.{room};
ghost use Rattle.relay_session.specs.Session.{IsSession};

use held::{Rest, hold, read_behind};
use pieces::run_piece;
use std::io::Read;

// One of the two areas.
fn area() -> [u8; 32768]
    ensures value { 32768 ≡ length result }
    ensures value_2 { result ≡ zero_area }
{
    [0; 32768]
}

// Nothing says that input ends, so there are as many turns as no run uses up. The two buffers are fixed, each with how far it is filled beside it: the program has no heap.
fn run(
    stdin: &mut impl Read,
    stdout: &impl Print,
    memory: &mut [u8],
    flash: &mut [u8],
    input: &mut [u8],
    out: &mut [u8],
)
    requires memory_value { memory.old ≡ zero_area }
    requires flash_value { flash.old ≡ zero_area }
    requires longest_in_bounds { longest < length input.old }
    requires room_in_bounds { room ≤ length out.old }
    ensures { IsSession program_areas (areas memory.new flash.new) }
{
    let mut rest = Rest { at: 0, end: 0 };
    for _ in 0..u64::MAX {
        let held = hold(input, rest);
        let read = read_behind(stdin, input, held);
        let Ok(Some(next)) = run_piece(stdout, memory, flash, input, held, read, out) else {
            return;
        };
        rest = next;
    }
}

fn main(rt: HostRuntime) {
    let mut memory = area();
    let mut flash = area();
    let mut input = io::large_buffer();
    let mut out = io::large_buffer();
    run(
        &mut rt.stdin(),
        &rt,
        &mut memory,
        &mut flash,
        &mut input,
        &mut out,
    );
}
