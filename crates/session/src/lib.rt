// The session: one line, or all whole lines of a text, applied to two areas, with their answers as text.
#![tactic(auto)]

ghost use Rattle.std.specs.Prelude.{◌≡◌, ◌+◌, leb, length, take};
ghost use Rattle.answers.specs.Performs.{areas};
ghost use Rattle.printer.specs.Puts.{room};
ghost use Rattle.session.specs.Promises.{Applied, Ran, Takes};

use applying::perform;

// Room for one answer: none has more than 40 bytes.
const ROOM: usize = 72;

// How far a run came: bytes of its input, and bytes that it printed.
#[derive(Clone, Copy)]
pub struct Progress {
    pub taken: usize,
    pub printed: usize,
}

fn has_room(out: &[u8], at: usize) -> bool
    ensures { result ≡ leb (at + room) (length out.now) }
{
    out.len() >= ROOM && at <= out.len() - ROOM
}

// One line, without the byte that ends it; its answer goes to `out` from `at` on. Tells the place behind it; none where there is no room.
pub fn apply_line(
    memory: &mut [u8],
    flash: &mut [u8],
    line: &[u8],
    out: &mut [u8],
    at: usize,
) -> Option<usize>
    ensures { Applied result line.now (areas memory.old flash.old) at out.old out.new (areas memory.new flash.new) }
{
    if !has_room(out, at) {
        return None;
    }
    Some(perform(memory, flash, line, out, at))
}

// The whole lines that the input opens with, as far as `out` has room for their answers. No iterator over the lines: the room ends the run, and how far it came is told.
pub fn run_lines(memory: &mut [u8], flash: &mut [u8], input: &[u8], out: &mut [u8]) -> Progress
    ensures takes { Takes result.taken input.now (areas memory.old flash.old) result.printed out.old }
    ensures ran { Ran (take result.taken input.now) (areas memory.old flash.old) out.old result.printed out.new (areas memory.new flash.new) }
{
    let mut taken = 0;
    let mut printed = 0;
    while has_room(out, printed) {
        let end = lines::line_end(input, taken);
        if end == input.len() {
            break;
        }
        printed = perform(memory, flash, &input[taken..end], out, printed);
        taken = end + 1;
    }
    Progress { taken, printed }
}
