// A piece of input, run: its whole lines, or the last line, with their answers to standard output.
#![tactic(auto)]

ghost use Rattle.std.specs.Prelude.{◌-◌, ◌≤◌, length, take};
ghost use Rattle.answers.specs.Performs.{areas};
ghost use Rattle.lines.specs.Lines.{Unended};
ghost use Rattle.printer.specs.Puts.{room};
ghost use Rattle.held.specs.Held.{Within};
ghost use Rattle.pieces.specs.Pieces.{WentOn, RanLast, MadeOf};

use held::Rest;
use std::io;

// Runs the whole lines and writes their answers, again where the room for these ends early; tells where an unfinished line begins. No range counts the turns, since each takes as much as its answers have room for.
fn run_whole(
    stdout: &impl Print,
    memory: &mut [u8],
    flash: &mut [u8],
    input: &[u8],
    out: &mut [u8],
) -> io::Result<usize>
    requires { room ≤ length out.old }
    ensures { WentOn result input.now (areas memory.old flash.old) (areas memory.new flash.new) }
{
    let mut taken = 0;
    while taken < input.len() {
        let run = session::run_lines(memory, flash, &input[taken..], out);
        if run.taken == 0 {
            break;
        }
        let printed = run.printed;
        stdout.write_all(&out[..printed])?;
        taken += run.taken;
    }
    Ok(taken)
}

// A last line that the end of input ends.
fn run_last(stdout: &impl Print, memory: &mut [u8], flash: &mut [u8], line: &[u8], out: &mut [u8])
    requires room_in_bounds { room ≤ length out.old }
    requires unended { Unended 0 line.now }
    ensures { RanLast line.now (areas memory.old flash.old) out.old out.new (areas memory.new flash.new) }
{
    if line.is_empty() {
        return;
    }
    let Some(end) = session::apply_line(memory, flash, line, out, 0) else {
        return;
    };
    let _ = stdout.write_all(&out[..end]);
}

// Goes on from a read behind the bytes that are held; tells where the next unfinished line stands, or none at the end of input. An error is the read's, or a write's.
pub fn run_piece(
    stdout: &impl Print,
    memory: &mut [u8],
    flash: &mut [u8],
    input: &[u8],
    held: usize,
    read: io::Result<usize>,
    out: &mut [u8],
) -> io::Result<Option<Rest>>
    requires room_in_bounds { room ≤ length out.old }
    requires held_in_bounds { held ≤ length input.now }
    requires unended { Unended 0 (take held input.now) }
    requires within { Within read (length input.now - held) }
    ensures { MadeOf read result held input.now (areas memory.old flash.old) out.old out.new (areas memory.new flash.new) }
{
    let count = read?;
    if count == 0 {
        run_last(stdout, memory, flash, &input[..held], out);
        return Ok(None);
    }
    let end = held + count;
    let at = run_whole(stdout, memory, flash, &input[..end], out)?;
    Ok(Some(Rest { at, end }))
}
