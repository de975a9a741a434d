// The unfinished line that a session holds between two reads; and a read behind it.
#![tactic(auto)]

ghost use Rattle.std.specs.Prelude.{◌≡◌, ◌-◌, ◌<◌, length, take, drop};
ghost use Rattle.std.specs.Io.KnownBytes.{ReadConsumes};
ghost use Rattle.held.specs.Held.{Held, AtStart, Within};

use std::io;
use std::io::Read;

// The unfinished line that is held between two reads: input[at..end].
#[derive(Clone, Copy)]
pub struct Rest {
    pub at: usize,
    pub end: usize,
}

// Moves the unfinished line to the start of the buffer; tells how many bytes are held there.
pub fn hold(input: &mut [u8], rest: Rest) -> usize
    requires { Held rest input.old }
    ensures { AtStart result rest input.old input.new }
{
    let end = rest.end;
    lines::keep_rest(&mut input[..end], rest.at)
}

// Reads once, behind the bytes that are held; tells how many bytes came, 0 at the end of input.
pub fn read_behind<R: Read>(stdin: &mut R, input: &mut [u8], held: usize) -> io::Result<usize>
    requires { held < length input.old }
    ensures stays { take held input.new ≡ take held input.old }
    ensures within { Within result (length input.old - held) }
    ensures bytes { ReadConsumes (R.remaining stdin.old) (R.remaining stdin.new) result (drop held input.new) }
{
    stdin.read(&mut input[held..])
}
