// The ends of lines: where a line ends, and what is kept of one that has not ended.
#![tactic(auto)]

ghost use Rattle.std.specs.Prelude.{◌≤◌, length, take, drop};
ghost use Rattle.printer.specs.Puts.{Puts};
ghost use Rattle.lines.specs.Lines.{longest, LineEnd, Unended, Same};

// No form has more than 138 bytes.
const LINE: usize = 256;

// The place of the next byte 10, or the end of the input.
pub fn line_end(input: &[u8], from: usize) -> usize
    requires { from ≤ length input.now }
    ensures { LineEnd input.now from result }
{
    match input[from..].iter().position(|byte| *byte == b'\n') {
        Some(n) => from + n,
        None => input.len(),
    }
}

// The unfinished line input[from..] moves to the start; tells its length there. A line longer than any form is cut: it stays bad, whatever follows.
pub fn keep_rest(input: &mut [u8], from: usize) -> usize
    ensures puts { Puts (take longest (drop from input.old)) 0 input.old result input.new }
    ensures same { Unended from input.old → Same (drop from input.old) (take result input.new) }
{
    if input.len() <= from {
        return 0;
    }
    let n = (input.len() - from).min(LINE);
    words::move_down(input, 0, from, n);
    n
}
