// Answers and lines as fixed byte strings and figures, written into a slice from `at` on; each tells the place behind.
#![tactic(auto)]

ghost use Rattle.std.specs.Prelude.{◌++◌, ◌+◌, ◌≤◌, length, ◌≡◌};
ghost use Rattle.model.specs.Text.{text, decimal};
ghost use Rattle.model.specs.PartitionText.{put_text};
ghost use Rattle.model.specs.Answers.{refused};
ghost use Rattle.model.specs.Session.{answer_text};
ghost use Rattle.answers.specs.Told.{written, answered, refusing};
ghost use Rattle.printer.specs.Puts.{Puts, room};

use answers::{Answer, Refusal};

fn write_text(out: &mut [u8], at: usize, bytes: &[u8]) -> usize
    requires { at + length bytes.now ≤ length out.old }
    ensures { Puts bytes.now at out.old result out.new }
{
    for i in 0..bytes.len() {
        out[at + i] = bytes[i];
    }
    at + bytes.len()
}

// How many figures n has: one more than its logarithm, and 0 has one too.
#[tactic(auto, using(crate::proofs::Figures::length_log))]
fn decimal_length(n: u64) -> usize
    ensures { result ≡ length (decimal n) }
{
    n.checked_ilog10().unwrap_or(0) as usize + 1
}

#[tactic(auto, using(crate::proofs::Figures::decimal_std))]
fn write_decimal(out: &mut [u8], at: usize, n: u64) -> usize
    requires { at + length (decimal n) ≤ length out.old }
    ensures { Puts (decimal n) at out.old result out.new }
{
    let end = at + decimal_length(n);
    itoa::write_digits(n, out, end);
    end
}

// A text, a number, and the end of the answer.
fn write_one(out: &mut [u8], at: usize, head: &[u8], n: u64) -> usize
    requires { at + length head.now + length (decimal n) + 2 ≤ length out.old }
    ensures { Puts (head.now ++ decimal n ++ text ")\n") at out.old result out.new }
{
    let next = write_text(out, at, head);
    let next = write_decimal(out, next, n);
    write_text(out, next, b")\n")
}

fn write_two(out: &mut [u8], at: usize, head: &[u8], a: u64, b: u64) -> usize
    requires { at + length head.now + length (decimal a) + length (decimal b) + 3 ≤ length out.old }
    ensures { Puts (head.now ++ decimal a ++ text " " ++ decimal b ++ text ")\n") at out.old result out.new }
{
    let next = write_text(out, at, head);
    let next = write_decimal(out, next, a);
    write_one(out, next, b" ", b)
}

fn write_three(out: &mut [u8], at: usize, head: &[u8], a: u64, b: u64, c: u64) -> usize
    requires { at + length head.now + length (decimal a) + length (decimal b) + length (decimal c) + 4 ≤ length out.old }
    ensures { Puts (head.now ++ decimal a ++ text " " ++ decimal b ++ text " " ++ decimal c ++ text ")\n") at out.old result out.new }
{
    let next = write_text(out, at, head);
    let next = write_decimal(out, next, a);
    write_two(out, next, b" ", b, c)
}

// A refusal by its numbers, whichever they are; those of answers are the documents'.
pub fn write_refused(out: &mut [u8], at: usize, number: u32, reads: u32) -> usize
    requires { at + room ≤ length out.old }
    ensures { Puts (answer_text (refused number reads)) at out.old result out.new }
{
    write_two(out, at, b"(refused ", number as u64, reads as u64)
}

fn write_refusal(out: &mut [u8], at: usize, refusal: Refusal) -> usize
    requires { at + room ≤ length out.old }
    ensures { Puts (answer_text (refusing refusal)) at out.old result out.new }
{
    write_refused(out, at, refusal.reason.number(), refusal.reads)
}

pub fn write_written(out: &mut [u8], at: usize, answer: Result<u32, Refusal>) -> usize
    requires { at + room ≤ length out.old }
    ensures { Puts (answer_text (written answer)) at out.old result out.new }
{
    match answer {
        Ok(pages) => write_one(out, at, b"(ok ", pages as u64),
        Err(refusal) => write_refusal(out, at, refusal),
    }
}

pub fn write_answer(out: &mut [u8], at: usize, answer: Result<Answer, Refusal>) -> usize
    requires { at + room ≤ length out.old }
    ensures { Puts (answer_text (answered answer)) at out.old result out.new }
{
    match answer {
        Ok(Answer::Found(hit)) => {
            let tally = hit.tally;
            write_three(
                out,
                at,
                b"(found ",
                hit.value,
                tally.reads as u64,
                tally.comparisons as u64,
            )
        }
        Ok(Answer::Absent(tally)) => write_two(
            out,
            at,
            b"(none ",
            tally.reads as u64,
            tally.comparisons as u64,
        ),
        Err(refusal) => write_refusal(out, at, refusal),
    }
}

pub fn write_bad(out: &mut [u8], at: usize) -> usize
    requires { at + room ≤ length out.old }
    ensures { Puts (text "(bad)\n") at out.old result out.new }
{
    write_text(out, at, b"(bad)\n")
}

// The bytes of a line of `write_put`.
#[tactic(auto, using(crate::proofs::Printing::line_length))]
pub fn put_length(key: u64, value: u64) -> usize
    ensures { result ≡ length (put_text key value) }
{
    8 + decimal_length(key) + decimal_length(value)
}

// The line that puts the key, with its byte 10.
pub fn write_put(out: &mut [u8], at: usize, key: u64, value: u64) -> usize
    requires { at + length (put_text key value) ≤ length out.old }
    ensures { Puts (put_text key value) at out.old result out.new }
{
    write_two(out, at, b"(put ", key, value)
}
