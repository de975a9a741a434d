// A line applied to two areas: the call that it says, and the text of its answer.
#![tactic(auto)]

ghost use Rattle.std.specs.Prelude.{◌+◌, ◌≤◌, length};
ghost use Rattle.answers.specs.Performs.{areas};
ghost use Rattle.printer.specs.Puts.{room};
ghost use Rattle.applying.specs.Applies.{Applies};

use printer::{write_answer, write_bad, write_written};
use reader::Form;

// One line, without the byte that ends it; its answer goes to `out` from `at` on. Tells the place behind it.
pub fn perform(memory: &mut [u8], flash: &mut [u8], line: &[u8], out: &mut [u8], at: usize) -> usize
    requires { at + room ≤ length out.old }
    ensures { Applies line.now (areas memory.old flash.old) at out.old result out.new (areas memory.new flash.new) }
{
    let Some(form) = reader::read_line(line) else {
        return write_bad(out, at);
    };
    match form {
        Form::Format(g) => write_written(out, at, index::format(memory, flash, g)),
        Form::Put(key, value) => write_written(out, at, index::put(memory, flash, key, value)),
        Form::Get(key) => write_answer(out, at, index::get(memory, flash, key)),
        Form::Del(key) => write_written(out, at, index::del(memory, flash, key)),
        Form::Flush(partition) => write_written(out, at, index::flush(memory, flash, partition)),
        Form::Count(partition) => write_written(out, at, index::count(memory, flash, partition)),
        Form::Drop(partition) => write_written(out, at, index::drop(memory, flash, partition)),
    }
}
