// A line to its form: heads are compared with fixed byte strings, figures are read between them.
ghost use Rattle.std.specs.Prelude.{◌≡◌, drop};
ghost use Rattle.model.specs.Text.{past};
ghost use Rattle.model.specs.Session.{then, at_end, put_line, get_line, del_line, flush_line, count_line, drop_line, format_line, call_of};
ghost use Rattle.reader.specs.Forms.{form_call, said};

use crate::Form;
use figures::{narrow_past, number_past, text_past};
use model::Geometry;

// The form, where the line ends with `text` from `at` on.
fn ending(line: &[u8], at: usize, text: &[u8], form: Form) -> Option<Form>
    ensures { said result ≡ then (past text.now (drop at line.now)) (at_end (form_call form)) }
{
    let next = text_past(line, at, text)?;
    if next < line.len() {
        return None;
    }
    Some(form)
}

#[tactic(auto, unfolding(model::specs::Session::put_line))]
fn read_put(line: &[u8]) -> Option<Form>
    ensures { said result ≡ put_line line.now }
{
    let (key, at) = number_past(line, 0, b"(put ", u64::MAX)?;
    let (value, at) = number_past(line, at, b" ", u64::MAX)?;
    ending(line, at, b")", Form::Put(key, value))
}

#[tactic(auto, unfolding(model::specs::Session::get_line))]
fn read_get(line: &[u8]) -> Option<Form>
    ensures { said result ≡ get_line line.now }
{
    let (key, at) = number_past(line, 0, b"(get ", u64::MAX)?;
    ending(line, at, b")", Form::Get(key))
}

#[tactic(auto, unfolding(model::specs::Session::del_line))]
fn read_del(line: &[u8]) -> Option<Form>
    ensures { said result ≡ del_line line.now }
{
    let (key, at) = number_past(line, 0, b"(del ", u64::MAX)?;
    ending(line, at, b")", Form::Del(key))
}

#[tactic(auto, unfolding(model::specs::Session::flush_line))]
fn read_flush(line: &[u8]) -> Option<Form>
    ensures { said result ≡ flush_line line.now }
{
    let (partition, at) = narrow_past(line, 0, b"(flush ")?;
    ending(line, at, b")", Form::Flush(partition))
}

#[tactic(auto, unfolding(model::specs::Session::count_line))]
fn read_count(line: &[u8]) -> Option<Form>
    ensures { said result ≡ count_line line.now }
{
    let (partition, at) = narrow_past(line, 0, b"(count ")?;
    ending(line, at, b")", Form::Count(partition))
}

#[tactic(auto, unfolding(model::specs::Session::drop_line))]
fn read_drop(line: &[u8]) -> Option<Form>
    ensures { said result ≡ drop_line line.now }
{
    let (partition, at) = narrow_past(line, 0, b"(drop ")?;
    ending(line, at, b")", Form::Drop(partition))
}

#[tactic(auto, unfolding(model::specs::Session::format_line))]
fn read_format(line: &[u8]) -> Option<Form>
    ensures { said result ≡ format_line line.now }
{
    let (parts, at) = narrow_past(line, 0, b"(format (parts ")?;
    let (page, at) = narrow_past(line, at, b") (page ")?;
    let (pages, at) = narrow_past(line, at, b") (pages ")?;
    let (kept, at) = narrow_past(line, at, b") (kept ")?;
    let (bits, at) = narrow_past(line, at, b") (bits ")?;
    let (hashes, at) = narrow_past(line, at, b") (hashes ")?;
    let (list, at) = narrow_past(line, at, b") (list ")?;
    let geometry = Geometry {
        parts,
        page,
        pages,
        kept,
        bits,
        hashes,
        list,
    };
    ending(line, at, b"))", Form::Format(geometry))
}

// The form that a line says.
#[tactic(auto, unfolding(model::specs::Session::call_of))]
pub fn read_line(line: &[u8]) -> Option<Form>
    ensures { said result ≡ call_of line.now }
{
    read_put(line)
        .or_else(|| read_get(line))
        .or_else(|| read_del(line))
        .or_else(|| read_flush(line))
        .or_else(|| read_count(line))
        .or_else(|| read_drop(line))
        .or_else(|| read_format(line))
}
