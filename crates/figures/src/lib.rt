// Fixed texts and decimal figures in a line. A place may lie past the line's end: nothing stands there.
#![tactic(auto)]

ghost use Rattle.std.specs.Prelude.{◌≡◌, ◌+◌, drop};
ghost use Rattle.model.specs.Text.{past, leading, is_plain, figure};
ghost use Rattle.model.specs.Session.{narrow};
ghost use Rattle.figures.specs.Places.{figure_at, behind_in, number_in, figure_past};

// The place behind `text`, where that stands in the line from `at` on.
pub fn text_past(line: &[u8], at: usize, text: &[u8]) -> Option<usize>
    ensures { behind_in line.now result ≡ past text.now (drop at line.now) }
{
    let rest = line.get(at..).unwrap_or(b"");
    if rest.starts_with(text) {
        Some(at + text.len())
    } else {
        None
    }
}

// Does a figure stand at `i`?
#[tactic(auto, unfolding(crate::specs::Places::figure_at))]
fn is_figure(line: &[u8], i: usize) -> bool
    ensures { result ≡ figure_at line.now i }
{
    line.get(i).is_some_and(|c| c.is_ascii_digit())
}

// Some figures from `at` on, and no leading zero?
fn is_plain(line: &[u8], at: usize) -> bool
    ensures { result ≡ is_plain (leading (drop at line.now)) }
{
    if !is_figure(line, at) {
        return false;
    }
    if line[at] != b'0' {
        return true;
    }
    !is_figure(line, at + 1)
}

// The number of at most `most` that stands in the line from `at` on: figures without a leading zero. No iterator over the figures: the place behind the last of them is told too.
fn number_at(line: &[u8], at: usize, most: u64) -> Option<(u64, usize)>
    ensures { number_in line.now result ≡ figure (most + 1) (drop at line.now) }
{
    if !is_plain(line, at) {
        return None;
    }
    let mut n: u64 = 0;
    let mut i = at;
    while is_figure(line, i) {
        let d = u64::from(line[i] - b'0');
        // 10 n + d is made only where it is at most `most`.
        if most / 10 < n {
            return None;
        }
        if most - 10 * n < d {
            return None;
        }
        n = 10 * n + d;
        i += 1;
    }
    Some((n, i))
}

// The number behind a fixed text.
pub fn number_past(line: &[u8], at: usize, text: &[u8], most: u64) -> Option<(u64, usize)>
    ensures { number_in line.now result ≡ figure_past text.now (most + 1) (drop at line.now) }
{
    number_at(line, text_past(line, at, text)?, most)
}

// The number below 2^32 behind a fixed text.
pub fn narrow_past(line: &[u8], at: usize, text: &[u8]) -> Option<(u32, usize)>
    ensures { number_in line.now result ≡ figure_past text.now narrow (drop at line.now) }
{
    let (n, next) = number_past(line, at, text, 4294967295)?;
    Some((n as u32, next))
}
