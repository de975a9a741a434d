// What the cases print: numbers and answers, each behind a space.
use answers::{Answer, Refusal, Viewed};
use model::Geometry;

pub fn text(rt: &impl Print, bytes: &[u8]) {
    let _ = rt.write_all(bytes);
}

pub fn number(rt: &impl Print, n: u64) {
    let _ = print!(rt; " {n}");
}

// The memory and the flash that a geometry needs.
pub fn needs(rt: &impl Print, g: Geometry) {
    if geometry::is_allowed(g) {
        number(rt, geometry::memory_need(g) as u64);
        number(rt, geometry::flash_need(g) as u64);
    }
}

// The entries that fit a page.
pub fn entries(rt: &impl Print, g: Geometry) {
    if geometry::is_allowed(g) {
        number(rt, geometry::page_capacity(g) as u64);
    }
}

// A key mixed, in hex.
pub fn mixed(rt: &impl Print, key: u64) {
    let x = keys::mix(key);
    let _ = print!(rt; " {x:x}");
}

// The places of the bits that are set.
pub fn bits(rt: &impl Print, filter: u64) {
    for b in 0..64u64 {
        if (filter >> b) % 2 == 1 {
            number(rt, b);
        }
    }
}

// An answer as the session prints it, without the byte that ends its line. The line is an array, cut where the answer ends: the program has no heap.
pub fn written(rt: &impl Print, answer: Result<u32, Refusal>) {
    let mut line = [0u8; 72];
    let end = printer::write_written(&mut line, 0, answer) - 1;
    text(rt, b" ");
    text(rt, &line[..end]);
}

pub fn answer(rt: &impl Print, answer: Result<Answer, Refusal>) {
    let mut line = [0u8; 72];
    let end = printer::write_answer(&mut line, 0, answer) - 1;
    text(rt, b" ");
    text(rt, &line[..end]);
}

fn pair(rt: &impl Print, word: &[u8], a: u64, b: u64) {
    text(rt, word);
    number(rt, a);
    number(rt, b);
    text(rt, b")");
}

// The area that a viewed page is in, where it begins there and its bytes; or the refusal.
pub fn outcome(rt: &impl Print, viewed: Result<Viewed, Refusal>) {
    match viewed {
        Ok(Viewed::Memory(at, size)) => pair(rt, b" (memory", at as u64, size as u64),
        Ok(Viewed::Flash(at, size)) => pair(rt, b" (flash", at as u64, size as u64),
        Err(r) => pair(rt, b" (refused", r.reason.number() as u64, r.reads as u64),
    }
}

// A byte in hex, behind a space where a page's head or an entry begins.
fn byte(rt: &impl Print, at: usize, b: u8) {
    if at % 16 == 0 {
        text(rt, b" ");
    }
    let _ = print!(rt; "{b:02x}");
}

// The length of what a view shows and, of a page, the head and the first entry.
pub fn page(rt: &impl Print, shown: &[u8]) {
    number(rt, shown.len() as u64);
    for (i, b) in shown.iter().take(32).enumerate() {
        byte(rt, i, *b);
    }
}
