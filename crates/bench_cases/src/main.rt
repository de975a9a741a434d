// The ten bench cases of document 01, run on the proved crates: a line each, with what the paper says of the case. Then a line of views.
#![tactic(auto)]

mod say;

use model::Geometry;

// Where the first partition's count of listed keys and its first filter are in a table of G.
const LISTED: usize = 36;

const FILTER: usize = 64;

// No `From`: neither type is of this crate.
fn of_numbers(n: [u32; 7]) -> Geometry {
    Geometry {
        parts: n[0],
        page: n[1],
        pages: n[2],
        kept: n[3],
        bits: n[4],
        hashes: n[5],
        list: n[6],
    }
}

// The session's geometry with some of its numbers changed.
fn like_g(page: u32, pages: u32, kept: u32, hashes: u32) -> Geometry {
    of_numbers([0, page, pages, kept, 64, hashes, 1])
}

fn g() -> Geometry {
    like_g(64, 1, 2, 3)
}

fn largest() -> Geometry {
    of_numbers([8, 4096, 64, 32, 65536, 8, 1024])
}

// G's needs; one byte less of memory, and of flash.
fn case_1(rt: &impl Print) {
    say::needs(rt, g());
    say::written(rt, index::format(&mut [0u8; 143], &[0u8; 128], g()));
    say::written(rt, index::format(&mut [0u8; 144], &[0u8; 127], g()));
}

fn case_2(rt: &impl Print) {
    say::needs(rt, largest());
}

fn case_3(rt: &impl Print) {
    say::mixed(rt, 1);
    say::mixed(rt, 2);
    say::mixed(rt, 0);
}

// The bits of a key are those that the filter of a batch of this key alone has.
fn bits_of(rt: &impl Print, key: u64) {
    let mut memory = [0u8; 144];
    let mut flash = [0u8; 128];
    let _ = index::format(&mut memory, &flash, g());
    let _ = index::put(&mut memory, &mut flash, key, 10);
    let _ = index::flush(&mut memory, &mut flash, 0);
    say::bits(rt, words::u64_at(&memory, FILTER));
}

fn case_4(rt: &impl Print) {
    bits_of(rt, 0);
    say::text(rt, b",");
    bits_of(rt, 1);
    say::text(rt, b",");
    bits_of(rt, 2);
}

// A batch of keys 0 and 2 passes key 1.
fn case_5(rt: &impl Print) {
    let mut memory = [0u8; 144];
    let mut flash = [0u8; 128];
    say::written(rt, index::format(&mut memory, &flash, g()));
    say::written(rt, index::put(&mut memory, &mut flash, 0, 10));
    say::written(rt, index::put(&mut memory, &mut flash, 2, 20));
    say::written(rt, index::flush(&mut memory, &mut flash, 0));
    say::answer(rt, index::get(&memory, &flash, 1));
}

// Three keys fill the page; a repeat of the third doesn't flush, the fourth does.
fn case_6(rt: &impl Print) {
    let mut memory = [0u8; 144];
    let mut flash = [0u8; 128];
    say::written(rt, index::format(&mut memory, &flash, g()));
    say::written(rt, index::put(&mut memory, &mut flash, 1, 10));
    say::written(rt, index::put(&mut memory, &mut flash, 2, 20));
    say::written(rt, index::put(&mut memory, &mut flash, 3, 30));
    say::written(rt, index::put(&mut memory, &mut flash, 3, 31));
    say::written(rt, index::put(&mut memory, &mut flash, 4, 40));
    say::answer(rt, index::get(&memory, &flash, 3));
}

// A put of some key and a flush.
fn batch(rt: &impl Print, memory: &mut [u8], flash: &mut [u8], key: u64) {
    say::written(rt, index::put(memory, flash, key, 10));
    say::written(rt, index::flush(memory, flash, 0));
}

// Two flushes after its put a key is found; after three it is none.
fn case_7(rt: &impl Print) {
    let mut memory = [0u8; 144];
    let mut flash = [0u8; 128];
    say::written(rt, index::format(&mut memory, &flash, g()));
    batch(rt, &mut memory, &mut flash, 1);
    batch(rt, &mut memory, &mut flash, 20);
    say::answer(rt, index::get(&memory, &flash, 1));
    batch(rt, &mut memory, &mut flash, 40);
    say::answer(rt, index::get(&memory, &flash, 1));
}

// A del of an absent key in a fresh table, and the keys listed then.
fn case_8(rt: &impl Print) {
    let mut memory = [0u8; 144];
    let flash = [0u8; 128];
    say::written(rt, index::format(&mut memory, &flash, g()));
    say::written(rt, index::del(&mut memory, &flash, 7));
    say::number(rt, words::u32_at(&memory, LISTED) as u64);
}

fn case_9(rt: &impl Print) {
    say::entries(rt, like_g(64, 1, 2, 3));
    say::entries(rt, like_g(4096, 1, 2, 3));
}

fn refused(rt: &impl Print, g: Geometry) {
    say::written(rt, index::format(&mut [0u8; 32768], &[0u8; 32768], g));
}

// Geometries outside the table; a get in an untouched program area.
fn case_10(rt: &impl Print) {
    refused(rt, like_g(64, 1, 0, 3));
    refused(rt, like_g(64, 1, 33, 3));
    refused(rt, like_g(64, 1, 2, 9));
    refused(rt, like_g(64, 3, 2, 3));
    say::answer(rt, index::get(&[0u8; 32768], &[0u8; 32768], 1));
}

// Where the first page of this flush number is, and the page itself. One lifetime for both areas: the prover covers no meet of two.
fn view<'a>(rt: &impl Print, memory: &'a [u8], flash: &'a [u8], flush: u32) {
    say::outcome(rt, index::view_outcome(memory, flash, 0, 0, flush));
    say::page(rt, index::view(memory, flash, 0, 0, flush));
}

// A key's page in the buffer and, after a flush, in flash; the page of a batch that is not there.
fn views(rt: &impl Print) {
    let mut memory = [0u8; 144];
    let mut flash = [0u8; 128];
    let _ = index::format(&mut memory, &flash, g());
    let _ = index::put(&mut memory, &mut flash, 1, 10);
    view(rt, &memory, &flash, 0);
    let _ = index::flush(&mut memory, &mut flash, 0);
    view(rt, &memory, &flash, 1);
    view(rt, &memory, &flash, 9);
}

fn main(rt: HostRuntime) {
    let rt = &rt;
    say::text(rt, b"case 1:");
    case_1(rt);
    say::text(rt, b"\ncase 2:");
    case_2(rt);
    say::text(rt, b"\ncase 3:");
    case_3(rt);
    say::text(rt, b"\ncase 4:");
    case_4(rt);
    say::text(rt, b"\ncase 5:");
    case_5(rt);
    say::text(rt, b"\ncase 6:");
    case_6(rt);
    say::text(rt, b"\ncase 7:");
    case_7(rt);
    say::text(rt, b"\ncase 8:");
    case_8(rt);
    say::text(rt, b"\ncase 9:");
    case_9(rt);
    say::text(rt, b"\ncase 10:");
    case_10(rt);
    say::text(rt, b"\nview:");
    views(rt);
    say::text(rt, b"\n");
}
