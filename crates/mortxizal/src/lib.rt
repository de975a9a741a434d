// The nine calls for C, a card's figures and the interface's own number: numbers, and areas as pointer and length. include/mortxizal.h declares them, and crates/mortxizal_c exports them.
#![tactic(auto)]

ghost use Rattle.std.specs.Prelude.{◌≡◌};
ghost use Rattle.model.specs.Geometry.{geometry};
ghost use Rattle.model.specs.Card.{figured};
ghost use Rattle.model.specs.Calls.{Call};
ghost use Rattle.exported.specs.Exported.{exported_card};
ghost use Rattle.mortxizal.specs.Exports.{Exports, ExportsText};

use exported::{MxAnswer, MxCard, of_answer, of_figures, of_text, of_viewed, of_written};
use model::Geometry;

// Rises with every change of a struct's layout or of a function's arguments; MX_INTERFACE of the header is the same number.
const INTERFACE: u32 = 8;

// Which interface this library has, for a program that was compiled with some header.
pub fn mx_interface() -> u32
    ensures { result ≡ 8 }
{
    INTERFACE
}

// The numbers of a table, which C hands over one by one.
fn numbers(s: u32, page: u32, pages: u32, kept: u32, bits: u32, hashes: u32, list: u32) -> Geometry
    ensures { result ≡ geometry s page pages kept bits hashes list }
{
    Geometry {
        parts: s,
        page,
        pages,
        kept,
        bits,
        hashes,
        list,
    }
}

pub fn mx_format(
    memory: &mut [u8],
    flash: &[u8],
    s: u32,
    page: u32,
    pages: u32,
    kept: u32,
    bits: u32,
    hashes: u32,
    list: u32,
) -> MxAnswer
    ensures { Exports (Call.format (geometry s page pages kept bits hashes list)) memory.old flash.now result memory.new flash.now }
{
    let g = numbers(s, page, pages, kept, bits, hashes, list);
    of_written(index::format(memory, flash, g))
}

pub fn mx_put(memory: &mut [u8], flash: &mut [u8], key: u64, value: u64) -> MxAnswer
    ensures { Exports (Call.put key value) memory.old flash.old result memory.new flash.new }
{
    of_written(index::put(memory, flash, key, value))
}

pub fn mx_get(memory: &[u8], flash: &[u8], key: u64) -> MxAnswer
    ensures { Exports (Call.get key) memory.now flash.now result memory.now flash.now }
{
    of_answer(index::get(memory, flash, key))
}

pub fn mx_del(memory: &mut [u8], flash: &[u8], key: u64) -> MxAnswer
    ensures { Exports (Call.del key) memory.old flash.now result memory.new flash.now }
{
    of_written(index::del(memory, flash, key))
}

pub fn mx_flush(memory: &mut [u8], flash: &mut [u8], partition: u32) -> MxAnswer
    ensures { Exports (Call.flush partition) memory.old flash.old result memory.new flash.new }
{
    of_written(index::flush(memory, flash, partition))
}

pub fn mx_view(memory: &[u8], flash: &[u8], partition: u32, page: u32, flush: u32) -> MxAnswer
    ensures { Exports (Call.view partition page flush) memory.now flash.now result memory.now flash.now }
{
    of_viewed(index::view_outcome(memory, flash, partition, page, flush))
}

pub fn mx_count(memory: &[u8], flash: &[u8], partition: u32) -> MxAnswer
    ensures { Exports (Call.count partition) memory.now flash.now result memory.now flash.now }
{
    of_written(index::count(memory, flash, partition))
}

pub fn mx_text<'a>(memory: &'a [u8], flash: &'a [u8], partition: u32, text: &mut [u8]) -> MxAnswer
    ensures { ExportsText partition memory.now flash.now text.old result text.new }
{
    of_text(index::text(memory, flash, partition, text))
}

pub fn mx_drop(memory: &mut [u8], flash: &[u8], partition: u32) -> MxAnswer
    ensures { Exports (Call.drop partition) memory.old flash.now result memory.new flash.now }
{
    of_written(index::drop(memory, flash, partition))
}

pub fn mx_figures(
    s: u32,
    page: u32,
    pages: u32,
    kept: u32,
    bits: u32,
    hashes: u32,
    list: u32,
    puts: u32,
) -> MxCard
    ensures { result ≡ exported_card (figured (geometry s page pages kept bits hashes list) puts) }
{
    let g = numbers(s, page, pages, kept, bits, hashes, list);
    of_figures(card::figures(g, puts))
}
