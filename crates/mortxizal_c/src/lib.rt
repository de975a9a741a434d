// The C interface's exports: each calls the function of the same name and promises what it promises. A static library cannot be a library of others, so what C links stands apart from what proofs cite.
#![tactic(auto)]

ghost use Rattle.std.specs.Prelude.{◌≡◌};
ghost use Rattle.model.specs.Geometry.{geometry};
ghost use Rattle.model.specs.Card.{figured};
ghost use Rattle.model.specs.Calls.{Call};
ghost use Rattle.exported.specs.Exported.{exported_card};
ghost use Rattle.mortxizal.specs.Exports.{Exports, ExportsText};

use exported::{MxAnswer, MxCard};

#[unsafe(no_mangle)]
pub extern "C" fn mx_interface() -> u32
    ensures { result ≡ 8 }
{
    mortxizal::mx_interface()
}

#[unsafe(no_mangle)]
pub extern "C" fn mx_format(
    memory: &mut [u8],
    flash: &[u8],
    s: u32,
    page: u32,
    pages: u32,
    kept: u32,
    bits: u32,
    hashes: u32,
    list: u32,
) -> MxAnswer
    ensures { Exports (Call.format (geometry s page pages kept bits hashes list)) memory.old flash.now result memory.new flash.now }
{
    mortxizal::mx_format(memory, flash, s, page, pages, kept, bits, hashes, list)
}

#[unsafe(no_mangle)]
pub extern "C" fn mx_put(memory: &mut [u8], flash: &mut [u8], key: u64, value: u64) -> MxAnswer
    ensures { Exports (Call.put key value) memory.old flash.old result memory.new flash.new }
{
    mortxizal::mx_put(memory, flash, key, value)
}

#[unsafe(no_mangle)]
pub extern "C" fn mx_get(memory: &[u8], flash: &[u8], key: u64) -> MxAnswer
    ensures { Exports (Call.get key) memory.now flash.now result memory.now flash.now }
{
    mortxizal::mx_get(memory, flash, key)
}

#[unsafe(no_mangle)]
pub extern "C" fn mx_del(memory: &mut [u8], flash: &[u8], key: u64) -> MxAnswer
    ensures { Exports (Call.del key) memory.old flash.now result memory.new flash.now }
{
    mortxizal::mx_del(memory, flash, key)
}

#[unsafe(no_mangle)]
pub extern "C" fn mx_flush(memory: &mut [u8], flash: &mut [u8], partition: u32) -> MxAnswer
    ensures { Exports (Call.flush partition) memory.old flash.old result memory.new flash.new }
{
    mortxizal::mx_flush(memory, flash, partition)
}

#[unsafe(no_mangle)]
pub extern "C" fn mx_view(
    memory: &[u8],
    flash: &[u8],
    partition: u32,
    page: u32,
    flush: u32,
) -> MxAnswer
    ensures { Exports (Call.view partition page flush) memory.now flash.now result memory.now flash.now }
{
    mortxizal::mx_view(memory, flash, partition, page, flush)
}

#[unsafe(no_mangle)]
pub extern "C" fn mx_count(memory: &[u8], flash: &[u8], partition: u32) -> MxAnswer
    ensures { Exports (Call.count partition) memory.now flash.now result memory.now flash.now }
{
    mortxizal::mx_count(memory, flash, partition)
}

#[unsafe(no_mangle)]
pub extern "C" fn mx_text<'a>(
    memory: &'a [u8],
    flash: &'a [u8],
    partition: u32,
    text: &mut [u8],
) -> MxAnswer
    ensures { ExportsText partition memory.now flash.now text.old result text.new }
{
    mortxizal::mx_text(memory, flash, partition, text)
}

#[unsafe(no_mangle)]
pub extern "C" fn mx_drop(memory: &mut [u8], flash: &[u8], partition: u32) -> MxAnswer
    ensures { Exports (Call.drop partition) memory.old flash.now result memory.new flash.now }
{
    mortxizal::mx_drop(memory, flash, partition)
}

#[unsafe(no_mangle)]
pub extern "C" fn mx_figures(
    s: u32,
    page: u32,
    pages: u32,
    kept: u32,
    bits: u32,
    hashes: u32,
    list: u32,
    puts: u32,
) -> MxCard
    ensures { result ≡ exported_card (figured (geometry s page pages kept bits hashes list) puts) }
{
    mortxizal::mx_figures(s, page, pages, kept, bits, hashes, list, puts)
}
