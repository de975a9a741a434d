// The nine calls on memory and flash of any length and content. Each but format opens the table first; what it does then stands in the crate of its name.
#![tactic(auto)]

ghost use Rattle.std.specs.Prelude.{◌≡◌, length};
ghost use Rattle.model.specs.Calls.{Call, text_left, bytes_shown};
ghost use Rattle.answers.specs.Told.{written, answered, viewed};
ghost use Rattle.answers.specs.Performs.{areas, Performs, Inside};
ghost use Rattle.index.specs.Address.{address_shown};

use answers::{Answer, Refusal, Viewed};
use model::Geometry;

// Memory becomes an empty table; flash is left as it is.
pub fn format(memory: &mut [u8], flash: &[u8], g: Geometry) -> Result<u32, Refusal>
    ensures { Performs (Call.format g) memory.old flash.now (written result) memory.new flash.now }
{
    format::call(memory, flash, g)
}

// The key has the value from now on; tells the pages written, where a flush was due.
pub fn put(memory: &mut [u8], flash: &mut [u8], key: u64, value: u64) -> Result<u32, Refusal>
    ensures { Performs (Call.put key value) memory.old flash.old (written result) memory.new flash.new }
{
    let g = opening::open(memory, flash)?;
    put::call(memory, flash, g, key, value)
}

// The key's value and where it was, or none; with the pages read.
pub fn get(memory: &[u8], flash: &[u8], key: u64) -> Result<Answer, Refusal>
    ensures { Performs (Call.get key) memory.now flash.now (answered result) memory.now flash.now }
{
    match opening::open(memory, flash) {
        Ok(g) => get::call(memory, flash, g, key),
        Err(reason) => Err(Refusal { reason, reads: 0 }),
    }
}

// The key is found no more, until it is put again.
pub fn del(memory: &mut [u8], flash: &[u8], key: u64) -> Result<u32, Refusal>
    ensures { Performs (Call.del key) memory.old flash.now (written result) memory.new flash.now }
{
    let g = opening::open(memory, flash)?;
    del::call(memory, flash, g, key)
}

// The partition's buffer becomes a batch in flash; tells the pages written.
pub fn flush(memory: &mut [u8], flash: &mut [u8], partition: u32) -> Result<u32, Refusal>
    ensures { Performs (Call.flush partition) memory.old flash.old (written result) memory.new flash.new }
{
    let g = opening::open(memory, flash)?;
    flush::call(memory, flash, g, partition)
}

// The partition's entries, buffer and live batches together, as its head says.
pub fn count(memory: &[u8], flash: &[u8], partition: u32) -> Result<u32, Refusal>
    ensures { Performs (Call.count partition) memory.now flash.now (written result) memory.now flash.now }
{
    let g = opening::open(memory, flash)?;
    count::call(memory, flash, g, partition)
}

// The partition's keys and values as session lines, in `text`; tells their length. A refused one leaves `text` as it was.
pub fn text<'a>(
    memory: &'a [u8],
    flash: &'a [u8],
    partition: u32,
    text: &mut [u8],
) -> Result<u32, Refusal>
    ensures performs { Performs (Call.text partition (length text.old)) memory.now flash.now (written result) memory.now flash.now }
    ensures text_after { text.new ≡ text_left (areas memory.now flash.now) partition text.old }
{
    let g = opening::open(memory, flash)?;
    text::call(memory, flash, g, partition, text)
}

// The partition's oldest live batch is live no more: its keys are found no more, unless a younger batch or the buffer has them.
pub fn drop(memory: &mut [u8], flash: &[u8], partition: u32) -> Result<u32, Refusal>
    ensures { Performs (Call.drop partition) memory.old flash.now (written result) memory.new flash.now }
{
    let g = opening::open(memory, flash)?;
    drop::call(memory, flash, g, partition)
}

// Where one page stands, in memory or in flash, or the refusal with its reads.
pub fn view_outcome(
    memory: &[u8],
    flash: &[u8],
    partition: u32,
    page: u32,
    flush: u32,
) -> Result<Viewed, Refusal>
    ensures performs { Performs (Call.view partition page flush) memory.now flash.now (viewed result) memory.now flash.now }
    ensures inside { Inside result memory.now flash.now }
{
    match opening::open(memory, flash) {
        Ok(g) => view::call(memory, flash, g, partition, page, flush),
        Err(reason) => Err(reason.into()),
    }
}

// The page itself, as a part of memory or of flash; of a refused view, an empty part of memory.
pub fn view<'a>(
    memory: &'a [u8],
    flash: &'a [u8],
    partition: u32,
    page: u32,
    flush: u32,
) -> &'a [u8]
    ensures result_value { result.now ≡ bytes_shown (areas memory.now flash.now) partition page flush }
    ensures ref_ptr_value { result.ref_ptr ≡ address_shown memory.entry.ref_ptr flash.entry.ref_ptr (areas memory.now flash.now) partition page flush }
{
    match view_outcome(memory, flash, partition, page, flush) {
        Ok(Viewed::Memory(at, size)) => {
            let e = at + size;
            &memory[at..e]
        }
        Ok(Viewed::Flash(at, size)) => {
            let e = at + size;
            &flash[at..e]
        }
        Err(_) => &memory[0..0],
    }
}
