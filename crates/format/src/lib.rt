// The format of a whole memory area.
#![tactic(auto)]

ghost use Rattle.std.specs.Prelude.{true, ◌≡◌, ◌≤◌, ◌<◌, length};
ghost use Rattle.model.specs.Geometry.{allowed, partitions, memory_need};
ghost use Rattle.model.specs.Opening.{with_opening};
ghost use Rattle.model.specs.Format.{format_checks, emptied_partitions, formatted};
ghost use Rattle.model.specs.Calls.{Call};
ghost use Rattle.answers.specs.Told as told;
ghost use Rattle.answers.specs.Performs.{Performs};

use answers::{Reason, Refusal};
use model::Geometry;

// 1, 2, 3.
pub fn decide(memory: &[u8], flash: &[u8], g: Geometry) -> Result<(), Reason>
    ensures { told.refusal result ≡ format_checks g (record { memory = memory.entry.now; flash = flash.now }) }
{
    if !geometry::is_allowed(g) {
        return Err(Reason::NotAllowed);
    }
    if memory.len() < geometry::memory_need(g) {
        return Err(Reason::MemoryShort);
    }
    if flash.len() < geometry::flash_need(g) {
        return Err(Reason::FlashShort);
    }
    Ok(())
}

// The eight opening numbers.
fn write_opening(memory: &mut [u8], g: Geometry)
    requires { 32 ≤ length memory.old }
    ensures { memory.new ≡ with_opening g memory.old }
{
    words::write_u32(memory, 0, g.parts);
    words::write_u32(memory, 4, g.page);
    words::write_u32(memory, 8, g.pages);
    words::write_u32(memory, 12, g.kept);
    words::write_u32(memory, 16, g.bits);
    words::write_u32(memory, 20, g.hashes);
    words::write_u32(memory, 24, g.list);
    words::write_u32(memory, 28, 0);
}

// The buffers of all partitions are emptied.
fn empty_partitions(memory: &mut [u8], g: Geometry)
    requires g_value { allowed g ≡ true }
    requires g_in_bounds { memory_need g ≤ length memory.old }
    ensures { memory.new ≡ emptied_partitions g (partitions g) memory.old }
{
    let count = geometry::partition_count(g);
    let size = geometry::partition_size(g);
    for t in 0..count {
        let a = geometry::partition_at(g, t);
        let e = a + size;
        buffer::empty_pages(&mut memory[a..e], g, t);
    }
}

pub fn apply(memory: &mut [u8], g: Geometry)
    requires g_value { allowed g ≡ true }
    requires g_in_bounds { memory_need g ≤ length memory.old }
    ensures { memory.new ≡ formatted g memory.old }
{
    words::zero(memory, 0, geometry::memory_need(g));
    write_opening(memory, g);
    empty_partitions(memory, g);
}

// The call on any areas; flash only lends its length.
pub fn call(memory: &mut [u8], flash: &[u8], g: Geometry) -> Result<u32, Refusal>
    ensures { Performs (Call.format g) memory.old flash.now (told.written result) memory.new flash.now }
{
    decide(memory, flash, g)?;
    apply(memory, g);
    Ok(0)
}
