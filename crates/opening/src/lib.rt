// Opening a table: the checks that every call but format begins with.
#![tactic(auto)]

ghost use Rattle.std.specs.Prelude.{◌≡◌, ◌≤◌, length};
ghost use Rattle.model.specs.Opening.{geometry_of};
ghost use Rattle.answers.specs.Told.{told_unread};
ghost use Rattle.opening.specs.Opened.{opened};

use answers::Reason;
use model::Geometry;

// The numbers that memory opens with.
pub fn geometry_of(memory: &[u8]) -> Geometry
    requires { 32 ≤ length memory.now }
    ensures { result ≡ geometry_of memory.now }
{
    Geometry {
        parts: words::u32_at(memory, 0),
        page: words::u32_at(memory, 4),
        pages: words::u32_at(memory, 8),
        kept: words::u32_at(memory, 12),
        bits: words::u32_at(memory, 16),
        hashes: words::u32_at(memory, 20),
        list: words::u32_at(memory, 24),
    }
}

// 2, 11, 2, 3, or the geometry of a table. As a call of its own it would hand the geometry back through memory.
#[inline(always)]
pub fn open(memory: &[u8], flash: &[u8]) -> Result<Geometry, Reason>
    ensures { told_unread result ≡ opened memory.now flash.now }
{
    if memory.len() < 32 {
        return Err(Reason::MemoryShort);
    }
    let g = geometry_of(memory);
    if !geometry::is_allowed(g) {
        return Err(Reason::NoTable);
    }
    if words::u32_at(memory, 28) != 0 {
        return Err(Reason::NoTable);
    }
    if memory.len() < geometry::memory_need(g) {
        return Err(Reason::MemoryShort);
    }
    if flash.len() < geometry::flash_need(g) {
        return Err(Reason::FlashShort);
    }
    Ok(g)
}
