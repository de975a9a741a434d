// What a flush writes: the partition's buffer pages become a batch in flash, and the partition goes on with an empty buffer.
#![tactic(auto)]

ghost use Rattle.std.specs.Prelude.{true, ◌≡◌, ◌+◌, ◌≤◌, ◌<◌, length};
ghost use Rattle.model.specs.Bytes.{within};
ghost use Rattle.model.specs.Geometry.{allowed, partitions, buffer_at, stride, partition_at, memory_need, flash_need};
ghost use Rattle.model.specs.Partition.{partition, flushes_of, listed_of, slot};
ghost use Rattle.model.specs.Page.{emptied};
ghost use Rattle.model.specs.Format.{emptied_pages};
ghost use Rattle.model.specs.Batch.{delisted};
ghost use Rattle.model.specs.Flush.{filtered, head_after, flushed, with_batch};
ghost use Rattle.head.specs.Heads.{as_head};
ghost use Rattle.partition.specs.Ready.{Whole, Flushable};

use head::Head;
use model::Geometry;

// Slot j's filter is made, and the list loses what expires. Gives the head that the flush ends with.
fn prepare(part: &mut [u8], g: Geometry, t: u32, j: u32) -> Head
    requires whole { Whole g part.old }
    requires flushable { Flushable g t part.old }
    requires j_value { j ≡ slot g (flushes_of part.old + 1) }
    ensures { (part.new ≡ delisted g g.kept (flushes_of part.old) (listed_of part.old) (filtered g part.old)) × (as_head result ≡ head_after g part.old) }
{
    let head = Head::read(part);
    let flushes = head.flushes;
    let listed = head.listed;
    filter::make(part, g, j);
    let stay = list::expire(part, g, g.kept, flushes, listed);
    head.flushed(g).unlisted(listed - stay as u32)
}

// Buffer page q of partition t is emptied.
fn empty_page_at(memory: &mut [u8], g: Geometry, t: u32, q: u32)
    requires g_value { allowed g ≡ true }
    requires g_in_bounds { memory_need g ≤ length memory.old }
    requires t_bound { t < partitions g }
    requires q_lt_pages { q < g.pages }
    ensures { memory.new ≡ within (partition_at g t) (stride g) (within (buffer_at g q) g.page (emptied q t)) memory.old }
{
    let a = geometry::partition_at(g, t);
    let e = a + geometry::partition_size(g);
    buffer::empty_page(&mut memory[a..e], g, t, q);
}

// Batch n is written whole: each buffer page goes into its slot's page, and is emptied while it is at hand.
fn move_batch(memory: &mut [u8], flash: &mut [u8], g: Geometry, t: u32, n: u32)
    requires g_value { allowed g ≡ true }
    requires g_in_bounds { memory_need g ≤ length memory.old }
    requires g_in_bounds_2 { flash_need g ≤ length flash.old }
    requires t_bound { t < partitions g }
    requires n_value { n ≡ flushes_of (partition g t memory.old) + 1 }
    ensures { (memory.new ≡ within (partition_at g t) (stride g) (emptied_pages g t g.pages) memory.old) × (flash.new ≡ with_batch g t (partition g t memory.old) g.pages flash.old) }
{
    for q in 0..g.pages {
        page_writer::write(memory, flash, g, t, q, n);
        empty_page_at(memory, g, t, q);
    }
}

// Both areas after the flush of partition t, whose batch goes to slot j. The filter comes first: it has the pages brought from memory while it is computed.
fn apply_in_slot(memory: &mut [u8], flash: &mut [u8], g: Geometry, t: u32, j: u32)
    requires g_value { allowed g ≡ true }
    requires g_in_bounds { memory_need g ≤ length memory.old }
    requires flushable { Flushable g t (partition g t memory.old) }
    requires g_in_bounds_2 { flash_need g ≤ length flash.old }
    requires j_value { j ≡ slot g (flushes_of (partition g t memory.old) + 1) }
    ensures { (memory.new ≡ within (partition_at g t) (stride g) (flushed g t) memory.old) × (flash.new ≡ with_batch g t (partition g t memory.old) g.pages flash.old) }
{
    let a = geometry::partition_at(g, t);
    let e = a + geometry::partition_size(g);
    let head = prepare(&mut memory[a..e], g, t, j);
    move_batch(memory, flash, g, t, head.flushes);
    head::put_back(&mut memory[a..e], head);
}

// The same, to the slot of the next batch. It is found before the partition is lent: found there, the filter waits for the division.
pub fn apply_at(memory: &mut [u8], flash: &mut [u8], g: Geometry, t: u32)
    requires g_value { allowed g ≡ true }
    requires g_in_bounds { memory_need g ≤ length memory.old }
    requires flushable { Flushable g t (partition g t memory.old) }
    requires g_in_bounds_2 { flash_need g ≤ length flash.old }
    ensures { (memory.new ≡ within (partition_at g t) (stride g) (flushed g t) memory.old) × (flash.new ≡ with_batch g t (partition g t memory.old) g.pages flash.old) }
{
    let part = partition::part_of(memory, g, t);
    let j = geometry::slot_of(g, Head::read(part).flushes + 1);
    apply_in_slot(memory, flash, g, t, j);
}
