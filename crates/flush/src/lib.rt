// The flush: decided from one partition, and as a call on whole areas.
#![tactic(auto)]

ghost use Rattle.std.specs.Prelude.{true, ◌≡◌, ◌≤◌, ◌<◌, length};
ghost use Rattle.model.specs.Bytes.{within};
ghost use Rattle.model.specs.Geometry.{allowed, partitions, stride, partition_at, memory_need, flash_need};
ghost use Rattle.model.specs.Partition.{partition, totalled, total_of};
ghost use Rattle.model.specs.Flush.{flushed, with_batch};
ghost use Rattle.model.specs.Calls.{Call};
ghost use Rattle.partition.specs.Ready.{Whole, Flushable};
ghost use Rattle.answers.specs.Told.{told, written};
ghost use Rattle.answers.specs.Performs.{Performs};
ghost use Rattle.opening.specs.Opened.{IsTable};
ghost use Rattle.flush.specs.Plans.{plan_for};

use answers::{Reason, Refusal};
use head::Head;
use model::Geometry;

// 12, 15, 16, 13, 12; and the entries that leave the total.
pub fn decide(part: &[u8], flash: &[u8], g: Geometry, t: u32) -> Result<u32, Refusal>
    requires whole { Whole g part.now }
    requires g_in_bounds { flash_need g ≤ length flash.now }
    requires t_bound { t < partitions g }
    ensures { told result ≡ plan_for g t part.now flash.now }
{
    if Head::read(part).is_overfull(g) {
        return Err(Reason::Overfull.into());
    }
    if buffer::is_some_page_overfull(part, g) {
        return Err(Reason::Overfull.into());
    }
    if !buffer::is_in_use(part, g) {
        return Err(Reason::BufferEmpty.into());
    }
    outgoing::decide(part, flash, g, t, 0)
}

// Both areas after the flush of partition t, with so many entries less in its total.
fn apply_at(memory: &mut [u8], flash: &mut [u8], g: Geometry, t: u32, less: u32)
    requires g_value { allowed g ≡ true }
    requires g_in_bounds { memory_need g ≤ length memory.old }
    requires flushable { Flushable g t (partition g t memory.old) }
    requires g_in_bounds_2 { flash_need g ≤ length flash.old }
    requires less_bound { less ≤ total_of (partition g t memory.old) }
    ensures { (memory.new ≡ within (partition_at g t) (stride g) (λ p. totalled 0 less (flushed g t p)) memory.old) × (flash.new ≡ with_batch g t (partition g t memory.old) g.pages flash.old) }
{
    flushing::apply_at(memory, flash, g, t);
    let a = geometry::partition_at(g, t);
    let e = a + geometry::partition_size(g);
    head::change_total(&mut memory[a..e], 0, less);
}

// The call on a table: 4, 12, 15, 16, 13, 12, or the pages of the batch.
pub fn call(memory: &mut [u8], flash: &mut [u8], g: Geometry, t: u32) -> Result<u32, Refusal>
    requires { IsTable g memory.old flash.old }
    ensures { Performs (Call.flush t) memory.old flash.old (written result) memory.new flash.new }
{
    if geometry::partition_count(g) <= t {
        return Err(Reason::NoSuchPart.into());
    }
    let less = decide(partition::part_of(memory, g, t), flash, g, t)?;
    apply_at(memory, flash, g, t, less);
    Ok(g.pages)
}
