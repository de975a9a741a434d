// The drop: decided from one partition, and as a call on whole areas.
#![tactic(auto)]

ghost use Rattle.std.specs.Prelude.{true, ◌≡◌, ◌≤◌, ◌<◌, length};
ghost use Rattle.model.specs.Bytes.{within};
ghost use Rattle.model.specs.Geometry.{allowed, partitions, stride, partition_at, memory_need, flash_need};
ghost use Rattle.model.specs.Partition.{partition};
ghost use Rattle.model.specs.Drop.{dropped};
ghost use Rattle.model.specs.Calls.{Call};
ghost use Rattle.partition.specs.Ready.{Whole};
ghost use Rattle.answers.specs.Told.{told, written};
ghost use Rattle.answers.specs.Performs.{Performs};
ghost use Rattle.opening.specs.Opened.{IsTable};
ghost use Rattle.drop.specs.Plans.{plan_for, Droppable};

use answers::{Reason, Refusal};
use head::Head;
use model::Geometry;

// 12, 23, 13, 12; and the entries that leave the total.
pub fn decide(part: &[u8], flash: &[u8], g: Geometry, t: u32) -> Result<u32, Refusal>
    requires whole { Whole g part.now }
    requires g_in_bounds { flash_need g ≤ length flash.now }
    requires t_bound { t < partitions g }
    ensures { told result ≡ plan_for g t part.now flash.now }
{
    let head = Head::read(part);
    if head.is_overfull(g) {
        return Err(Reason::Overfull.into());
    }
    if head.live == 0 {
        return Err(Reason::NothingLive.into());
    }
    let oldest = head.flushes - head.live + 1;
    let less = outgoing::read_heads(flash, g, t, oldest, geometry::slot_of(g, oldest))?;
    if head.is_total_out(g, 0, less) {
        return Err(Reason::Overfull.into());
    }
    Ok(less)
}

// The oldest live batch is live no more: its list entries leave, and its `less` entries leave the total.
fn apply(part: &mut [u8], g: Geometry, less: u32)
    requires whole { Whole g part.old }
    requires droppable { Droppable g less part.old }
    ensures { part.new ≡ dropped g less part.old }
{
    let head = Head::read(part);
    let listed = head.listed;
    let stay = list::expire(part, g, head.live, head.flushes, listed);
    let left = head.lowered().unlisted(listed - stay as u32);
    head::put_back(part, left.totalled(0, less));
}

// The same in partition t of memory.
fn apply_at(memory: &mut [u8], g: Geometry, t: u32, less: u32)
    requires g_value { allowed g ≡ true }
    requires g_in_bounds { memory_need g ≤ length memory.old }
    requires t_bound { t < partitions g }
    requires droppable { Droppable g less (partition g t memory.old) }
    ensures { memory.new ≡ within (partition_at g t) (stride g) (dropped g less) memory.old }
{
    let a = geometry::partition_at(g, t);
    let e = a + geometry::partition_size(g);
    apply(&mut memory[a..e], g, less);
}

// The call on a table: 4, 12, 23, 13, 12, or done.
pub fn call(memory: &mut [u8], flash: &[u8], g: Geometry, t: u32) -> Result<u32, Refusal>
    requires { IsTable g memory.old flash.now }
    ensures { Performs (Call.drop t) memory.old flash.now (written result) memory.new flash.now }
{
    if geometry::partition_count(g) <= t {
        return Err(Reason::NoSuchPart.into());
    }
    let less = decide(partition::part_of(memory, g, t), flash, g, t)?;
    apply_at(memory, g, t, less);
    Ok(0)
}
