// The delete: in one partition, and as a call on whole areas.
#![tactic(auto)]

ghost use Rattle.std.specs.Prelude.{true, false, ◌≡◌, ◌≤◌, ◌<◌, length, Some};
ghost use Rattle.model.specs.Bytes.{within};
ghost use Rattle.model.specs.Geometry.{allowed, stride, partition_at, memory_need};
ghost use Rattle.model.specs.Keys.{partition_of, page_of};
ghost use Rattle.model.specs.Page.{taken};
ghost use Rattle.model.specs.Partition.{head_of, listed_of, totalled, buffer_of, partition};
ghost use Rattle.model.specs.Refusals.{head_overfull, key_overfull};
ghost use Rattle.model.specs.Del.{stamp_for, unbuffered, listed_with};
ghost use Rattle.model.specs.Calls.{Call};
ghost use Rattle.partition.specs.Ready.{Whole};
ghost use Rattle.answers.specs.Told.{told_unread, written};
ghost use Rattle.answers.specs.Performs.{Performs};
ghost use Rattle.opening.specs.Opened.{IsTable};
ghost use Rattle.del.specs.Plans.{plan_removal, plan_listing, plan_for, Listable};

use answers::{Reason, Refusal};
use head::Head;
use model::Geometry;

// What a del does: nothing for a listed key; or it takes the key out of the buffer, and lists it with a batch that may hold it. No `Option` of an `Option`, whose two `None`s would be told apart by place alone.
#[derive(Clone, Copy)]
pub enum Plan {
    Nothing,
    Remove(Option<u32>),
}

// The youngest live batch whose filter passes the key, if there is one.
fn stamp_for(part: &[u8], g: Geometry, key: u64) -> Option<u32>
    requires whole { Whole g part.now }
    requires part_value { head_overfull g (head_of part.now) ≡ false }
    ensures { result ≡ stamp_for g key part.now }
{
    let x = keys::mix(key);
    let head = Head::read(part);
    let mut slot = head.flushes % g.kept;
    for age in 0..head.live {
        slot = geometry::slot_before(g, slot);
        if filter::passes(part, g, slot, x) {
            return Some(head.flushes - age);
        }
    }
    None
}

// 12 for a key in its page that the total does not count. Only a total of 0 has the page searched.
fn plan_removal(part: &[u8], g: Geometry, key: u64, youngest: Option<u32>) -> Result<Plan, Reason>
    requires whole { Whole g part.now }
    requires part_value { key_overfull g key part.now ≡ false }
    ensures { told_unread result ≡ plan_removal g key youngest part.now }
{
    let total = Head::read(part).total;
    if total != 0 {
        return Ok(Plan::Remove(youngest));
    }
    match buffer::find(part, g, keys::page_of(g, key), key) {
        Some(_) => Err(Reason::Overfull),
        None => Ok(Plan::Remove(youngest)),
    }
}

// 14 for a key that must be listed and finds no place, then 12.
fn plan_listing(part: &[u8], g: Geometry, key: u64) -> Result<Plan, Reason>
    requires whole { Whole g part.now }
    requires part_value { key_overfull g key part.now ≡ false }
    ensures { told_unread result ≡ plan_listing g key part.now }
{
    let youngest = stamp_for(part, g, key);
    if youngest.is_some() && Head::read(part).listed == g.list {
        return Err(Reason::ListFull);
    }
    plan_removal(part, g, key, youngest)
}

// 12, 14, 12; and what is to be done.
pub fn decide(part: &[u8], g: Geometry, key: u64) -> Result<Plan, Reason>
    requires { Whole g part.now }
    ensures { told_unread result ≡ plan_for g key part.now }
{
    if buffer::is_key_overfull(part, g, key) {
        return Err(Reason::Overfull);
    }
    match list::find(part, g, key) {
        Some(_) => Ok(Plan::Nothing),
        None => plan_listing(part, g, key),
    }
}

// The key is listed last, with the stamp.
fn list(part: &mut [u8], g: Geometry, key: u64, batch: u32)
    requires whole { Whole g part.old }
    requires part_bound { listed_of part.old < g.list }
    ensures { part.new ≡ listed_with (Some batch) g key part.old }
{
    let head = Head::read(part);
    list::enlist(part, g, head.listed as usize, key, batch);
    head::put_back(part, head.listed());
}

// The key's first entry leaves its buffer page and the total, and the key is listed where a batch's filter passes it.
fn apply(part: &mut [u8], g: Geometry, key: u64, youngest: Option<u32>)
    requires whole { Whole g part.old }
    requires listable { Listable g key youngest part.old }
    ensures { part.new ≡ totalled 0 (taken key (buffer_of g part.old (page_of g key))) (listed_with youngest g key (unbuffered g key part.old)) }
{
    let less = buffer::drop_key(part, g, key);
    if let Some(batch) = youngest {
        list(part, g, key, batch);
    }
    head::change_total(part, 0, less);
}

// The same in the key's partition of memory.
fn apply_at(memory: &mut [u8], g: Geometry, key: u64, youngest: Option<u32>)
    requires g_value { allowed g ≡ true }
    requires g_in_bounds { memory_need g ≤ length memory.old }
    requires listable { Listable g key youngest (partition g (partition_of g key) memory.old) }
    ensures { memory.new ≡ within (partition_at g (partition_of g key)) (stride g) (λ p. totalled 0 (taken key (buffer_of g p (page_of g key))) (listed_with youngest g key (unbuffered g key p))) memory.old }
{
    let a = keys::key_partition_at(g, key);
    let e = a + geometry::partition_size(g);
    apply(&mut memory[a..e], g, key, youngest);
}

// The whole call on an opened table.
pub fn call(memory: &mut [u8], flash: &[u8], g: Geometry, key: u64) -> Result<u32, Refusal>
    requires { IsTable g memory.old flash.now }
    ensures { Performs (Call.del key) memory.old flash.now (written result) memory.new flash.now }
{
    let plan = decide(partition::part_of_key(memory, g, key), g, key)?;
    if let Plan::Remove(youngest) = plan {
        apply_at(memory, g, key, youngest);
    }
    Ok(0)
}
