// The put: what it does, decided from one partition; that, done to whole areas; and both as a call.
#![tactic(auto)]

ghost use Rattle.std.specs.Prelude.{false, Ok, ◌≡◌, ◌≤◌, length};
ghost use Rattle.model.specs.Geometry.{flash_need};
ghost use Rattle.model.specs.Keys.{partition_of};
ghost use Rattle.model.specs.Partition.{partition};
ghost use Rattle.model.specs.Refusals.{key_overfull};
ghost use Rattle.model.specs.Put.{due};
ghost use Rattle.model.specs.Calls.{Call};
ghost use Rattle.partition.specs.Ready.{Whole};
ghost use Rattle.answers.specs.Told.{told, written};
ghost use Rattle.answers.specs.Performs.{Performs};
ghost use Rattle.opening.specs.Opened.{IsTable};
ghost use Rattle.put.specs.Plans.{plan_store, plan_flush, plan_room, plan_for};

use answers::{Reason, Refusal};
use head::Head;
use model::Geometry;

// What a put does: store, or flush first and take so many entries off the total. No `Option`, whose `None` would not say that it stores.
#[derive(Clone, Copy)]
pub enum Plan {
    Store,
    Flush(u32),
}

// Is the key new to its page, and the page full? Most are not full, and only a full one is searched.
fn is_due(part: &[u8], g: Geometry, key: u64) -> bool
    requires whole { Whole g part.now }
    requires part_value { key_overfull g key part.now ≡ false }
    ensures { result ≡ due g key part.now }
{
    let q = keys::page_of(g, key);
    if buffer::count(part, g, q) != geometry::page_capacity(g) {
        return false;
    }
    buffer::find(part, g, q, key).is_none()
}

// 12 for a new key where the total has no room. Most totals have, and only without room is the page searched.
fn plan_store(part: &[u8], g: Geometry, key: u64) -> Result<Plan, Refusal>
    requires whole { Whole g part.now }
    requires part_value { key_overfull g key part.now ≡ false }
    ensures { told result ≡ plan_store g key part.now }
{
    if Head::read(part).total < geometry::most_entries(g) {
        return Ok(Plan::Store);
    }
    match buffer::find(part, g, keys::page_of(g, key), key) {
        Some(_) => Ok(Plan::Store),
        None => Err(Reason::Overfull.into()),
    }
}

// 16, 13, 12, or the flush.
fn plan_flush(part: &[u8], flash: &[u8], g: Geometry, key: u64) -> Result<Plan, Refusal>
    requires whole { Whole g part.now }
    requires part_value { key_overfull g key part.now ≡ false }
    requires g_in_bounds { flash_need g ≤ length flash.now }
    ensures { told result ≡ plan_flush g key part.now flash.now }
{
    let less = outgoing::decide(part, flash, g, keys::partition_of(g, key), 1)?;
    Ok(Plan::Flush(less))
}

// 12, and then as a flush is due or not: all that does not look at the value.
pub fn decide_room(part: &[u8], flash: &[u8], g: Geometry, key: u64) -> Result<Plan, Refusal>
    requires whole { Whole g part.now }
    requires g_in_bounds { flash_need g ≤ length flash.now }
    ensures { told result ≡ plan_room g key part.now flash.now }
{
    if buffer::is_key_overfull(part, g, key) {
        return Err(Reason::Overfull.into());
    }
    let due = is_due(part, g, key);
    if !due {
        return plan_store(part, g, key);
    }
    if buffer::is_some_page_overfull(part, g) {
        return Err(Reason::Overfull.into());
    }
    plan_flush(part, flash, g, key)
}

// 21, and then what does not look at the value.
pub fn decide(part: &[u8], flash: &[u8], g: Geometry, key: u64, value: u64) -> Result<Plan, Refusal>
    requires whole { Whole g part.now }
    requires g_in_bounds { flash_need g ≤ length flash.now }
    ensures { told result ≡ plan_for g key value part.now flash.now }
{
    if value == 0 {
        return Err(Reason::ZeroValue.into());
    }
    decide_room(part, flash, g, key)
}

// The plan, done: stored, behind the flush if one is planned; tells the pages written. Nothing is decided again.
fn carry_out(
    memory: &mut [u8],
    flash: &mut [u8],
    g: Geometry,
    key: u64,
    value: u64,
    plan: Plan,
) -> u32
    requires table { IsTable g memory.old flash.old }
    requires plan_value { plan_for g key value (partition g (partition_of g key) memory.old) flash.old ≡ Ok plan }
    ensures { Performs (Call.put key value) memory.old flash.old (written (Ok result)) memory.new flash.new }
{
    let mut pages: u32 = 0;
    let mut less: u32 = 0;
    match plan {
        Plan::Store => {}
        Plan::Flush(entries) => {
            flushing::apply_at(memory, flash, g, keys::partition_of(g, key));
            pages = g.pages;
            less = entries;
        }
    }
    storing::store_unlisted_at(memory, g, key, value, less);
    pages
}

// What was decided, done, or the refusal.
pub fn apply(
    memory: &mut [u8],
    flash: &mut [u8],
    g: Geometry,
    key: u64,
    value: u64,
    plan: Result<Plan, Refusal>,
) -> Result<u32, Refusal>
    requires table { IsTable g memory.old flash.old }
    requires plan_value { told plan ≡ plan_for g key value (partition g (partition_of g key) memory.old) flash.old }
    ensures { Performs (Call.put key value) memory.old flash.old (written result) memory.new flash.new }
{
    Ok(carry_out(memory, flash, g, key, value, plan?))
}

// The whole call on an opened table.
pub fn call(
    memory: &mut [u8],
    flash: &mut [u8],
    g: Geometry,
    key: u64,
    value: u64,
) -> Result<u32, Refusal>
    requires { IsTable g memory.old flash.old }
    ensures { Performs (Call.put key value) memory.old flash.old (written result) memory.new flash.new }
{
    let plan = decide(partition::part_of_key(memory, g, key), flash, g, key, value);
    apply(memory, flash, g, key, value, plan)
}
