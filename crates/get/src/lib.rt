// The call get: a lookup in the key's partition.
#![tactic(auto)]

ghost use Rattle.model.specs.Calls.{Call};
ghost use Rattle.answers.specs.Told.{answered};
ghost use Rattle.answers.specs.Performs.{Performs};
ghost use Rattle.opening.specs.Opened.{IsTable};

use answers::{Answer, Reason, Refusal};
use model::Geometry;

// 12, then the lookup.
pub fn call(memory: &[u8], flash: &[u8], g: Geometry, key: u64) -> Result<Answer, Refusal>
    requires { IsTable g memory.now flash.now }
    ensures { Performs (Call.get key) memory.now flash.now (answered result) memory.now flash.now }
{
    let part = partition::part_of_key(memory, g, key);
    if buffer::is_key_overfull(part, g, key) {
        return Err(Reason::Overfull.into());
    }
    lookup::lookup(part, flash, g, key)
}
