// The call count: a partition's entries, from its head alone.
#![tactic(auto)]

ghost use Rattle.std.specs.Prelude.{◌≡◌};
ghost use Rattle.model.specs.Calls.{Call};
ghost use Rattle.answers.specs.Told.{written};
ghost use Rattle.answers.specs.Performs.{Performs};
ghost use Rattle.opening.specs.Opened.{IsTable};

use answers::{Reason, Refusal};
use head::Head;
use model::Geometry;

// 4, 12, or the total that the head says.
pub fn call(memory: &[u8], flash: &[u8], g: Geometry, t: u32) -> Result<u32, Refusal>
    requires { IsTable g memory.now flash.now }
    ensures { Performs (Call.count t) memory.now flash.now (written result) memory.now flash.now }
{
    if geometry::partition_count(g) <= t {
        return Err(Reason::NoSuchPart.into());
    }
    let head = Head::read(partition::part_of(memory, g, t));
    if head.is_overfull(g) {
        return Err(Reason::Overfull.into());
    }
    Ok(head.total)
}
