// What a card will carry: four figures from a geometry and a number of puts, on no areas (02, job 7).
#![tactic(auto)]

ghost use Rattle.std.specs.Prelude.{true, ◌≡◌};
ghost use Rattle.model.specs.Geometry.{allowed};
ghost use Rattle.answers.specs.Told.{numbered};
ghost use Rattle.model.specs.Card.{most_flushes, first_lost, figured};

use answers::Reason;
use geometry::{flash_need, is_allowed, memory_need, page_capacity};
use model::{Card, Geometry};

// The most flushes that the puts cause on a fresh table.
fn most_flushes(g: Geometry, puts: u32) -> u32
    requires { allowed g ≡ true }
    ensures { result ≡ most_flushes g puts }
{
    if puts == 0 {
        return 0;
    }
    (puts - 1) / page_capacity(g) as u32
}

// The first put at which an earlier key can be lost.
fn first_lost(g: Geometry) -> u32
    requires { allowed g ≡ true }
    ensures { result ≡ first_lost g }
{
    (g.kept + 1) * page_capacity(g) as u32 + 1
}

// The figures of any geometry, or refusal 1 as in format.
pub fn figures(g: Geometry, puts: u32) -> Result<Card, Reason>
    ensures { numbered result ≡ figured g puts }
{
    if !is_allowed(g) {
        return Err(Reason::NotAllowed);
    }
    Ok(Card {
        memory: memory_need(g) as u64,
        flash: flash_need(g) as u64,
        flushes: most_flushes(g, puts) as u64,
        first_lost: first_lost(g) as u64,
    })
}
