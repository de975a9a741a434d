// Where one page is shown; and the call view.
#![tactic(auto)]

ghost use Rattle.std.specs.Prelude.{true, false, ◌≡◌, ◌≤◌, ◌<◌, length};
ghost use Rattle.model.specs.Geometry.{allowed, partitions, flash_need};
ghost use Rattle.model.specs.View.{view_checks, page_shown, viewed};
ghost use Rattle.model.specs.Calls.{Call};
ghost use Rattle.answers.specs.Told as told;
ghost use Rattle.answers.specs.Performs.{Performs, Inside};
ghost use Rattle.opening.specs.Opened.{IsTable};
ghost use Rattle.partition.specs.Ready.{Whole};

use answers::{Reason, Refusal, Viewed};
use head::Head;
use model::Geometry;

// 12, 17.
pub fn decide(part: &[u8], g: Geometry, t: u32, q: u32, n: u32) -> Result<(), Reason>
    requires whole { Whole g part.now }
    requires t_bound { t < partitions g }
    requires q_lt_pages { q < g.pages }
    ensures { told.refusal result ≡ view_checks g t q n part.now }
{
    let head = Head::read(part);
    if head.is_overfull(g) {
        return Err(Reason::Overfull);
    }
    if n == 0 {
        if buffer::is_page_overfull(part, g, q) {
            return Err(Reason::Overfull);
        }
        return Ok(());
    }
    if !head.is_live(n) {
        return Err(Reason::NotLive);
    }
    Ok(())
}

// A page of a live batch; 13 where it is not the one expected.
fn locate_in_flash(flash: &[u8], g: Geometry, t: u32, q: u32, n: u32) -> Result<Viewed, Refusal>
    requires g_value { allowed g ≡ true }
    requires g_in_bounds { flash_need g ≤ length flash.now }
    requires t_bound { t < partitions g }
    requires q_lt_pages { q < g.pages }
    requires le_n { 1 ≤ n }
    ensures { told.viewed result ≡ page_shown false g t q n flash.now }
{
    let at = geometry::slot_page_at(g, t, geometry::slot_of(g, n), q);
    if batch::is_expected_at(flash, at, g, t, n, q) {
        return Ok(Viewed::Flash(at, g.page as usize));
    }
    Err(Refusal {
        reason: Reason::Unexpected,
        reads: 1,
    })
}

// Where the page begins.
pub fn locate(flash: &[u8], g: Geometry, t: u32, q: u32, n: u32) -> Result<Viewed, Refusal>
    requires g_value { allowed g ≡ true }
    requires g_in_bounds { flash_need g ≤ length flash.now }
    requires t_bound { t < partitions g }
    requires q_lt_pages { q < g.pages }
    ensures { told.viewed result ≡ viewed g t q n flash.now }
{
    if n == 0 {
        let at = geometry::partition_at(g, t) + geometry::buffer_at(g, q);
        return Ok(Viewed::Memory(at, g.page as usize));
    }
    locate_in_flash(flash, g, t, q, n)
}

// 4, then as the partition decides.
pub fn call(
    memory: &[u8],
    flash: &[u8],
    g: Geometry,
    t: u32,
    q: u32,
    n: u32,
) -> Result<Viewed, Refusal>
    requires { IsTable g memory.now flash.now }
    ensures performs { Performs (Call.view t q n) memory.now flash.now (told.viewed result) memory.now flash.now }
    ensures inside { Inside result memory.now flash.now }
{
    if geometry::partition_count(g) <= t {
        return Err(Reason::NoSuchPart.into());
    }
    if g.pages <= q {
        return Err(Reason::NoSuchPart.into());
    }
    decide(partition::part_of(memory, g, t), g, t, q, n)?;
    locate(flash, g, t, q, n)
}
