// A batch that goes, by a flush or a drop: the heads of its pages are read before anything is written, for its entries leave the total.
#![tactic(auto)]

ghost use Rattle.std.specs.Prelude.{true, false, ◌≡◌, ◌≤◌, ◌<◌, length};
ghost use Rattle.model.specs.Geometry.{allowed, partitions, flash_need};
ghost use Rattle.model.specs.Partition.{head_of, flushes_of, slot};
ghost use Rattle.model.specs.Refusals.{head_overfull, last_flush};
ghost use Rattle.partition.specs.Ready.{Whole};
ghost use Rattle.answers.specs.Told.{told};
ghost use Rattle.outgoing.specs.Leaving.{heads_of, outgoing_of, leaving_for};

use answers::{Reason, Refusal};
use head::Head;
use model::Geometry;

// 13, or the entries of batch n, in slot j, by the heads of its pages.
pub fn read_heads(flash: &[u8], g: Geometry, t: u32, n: u32, j: u32) -> Result<u32, Refusal>
    requires g_value { allowed g ≡ true }
    requires g_in_bounds { flash_need g ≤ length flash.now }
    requires t_bound { t < partitions g }
    requires j_value { j ≡ slot g n }
    ensures { told result ≡ heads_of g t n flash.now }
{
    let mut entries: u32 = 0;
    for q in 0..g.pages {
        let at = geometry::slot_page_at(g, t, j, q);
        if !batch::is_expected_at(flash, at, g, t, n, q) {
            return Err(Refusal {
                reason: Reason::Unexpected,
                reads: q + 1,
            });
        }
        entries += words::u16_at(flash, at) as u32;
    }
    Ok(entries)
}

// 13, or the entries of the batch that a flush pushes out, if it does: the new batch takes its slot.
fn read_outgoing(part: &[u8], flash: &[u8], g: Geometry, t: u32) -> Result<u32, Refusal>
    requires whole { Whole g part.now }
    requires part_value { head_overfull g (head_of part.now) ≡ false }
    requires g_in_bounds { flash_need g ≤ length flash.now }
    requires t_bound { t < partitions g }
    requires part_bound { flushes_of part.now < last_flush }
    ensures { told result ≡ outgoing_of g t part.now flash.now }
{
    let head = Head::read(part);
    let j = geometry::slot_of(g, head.flushes + 1);
    if head.live < g.kept {
        return Ok(0);
    }
    read_heads(flash, g, t, head.flushes - head.live + 1, j)
}

// 16, 13, 12: of a flush that is due, in a call that adds `more` entries.
pub fn decide(part: &[u8], flash: &[u8], g: Geometry, t: u32, more: u32) -> Result<u32, Refusal>
    requires whole { Whole g part.now }
    requires part_value { head_overfull g (head_of part.now) ≡ false }
    requires g_in_bounds { flash_need g ≤ length flash.now }
    requires t_bound { t < partitions g }
    requires more_bound { more ≤ 1 }
    ensures { told result ≡ leaving_for g t more part.now flash.now }
{
    let head = Head::read(part);
    if head.flushes == 4294967295 {
        return Err(Reason::LastFlush.into());
    }
    let less = read_outgoing(part, flash, g, t)?;
    if head.is_total_out(g, more, less) {
        return Err(Reason::Overfull.into());
    }
    Ok(less)
}
