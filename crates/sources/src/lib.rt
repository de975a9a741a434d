// The places of a partition that hold entries: its live batches, oldest first, then its buffer.
#![tactic(auto)]

ghost use Rattle.std.specs.Prelude.{true, false, ◌≡◌, ◌≤◌, ◌<◌, length};
ghost use Rattle.model.specs.Geometry.{allowed, partitions, flash_need};
ghost use Rattle.model.specs.Search.{is_some};
ghost use Rattle.model.specs.Partition.{head_of};
ghost use Rattle.model.specs.Batch.{failed_page};
ghost use Rattle.model.specs.Refusals.{head_overfull};
ghost use Rattle.model.specs.PartitionText.{source, some_batch_fails};
ghost use Rattle.answers.specs.Told as told;
ghost use Rattle.partition.specs.Ready.{Whole};
ghost use Rattle.sources.specs.Readable.{IsSpot, spot_page};

use answers::Place;
use head::Head;
use model::Geometry;

// A page of one of them.
#[derive(Clone, Copy)]
pub struct Spot {
    pub partition: u32,
    pub at: Place,
    pub page: u32,
}

// The i-th of them.
pub fn source(part: &[u8], g: Geometry, i: u32) -> Place
    requires whole { Whole g part.now }
    requires part_value { head_overfull g (head_of part.now) ≡ false }
    ensures { told.place result ≡ source (head_of part.now) i }
{
    let head = Head::read(part);
    let live = head.live;
    if i < live {
        return Place::Batch(head.flushes - live + 1 + i);
    }
    Place::Buffer
}

// The page there.
pub fn page_at<'a>(part: &'a [u8], flash: &'a [u8], g: Geometry, spot: Spot) -> &'a [u8]
    requires { IsSpot g spot part.now flash.now }
    ensures { result.now ≡ spot_page g spot part.now flash.now }
{
    let q = spot.page;
    let at = spot.at;
    match at {
        Place::Buffer => {
            let a = geometry::buffer_at(g, q);
            let e = a + g.page as usize;
            &part[a..e]
        }
        Place::Batch(n) => {
            let a = geometry::slot_page_at(g, spot.partition, geometry::slot_of(g, n), q);
            let e = a + g.page as usize;
            &flash[a..e]
        }
    }
}

// Is some page of batch n not the one expected?
fn is_failed(flash: &[u8], g: Geometry, t: u32, n: u32) -> bool
    requires g_value { allowed g ≡ true }
    requires g_in_bounds { flash_need g ≤ length flash.now }
    requires t_bound { t < partitions g }
    requires le_n { 1 ≤ n }
    ensures { result ≡ is_some (failed_page g t flash.now n) }
{
    let slot = geometry::slot_of(g, n);
    for q in 0..g.pages {
        let at = geometry::slot_page_at(g, t, slot, q);
        if !batch::is_expected_at(flash, at, g, t, n, q) {
            return true;
        }
    }
    false
}

// 13: of some live batch.
pub fn is_some_failed(part: &[u8], flash: &[u8], g: Geometry, t: u32) -> bool
    requires whole { Whole g part.now }
    requires part_value { head_overfull g (head_of part.now) ≡ false }
    requires g_in_bounds { flash_need g ≤ length flash.now }
    requires t_bound { t < partitions g }
    ensures { result ≡ some_batch_fails g t part.now flash.now }
{
    let head = Head::read(part);
    let count = head.live;
    let dead = head.flushes - count;
    for i in 0..count {
        if is_failed(flash, g, t, dead + 1 + i) {
            return true;
        }
    }
    false
}
