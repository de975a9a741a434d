// One page of a flush, written from the buffer into its slot directly.
#![tactic(auto)]

ghost use Rattle.std.specs.Prelude.{◌≡◌};
ghost use Rattle.model.specs.Partition.{partition};
ghost use Rattle.model.specs.Flush.{with_batch_page};
ghost use Rattle.page_writer.specs.Writable.{Writable};

use model::Geometry;

// Page q of partition t's buffer stands in its slot's page, with the new flush number n.
pub fn write(memory: &[u8], flash: &mut [u8], g: Geometry, t: u32, q: u32, n: u32)
    requires { Writable g t q n memory.now flash.old }
    ensures { flash.new ≡ with_batch_page g t (partition g t memory.now) q flash.old }
{
    let part = partition::part_of(memory, g, t);
    let j = geometry::slot_of(g, n);
    let at = geometry::slot_page_at(g, t, j, q);
    let from = geometry::buffer_at(g, q);
    batch::copy_numbered(flash, at, part, from, g.page as usize, n);
}
