// The list of deleted keys of a partition, which is lent here and nowhere else.
#![tactic(auto)]

ghost use Rattle.std.specs.Prelude.{false, ◌≡◌, ◌≤◌, ◌<◌};
ghost use Rattle.model.specs.Bytes.{within};
ghost use Rattle.model.specs.Geometry.{list_at, list_size};
ghost use Rattle.model.specs.DeleteList.{listed_at, enlisted, struck, unexpired};
ghost use Rattle.model.specs.Partition.{head_of, listed_of, list_of};
ghost use Rattle.model.specs.Refusals.{head_overfull};
ghost use Rattle.model.specs.Batch.{delisted};
ghost use Rattle.partition.specs.Ready.{Whole};

use head::Head;
use model::Geometry;

// The first entry of the key. Most lists are empty, and only one that is not is searched.
pub fn find(part: &[u8], g: Geometry, key: u64) -> Option<usize>
    requires whole { Whole g part.now }
    requires part_value { head_overfull g (head_of part.now) ≡ false }
    ensures { result ≡ listed_at (listed_of part.now) key (list_of g part.now) }
{
    let n = Head::read(part).listed as usize;
    if n == 0 {
        return None;
    }
    let e = 16 + 16 * g.list as usize;
    deletes::find(&part[16..e], n, key)
}

// Entry i of the n listed keys leaves.
pub fn strike(part: &mut [u8], g: Geometry, i: usize, n: usize)
    requires whole { Whole g part.old }
    requires i_lt_n { i < n }
    requires n_le_list { n ≤ g.list }
    ensures { part.new ≡ within list_at (list_size g) (struck i n) part.old }
{
    let e = 16 + 16 * g.list as usize;
    deletes::strike(&mut part[16..e], i, n);
}

// The key stands in place n, with the stamp.
pub fn enlist(part: &mut [u8], g: Geometry, n: usize, key: u64, stamp: u32)
    requires whole { Whole g part.old }
    requires n_lt_list { n < g.list }
    ensures { part.new ≡ within list_at (list_size g) (enlisted n key stamp) part.old }
{
    let e = 16 + 16 * g.list as usize;
    deletes::enlist(&mut part[16..e], n, key, stamp);
}

// The entries stamped flushes + 1 - back leave; tells how many stay.
pub fn expire(part: &mut [u8], g: Geometry, back: u32, flushes: u32, listed: u32) -> usize
    requires whole { Whole g part.old }
    requires listed_le_list { listed ≤ g.list }
    ensures { (part.new ≡ delisted g back flushes listed part.old) × (result ≡ unexpired back flushes listed (list_of g part.old)) }
{
    let e = 16 + 16 * g.list as usize;
    deletes::expire(&mut part[16..e], listed as usize, back, flushes)
}
