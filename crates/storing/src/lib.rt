// A key stored in its partition: it has the value, and is listed no more.
#![tactic(auto)]

ghost use Rattle.std.specs.Prelude.{true, false, ◌≡◌, ◌+◌, ◌≤◌, length};
ghost use Rattle.model.specs.Bytes.{within};
ghost use Rattle.model.specs.Geometry.{allowed, stride, partition_at, memory_need};
ghost use Rattle.model.specs.Keys.{partition_of};
ghost use Rattle.model.specs.Partition.{head_of, totalled, total_of, partition};
ghost use Rattle.model.specs.Refusals.{head_overfull};
ghost use Rattle.model.specs.Put.{appends, unlisted, buffered};
ghost use Rattle.partition.specs.Ready.{Whole, Storable};

use head::Head;
use model::Geometry;

// The key's first list entry leaves, if it has one.
fn unlist(part: &mut [u8], g: Geometry, key: u64)
    requires whole { Whole g part.old }
    requires part_value { head_overfull g (head_of part.old) ≡ false }
    ensures { part.new ≡ unlisted g key part.old }
{
    let head = Head::read(part);
    match list::find(part, g, key) {
        Some(i) => {
            list::strike(part, g, i, head.listed as usize);
            head::put_back(part, head.unlisted(1));
        }
        None => {}
    }
}

// The key has the value, and is listed no more; the total has the entry more, where it is new, and `less` entries less.
fn store_unlisted(part: &mut [u8], g: Geometry, key: u64, value: u64, less: u32)
    requires whole { Whole g part.old }
    requires storable { Storable g key part.old }
    requires less_bound { less ≤ total_of part.old + appends g key part.old }
    ensures { part.new ≡ totalled (appends g key part.old) less (unlisted g key (buffered g key value part.old)) }
{
    let more = buffer::store(part, g, key, value);
    unlist(part, g, key);
    head::change_total(part, more, less);
}

// The same in the key's partition of memory.
pub fn store_unlisted_at(memory: &mut [u8], g: Geometry, key: u64, value: u64, less: u32)
    requires g_value { allowed g ≡ true }
    requires g_in_bounds { memory_need g ≤ length memory.old }
    requires storable { Storable g key (partition g (partition_of g key) memory.old) }
    requires less_bound { less ≤ total_of (partition g (partition_of g key) memory.old) + appends g key (partition g (partition_of g key) memory.old) }
    ensures { memory.new ≡ within (partition_at g (partition_of g key)) (stride g) (λ p. totalled (appends g key p) less (unlisted g key (buffered g key value p))) memory.old }
{
    let a = keys::key_partition_at(g, key);
    let e = a + geometry::partition_size(g);
    store_unlisted(&mut memory[a..e], g, key, value, less);
}
