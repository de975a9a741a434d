// One partition's bytes, as a part of memory.
#![tactic(auto)]

ghost use Rattle.std.specs.Prelude.{true, ◌≡◌, ◌≤◌, ◌<◌, length};
ghost use Rattle.model.specs.Geometry.{allowed, partitions, memory_need};
ghost use Rattle.model.specs.Keys.{partition_of};
ghost use Rattle.model.specs.Partition.{partition};

use model::Geometry;

// Partition t, as a part of memory.
pub fn part_of(memory: &[u8], g: Geometry, t: u32) -> &[u8]
    requires g_value { allowed g ≡ true }
    requires g_in_bounds { memory_need g ≤ length memory.now }
    requires t_bound { t < partitions g }
    ensures { result.now ≡ partition g t memory.now }
{
    let a = geometry::partition_at(g, t);
    let e = a + geometry::partition_size(g);
    &memory[a..e]
}

pub fn part_of_key(memory: &[u8], g: Geometry, key: u64) -> &[u8]
    requires g_value { allowed g ≡ true }
    requires g_in_bounds { memory_need g ≤ length memory.now }
    ensures { result.now ≡ partition g (partition_of g key) memory.now }
{
    part_of(memory, g, keys::partition_of(g, key))
}
