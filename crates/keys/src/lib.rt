// A key's partition, its mixed form and its page.
#![tactic(auto)]

ghost use Rattle.std.specs.Prelude.{true, ◌≡◌};
ghost use Rattle.model.specs.Geometry.{allowed, partition_at};
ghost use Rattle.model.specs.Keys.{partition_of, page_of, mixed};

use model::Geometry;

// The key's top bits. Two shifts, since with one partition the one shift would be by 64.
pub fn partition_of(g: Geometry, key: u64) -> u32
    requires { allowed g ≡ true }
    ensures { result ≡ partition_of g key }
{
    ((key >> 1) >> (63 - g.parts)) as u32
}

// Where the key's partition begins in memory.
pub fn key_partition_at(g: Geometry, key: u64) -> usize
    requires { allowed g ≡ true }
    ensures { result ≡ partition_at g (partition_of g key) }
{
    geometry::partition_at(g, partition_of(g, key))
}

// Marsaglia's xorshift.
pub fn mix(key: u64) -> u64
    ensures { result ≡ mixed key }
{
    let a = key ^ (key << 13);
    let b = a ^ (a >> 7);
    b ^ (b << 17)
}

// Bits 48 to 63 of the mixed key, modulo a power of two.
pub fn page_of(g: Geometry, key: u64) -> u32
    requires { allowed g ≡ true }
    ensures { result ≡ page_of g key }
{
    let x = mix(key);
    (x >> 48) as u32 & (g.pages - 1)
}
