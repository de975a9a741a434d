// A table's numbers: which are allowed, what they need, where everything begins; a batch's slot.
#![tactic(auto)]

ghost use Rattle.std.specs.Prelude.{true, ◌≡◌, ℕ, ◌+◌, ◌≤◌, ◌<◌};
ghost use Rattle.model.specs.Geometry.{is_power, allowed, partitions, capacity, most_entries, filter_size, filter_at, buffer_at, stride, partition_at, memory_need, slot_page_at, flash_need};
ghost use Rattle.model.specs.Partition.{slot};

use model::Geometry;

// Is n a power of two from 2^low to 2^high?
fn is_power(n: u32, low: u32, high: u32) -> bool
    requires low_le_high { low ≤ high }
    requires high_bound { high < 32 }
    ensures { result ≡ is_power low high n }
{
    if n < 1u32 << low {
        return false;
    }
    if n & (n - 1) != 0 {
        return false;
    }
    n <= 1u32 << high
}

pub fn is_allowed(g: Geometry) -> bool
    ensures { result ≡ allowed g }
{
    if 8 < g.parts {
        return false;
    }
    if g.kept < 1 {
        return false;
    }
    if 32 < g.kept {
        return false;
    }
    if g.hashes < 1 {
        return false;
    }
    if 8 < g.hashes {
        return false;
    }
    if g.list < 1 {
        return false;
    }
    if 1024 < g.list {
        return false;
    }
    if !is_power(g.page, 6, 12) {
        return false;
    }
    if !is_power(g.pages, 0, 6) {
        return false;
    }
    is_power(g.bits, 6, 16)
}

pub fn partition_count(g: Geometry) -> u32
    requires { allowed g ≡ true }
    ensures { result ≡ partitions g }
{
    1u32 << g.parts
}

// Entries that fit a page.
pub fn page_capacity(g: Geometry) -> usize
    requires { allowed g ≡ true }
    ensures { result ≡ capacity g }
{
    (g.page / 16 - 1) as usize
}

// Entries that a partition's buffer and live batches have room for.
pub fn most_entries(g: Geometry) -> u32
    requires { allowed g ≡ true }
    ensures { result ≡ most_entries g }
{
    (g.kept + 1) * g.pages * (g.page / 16 - 1)
}

pub fn filter_size(g: Geometry) -> u32
    ensures { result ≡ filter_size g }
{
    g.bits / 8
}

// Where slot j's filter begins in a partition. Summed in 32 bits, as LLVM sums it in the checks of a call, where it knows the numbers to be small: so a call makes the sum once.
pub fn filter_at(g: Geometry, j: u32) -> usize
    requires g_value { allowed g ≡ true }
    requires j_le_kept { j ≤ g.kept }
    ensures { result ≡ filter_at g j }
{
    (16 + 16 * g.list + j * filter_size(g)) as usize
}

// Where buffer page q begins in a partition, summed likewise.
pub fn buffer_at(g: Geometry, q: u32) -> usize
    requires g_value { allowed g ≡ true }
    requires q_le_pages { q ≤ g.pages }
    ensures { result ≡ buffer_at g q }
{
    (filter_at(g, g.kept) as u32 + q * g.page) as usize
}

// A partition's bytes.
pub fn partition_size(g: Geometry) -> usize
    requires { allowed g ≡ true }
    ensures { result ≡ stride g }
{
    buffer_at(g, g.pages)
}

// Where partition t begins in memory.
pub fn partition_at(g: Geometry, t: u32) -> usize
    requires g_value { allowed g ≡ true }
    requires t_bound { t ≤ partitions g }
    ensures { result ≡ partition_at g t }
{
    32 + t as usize * partition_size(g)
}

pub fn memory_need(g: Geometry) -> usize
    requires { allowed g ≡ true }
    ensures { result ≡ memory_need g }
{
    partition_at(g, partition_count(g))
}

// The slot of batch n.
pub fn slot_of(g: Geometry, n: u32) -> u32
    requires g_value { allowed g ≡ true }
    requires le_n { 1 ≤ n }
    ensures { result ≡ slot g n }
{
    (n - 1) % g.kept
}

// The slot of a batch, from that of the batch after it: a way down through the batches that divides nothing.
pub fn slot_before(g: Geometry, after: u32) -> u32
    requires { allowed g ≡ true }
    ensures { (n : ℕ) → 1 ≤ n → after ≡ slot g (n + 1) → result ≡ slot g n }
{
    if after == 0 {
        return g.kept - 1;
    }
    after - 1
}

// Where page q of slot j of partition t begins in flash.
pub fn slot_page_at(g: Geometry, t: u32, j: u32, q: u32) -> usize
    requires g_value { allowed g ≡ true }
    requires t_bound { t < partitions g }
    requires j_lt_kept { j < g.kept }
    requires q_lt_pages { q < g.pages }
    ensures { result ≡ slot_page_at g t j q }
{
    let slot = t as usize * g.kept as usize + j as usize;
    let block = slot * g.pages as usize + q as usize;
    block * g.page as usize
}

pub fn flash_need(g: Geometry) -> usize
    requires { allowed g ≡ true }
    ensures { result ≡ flash_need g }
{
    let slots = partition_count(g) as usize * g.kept as usize;
    slots * g.pages as usize * g.page as usize
}
