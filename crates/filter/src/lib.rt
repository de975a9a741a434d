// The Bloom filters of a partition, by slot. A key comes mixed, since one mixing serves many filters.
#![tactic(auto)]

ghost use Rattle.std.specs.Prelude.{true, ◌≡◌, ℕ, ◌+◌, ◌*◌, ◌≤◌, ◌<◌, length};
ghost use Rattle.model.specs.Bytes.{mid, within};
ghost use Rattle.model.specs.Geometry.{allowed, capacity, filter_size, filter_at, stride};
ghost use Rattle.model.specs.Keys.{bit_of};
ghost use Rattle.model.specs.Page.{count_of};
ghost use Rattle.model.specs.Filter.{passes, with_bits, with_entries, filter_for};
ghost use Rattle.model.specs.Partition.{buffer_of, slot_bits};

use model::Geometry;

// Where bit i of a key is.
fn bit_of(g: Geometry, x: u64, i: u32) -> usize
    requires g_value { allowed g ≡ true }
    requires i_lt_hashes { i < g.hashes }
    ensures { result ≡ bit_of g x i }
{
    let step = (x >> 32) | 1;
    let place = x % 4294967296 + i as u64 * step;
    (place & (g.bits as u64 - 1)) as usize
}

// Does slot j's filter of a partition pass the key?
pub fn passes(part: &[u8], g: Geometry, j: u32, x: u64) -> bool
    requires g_value { allowed g ≡ true }
    requires j_lt_kept { j < g.kept }
    requires part_len { length part.now ≡ stride g }
    ensures { result ≡ passes g x (slot_bits g part.now j) }
{
    let at = geometry::filter_at(g, j);
    for i in 0..g.hashes {
        let b = bit_of(g, x, i);
        if (part[at + b / 8] >> (b % 8)) % 2 == 0 {
            return false;
        }
    }
    true
}

// The key's bits are set.
fn add_key(s: &mut [u8], at: usize, g: Geometry, x: u64)
    requires g_value { allowed g ≡ true }
    requires g_in_bounds { at + filter_size g ≤ length s.old }
    ensures { s.new ≡ within at (filter_size g) (with_bits g x g.hashes) s.old }
{
    for bit in 0..g.hashes {
        let b = bit_of(g, x, bit);
        let byte = at + b / 8;
        s[byte] = s[byte] | (1u8 << (b % 8));
    }
}

// The bits of the used entries of the page that begins at `page`, behind the filter, are set.
fn add_page(s: &mut [u8], at: usize, g: Geometry, page: usize)
    requires g_value { allowed g ≡ true }
    requires g_bound { at + filter_size g ≤ page }
    requires page_in_bounds { page + g.page ≤ length s.old }
    requires s_bound { count_of (mid page g.page s.old) ≤ capacity g }
    ensures { s.new ≡ within at (filter_size g) (with_entries g (mid page g.page s.old) (count_of (mid page g.page s.old))) s.old }
{
    let n = words::u16_at(s, page) as usize;
    for entry in 0..n {
        let key = words::u64_at(s, page + 16 * (entry + 1));
        add_key(s, at, g, keys::mix(key));
    }
}

// Slot j's filter of a partition is made new: the bits of the used entries of all buffer pages, and no others.
pub fn make(part: &mut [u8], g: Geometry, j: u32)
    requires g_value { allowed g ≡ true }
    requires j_lt_kept { j < g.kept }
    requires part_len { length part.old ≡ stride g }
    requires by_index { (q : ℕ) → q < g.pages → count_of (buffer_of g part.old q) ≤ capacity g }
    ensures { part.new ≡ within (filter_at g j) (filter_size g) (λ _. filter_for g (buffer_of g part.old)) part.old }
{
    let at = geometry::filter_at(g, j);
    let size = geometry::filter_size(g) as usize;
    words::zero(part, at, size);
    for q in 0..g.pages {
        add_page(part, at, g, geometry::buffer_at(g, q));
    }
}
