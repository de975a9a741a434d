// The buffer pages of a partition, which are lent here and nowhere else.
#![tactic(auto)]

ghost use Rattle.std.specs.Prelude.{true, false, ◌≡◌, ◌+◌, ◌*◌, ◌^◌, ◌≤◌, ◌<◌};
ghost use Rattle.model.specs.Bytes.{within};
ghost use Rattle.model.specs.Geometry.{allowed, partitions, capacity, buffer_at};
ghost use Rattle.model.specs.Keys.{page_of};
ghost use Rattle.model.specs.Page.{count_of, value_at, searched, compared, taken, emptied};
ghost use Rattle.model.specs.Partition.{buffer_of};
ghost use Rattle.model.specs.Refusals.{page_overfull, key_overfull, some_page_overfull};
ghost use Rattle.model.specs.Format.{emptied_pages};
ghost use Rattle.model.specs.Flush.{in_use};
ghost use Rattle.model.specs.Put.{appends, buffered};
ghost use Rattle.model.specs.Del.{unbuffered};
ghost use Rattle.partition.specs.Ready.{Whole, Storable};

use answers::Tally;
use head::Head;
use model::Geometry;

// The count of page q.
pub fn count(part: &[u8], g: Geometry, q: u32) -> usize
    requires whole { Whole g part.now }
    requires q_lt_pages { q < g.pages }
    ensures { result ≡ count_of (buffer_of g part.now q) }
{
    words::u16_at(part, geometry::buffer_at(g, q)) as usize
}

pub fn is_page_overfull(part: &[u8], g: Geometry, q: u32) -> bool
    requires whole { Whole g part.now }
    requires q_lt_pages { q < g.pages }
    ensures { result ≡ page_overfull g part.now q }
{
    geometry::page_capacity(g) < count(part, g, q)
}

// 12 for a call with a key: does the head, or the key's buffer page, count more than there is room for?
pub fn is_key_overfull(part: &[u8], g: Geometry, key: u64) -> bool
    requires { Whole g part.now }
    ensures { result ≡ key_overfull g key part.now }
{
    Head::read(part).is_overfull(g) | is_page_overfull(part, g, keys::page_of(g, key))
}

pub fn is_some_page_overfull(part: &[u8], g: Geometry) -> bool
    requires { Whole g part.now }
    ensures { result ≡ some_page_overfull g part.now }
{
    for q in 0..g.pages {
        if is_page_overfull(part, g, q) {
            return true;
        }
    }
    false
}

// Has some page an entry?
pub fn is_in_use(part: &[u8], g: Geometry) -> bool
    requires { Whole g part.now }
    ensures { result ≡ in_use g part.now }
{
    for q in 0..g.pages {
        if count(part, g, q) != 0 {
            return true;
        }
    }
    false
}

// The first entry of the key in page q.
pub fn find(part: &[u8], g: Geometry, q: u32, key: u64) -> Option<usize>
    requires whole { Whole g part.now }
    requires q_lt_pages { q < g.pages }
    requires q_bound { count_of (buffer_of g part.now q) ≤ capacity g }
    ensures { result ≡ searched key (buffer_of g part.now q) }
{
    let a = geometry::buffer_at(g, q);
    let e = a + g.page as usize;
    page::search(&part[a..e], key)
}

// The same with a tally lent, which grows by what the search compares.
pub fn search(part: &[u8], g: Geometry, q: u32, key: u64, tally: &mut Tally) -> Option<usize>
    requires whole { Whole g part.now }
    requires q_lt_pages { q < g.pages }
    requires q_bound { count_of (buffer_of g part.now q) ≤ capacity g }
    requires g_bound { tally.old.comparisons + capacity g < 2 ^ 32 }
    ensures { (result ≡ searched key (buffer_of g part.now q)) × (tally.new.reads ≡ tally.old.reads) × (tally.new.comparisons ≡ tally.old.comparisons + compared key (buffer_of g part.now q)) }
{
    let a = geometry::buffer_at(g, q);
    let e = a + g.page as usize;
    page_search::search(&part[a..e], key, tally)
}

// The value of entry i of page q.
pub fn value(part: &[u8], g: Geometry, q: u32, i: usize) -> u64
    requires whole { Whole g part.now }
    requires q_lt_pages { q < g.pages }
    requires i_bound { 16 * i + 16 ≤ g.page }
    ensures { result ≡ value_at (buffer_of g part.now q) i }
{
    words::u64_at(part, geometry::buffer_at(g, q) + 16 * i + 8)
}

// Where the key's page begins.
fn page_at(g: Geometry, key: u64) -> usize
    requires { allowed g ≡ true }
    ensures { result ≡ buffer_at g (page_of g key) }
{
    geometry::buffer_at(g, keys::page_of(g, key))
}

// The key has the value in its page. Tells how many entries that adds.
pub fn store(part: &mut [u8], g: Geometry, key: u64, value: u64) -> u32
    requires whole { Whole g part.old }
    requires storable { Storable g key part.old }
    ensures { (part.new ≡ buffered g key value part.old) × (result ≡ appends g key part.old) }
{
    let a = page_at(g, key);
    let e = a + g.page as usize;
    page::store(&mut part[a..e], key, value)
}

// The key's first entry leaves its page. Tells how many entries that takes off.
pub fn drop_key(part: &mut [u8], g: Geometry, key: u64) -> u32
    requires whole { Whole g part.old }
    requires part_value { key_overfull g key part.old ≡ false }
    ensures { (part.new ≡ unbuffered g key part.old) × (result ≡ taken key (buffer_of g part.old (page_of g key))) }
{
    let a = page_at(g, key);
    let e = a + g.page as usize;
    page::drop_key(&mut part[a..e], key)
}

// Page q is emptied, as format leaves it.
pub fn empty_page(part: &mut [u8], g: Geometry, t: u32, q: u32)
    requires whole { Whole g part.old }
    requires t_bound { t < partitions g }
    requires q_lt_pages { q < g.pages }
    ensures { part.new ≡ within (buffer_at g q) g.page (emptied q t) part.old }
{
    let a = geometry::buffer_at(g, q);
    let e = a + g.page as usize;
    page::empty(&mut part[a..e], q as u16, t as u16);
}

// All of them.
pub fn empty_pages(part: &mut [u8], g: Geometry, t: u32)
    requires whole { Whole g part.old }
    requires t_bound { t < partitions g }
    ensures { part.new ≡ emptied_pages g t g.pages part.old }
{
    for q in 0..g.pages {
        empty_page(part, g, t, q);
    }
}
