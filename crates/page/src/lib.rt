// One page: a head of 16 bytes, then its entries, the records 1 to count.
#![tactic(auto)]

ghost use Rattle.std.specs.Prelude.{◌≡◌, ◌+◌, ◌*◌, ◌≤◌, length, None};
ghost use Rattle.model.specs.Page.{count_of, value_at, searched, appended, replaced, removed, stored, added, without, taken, emptied};

pub fn count(page: &[u8]) -> usize
    requires { 16 ≤ length page.now }
    ensures { result ≡ count_of page.now }
{
    words::u16_at(page, 0) as usize
}

pub fn value_at(page: &[u8], i: usize) -> u64
    requires { 16 * i + 16 ≤ length page.now }
    ensures { result ≡ value_at page.now i }
{
    words::u64_at(page, 16 * i + 8)
}

// The first used entry with the key.
pub fn search(page: &[u8], key: u64) -> Option<usize>
    requires { 16 + 16 * count_of page.now ≤ length page.now }
    ensures { result ≡ searched key page.now }
{
    records::search(page, key, count(page), 1)
}

#[tactic(auto, unfolding(model::specs::Page::appended))]
pub fn append(page: &mut [u8], key: u64, value: u64)
    requires page_in_bounds { 32 + 16 * count_of page.old ≤ length page.old }
    requires page_len_bound { length page.old ≤ 4096 }
    ensures { page.new ≡ appended key value page.old }
{
    let n = count(page) + 1;
    words::write_u64(page, 16 * n, key);
    words::write_u64(page, 16 * n + 8, value);
    words::write_u16(page, 0, n as u16);
}

#[tactic(auto, unfolding(model::specs::Page::replaced))]
pub fn replace(page: &mut [u8], i: usize, value: u64)
    requires { 16 * i + 16 ≤ length page.old }
    ensures { page.new ≡ replaced i value page.old }
{
    words::write_u64(page, 16 * i + 8, value);
}

// Entry i leaves; the later ones move down.
#[tactic(auto, unfolding(model::specs::Page::removed))]
pub fn remove(page: &mut [u8], i: usize)
    requires le_i { 1 ≤ i }
    requires i_bound { i ≤ count_of page.old }
    requires page_in_bounds { 16 + 16 * count_of page.old ≤ length page.old }
    ensures { page.new ≡ removed i page.old }
{
    let n = words::u16_at(page, 0);
    records::remove(page, i, n as usize, 1);
    words::write_u16(page, 0, n - 1);
}

// The key gets the value: in its first place, or in a new one. Tells how many entries that adds.
pub fn store(page: &mut [u8], key: u64, value: u64) -> u32
    requires page_in_bounds { 16 + 16 * count_of page.old ≤ length page.old }
    requires page_in_bounds_2 { searched key page.old ≡ None → 32 + 16 * count_of page.old ≤ length page.old }
    requires page_len_bound { length page.old ≤ 4096 }
    ensures { (page.new ≡ stored key value page.old) × (result ≡ added key page.old) }
{
    match search(page, key) {
        Some(i) => {
            replace(page, i, value);
            0
        }
        None => {
            append(page, key, value);
            1
        }
    }
}

// The key's first entry leaves, if it has one. Tells how many entries that takes off.
pub fn drop_key(page: &mut [u8], key: u64) -> u32
    requires { 16 + 16 * count_of page.old ≤ length page.old }
    ensures { (page.new ≡ without key page.old) × (result ≡ taken key page.old) }
{
    match search(page, key) {
        Some(i) => {
            remove(page, i);
            1
        }
        None => 0,
    }
}

pub fn empty(page: &mut [u8], number: u16, partition: u16)
    requires { 16 ≤ length page.old }
    ensures { page.new ≡ emptied number partition page.old }
{
    let n = page.len();
    words::zero(page, 0, n);
    words::write_u16(page, 2, number);
    words::write_u16(page, 4, partition);
}
