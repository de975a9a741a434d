// Records of 16 bytes that open with a key: a page's entries and a delete list's places are both such records.
#![tactic(auto)]

ghost use Rattle.std.specs.Prelude.{◌≡◌, ◌+◌, ◌*◌, ◌≤◌, ◌<◌, eqb, length};
ghost use Rattle.model.specs.Search.{any_from};
ghost use Rattle.model.specs.Records.{first_record, closed_up};
ghost use Rattle.records.specs.Lacking.{has_key, Lacking};

// Has one of the four records that begin at `at` the key?
fn is_in_block(s: &[u8], at: usize, key: u64) -> bool
    requires { at + 64 ≤ length s.now }
    ensures { result ≡ any_from 4 0 (has_key key at s.now) }
{
    if words::u64_at(s, at) == key {
        return true;
    }
    if words::u64_at(s, at + 16) == key {
        return true;
    }
    if words::u64_at(s, at + 32) == key {
        return true;
    }
    words::u64_at(s, at + 48) == key
}

// Whole blocks of four records without the key are passed over, of the n records that begin at `at`: nearly all records are other keys.
pub fn skip(s: &[u8], at: usize, key: u64, n: usize) -> usize
    requires { at + 16 * n ≤ length s.now }
    ensures { Lacking key at s.now n result }
{
    let blocks = n / 4;
    for block in 0..blocks {
        if is_in_block(s, at + 64 * block, key) {
            return 4 * block;
        }
    }
    4 * blocks
}

// The first of the n records from `from` on that has the key.
pub fn search(s: &[u8], key: u64, n: usize, from: usize) -> Option<usize>
    requires { 16 * (from + n) ≤ length s.now }
    ensures { result ≡ first_record key n from s.now }
{
    let first = from + skip(s, 16 * from, key, n);
    for i in first..from + n {
        if words::u64_at(s, 16 * i) == key {
            return Some(i);
        }
    }
    None
}

// Record i leaves the n records from `from` on: the later ones move down, and the last place becomes zero.
pub fn remove(s: &mut [u8], i: usize, n: usize, from: usize)
    requires from_le_i { from ≤ i }
    requires i_bound { i < from + n }
    requires n_in_bounds { 16 * (from + n) ≤ length s.old }
    ensures { s.new ≡ closed_up (eqb i) n from s.old }
{
    let last = from + n - 1;
    words::move_down(s, 16 * i, 16 * i + 16, 16 * (last - i));
    words::zero(s, 16 * last, 16);
}
