// The list of deleted keys: places of 16 bytes (key 8, stamp 4, zero 4), of which the first n are used.
#![tactic(auto)]

ghost use Rattle.std.specs.Prelude.{◌≡◌, ◌+◌, ◌*◌, ◌≤◌, ◌<◌, length};
ghost use Rattle.model.specs.DeleteList.{listed_at, enlisted, struck, expired, unexpired};

// The first entry of the key.
pub fn find(list: &[u8], n: usize, key: u64) -> Option<usize>
    requires { 16 * n ≤ length list.now }
    ensures { result ≡ listed_at n key list.now }
{
    records::search(list, key, n, 0)
}

// The key is listed last, with its stamp.
pub fn enlist(list: &mut [u8], n: usize, key: u64, stamp: u32)
    requires { 16 * n + 16 ≤ length list.old }
    ensures { list.new ≡ enlisted n key stamp list.old }
{
    words::write_u64(list, 16 * n, key);
    words::write_u32(list, 16 * n + 8, stamp);
    words::write_u32(list, 16 * n + 12, 0);
}

// Entry i of the n leaves.
pub fn strike(list: &mut [u8], i: usize, n: usize)
    requires i_lt_n { i < n }
    requires n_in_bounds { 16 * n ≤ length list.old }
    ensures { list.new ≡ struck i n list.old }
{
    records::remove(list, i, n, 0);
}

// The entries stamped flushes + 1 - back leave; tells how many stay.
pub fn expire(list: &mut [u8], n: usize, back: u32, flushes: u32) -> usize
    requires { 16 * n ≤ length list.old }
    ensures { (list.new ≡ expired back flushes n list.old) × (result ≡ unexpired back flushes n list.old) }
{
    let last = flushes as u64 + 1;
    let mut stay = 0;
    for i in 0..n {
        let stamp = words::u32_at(list, 16 * i + 8) as u64;
        if stamp + back as u64 != last {
            words::move_down(list, 16 * stay, 16 * i, 16);
            stay += 1;
        }
    }
    words::zero(list, 16 * stay, 16 * (n - stay));
    stay
}
