// Little-endian numbers in byte slices. A function for each width, and no trait: its three `impl`s would have these bodies, and each caller a type to write.
#![tactic(auto)]

ghost use Rattle.std.specs.Prelude.{◌≡◌, ◌+◌, ◌%◌, ◌≤◌, ◌<◌, length};
ghost use Rattle.std.proofs.lemmas.List.Edits.{sets};
ghost use Rattle.model.specs.Bytes.{word, write, zeros, mid};

pub fn u16_at(s: &[u8], at: usize) -> u16
    requires { at + 2 ≤ length s.now }
    ensures { result ≡ word 2 s.now at }
{
    u16::from_le_bytes([s[at], s[at + 1]])
}

pub fn u32_at(s: &[u8], at: usize) -> u32
    requires { at + 4 ≤ length s.now }
    ensures { result ≡ word 4 s.now at }
{
    u32::from_le_bytes([s[at], s[at + 1], s[at + 2], s[at + 3]])
}

pub fn u64_at(s: &[u8], at: usize) -> u64
    requires { at + 8 ≤ length s.now }
    ensures { result ≡ word 8 s.now at }
{
    (u32_at(s, at) as u64) + 4294967296 * (u32_at(s, at + 4) as u64)
}

pub fn write_u16(s: &mut [u8], at: usize, v: u16)
    requires { at + 2 ≤ length s.old }
    ensures { s.new ≡ write 2 v at s.old }
{
    s[at] = (v % 256) as u8;
    s[at + 1] = (v / 256 % 256) as u8;
}

pub fn write_u32(s: &mut [u8], at: usize, v: u32)
    requires { at + 4 ≤ length s.old }
    ensures { s.new ≡ write 4 v at s.old }
{
    write_u16(s, at, (v % 65536) as u16);
    write_u16(s, at + 2, (v / 65536) as u16);
}

pub fn write_u64(s: &mut [u8], at: usize, v: u64)
    requires { at + 8 ≤ length s.old }
    ensures { s.new ≡ write 8 v at s.old }
{
    write_u32(s, at, (v % 4294967296) as u32);
    write_u32(s, at + 4, (v / 4294967296) as u32);
}

// 16 bytes as two numbers, both read before one is written: LLVM makes one wide move of it, and has no overlap to ask about.
fn copy_pair(dst: &mut [u8], at: usize, src: &[u8], from: usize)
    requires at_in_bounds { at + 16 ≤ length dst.old }
    requires from_in_bounds { from + 16 ≤ length src.now }
    ensures { dst.new ≡ sets dst.old at (mid from 16 src.now) }
{
    let low = u64_at(src, from);
    let high = u64_at(src, from + 8);
    write_u64(dst, at, low);
    write_u64(dst, at + 8, high);
}

fn copy_block(dst: &mut [u8], at: usize, src: &[u8], from: usize)
    requires at_in_bounds { at + 64 ≤ length dst.old }
    requires from_in_bounds { from + 64 ≤ length src.now }
    ensures { dst.new ≡ sets dst.old at (mid from 64 src.now) }
{
    copy_pair(dst, at, src, from);
    copy_pair(dst, at + 16, src, from + 16);
    copy_pair(dst, at + 32, src, from + 32);
    copy_pair(dst, at + 48, src, from + 48);
}

// n bytes: the whole blocks of 64, then the rest.
pub fn copy(dst: &mut [u8], at: usize, src: &[u8], from: usize, n: usize)
    requires n_in_bounds { at + n ≤ length dst.old }
    requires n_in_bounds_2 { from + n ≤ length src.now }
    ensures { dst.new ≡ sets dst.old at (mid from n src.now) }
{
    for block in 0..n / 64 {
        copy_block(dst, at + 64 * block, src, from + 64 * block);
    }
    let done = 64 * (n / 64);
    if done < n {
        dst[at + done..at + n].copy_from_slice(&src[from + done..from + n]);
    }
}

pub fn move_down(s: &mut [u8], to: usize, from: usize, n: usize)
    requires to_le_from { to ≤ from }
    requires n_in_bounds { from + n ≤ length s.old }
    ensures { s.new ≡ sets s.old to (mid from n s.old) }
{
    for j in 0..n {
        s[to + j] = s[from + j];
    }
}

pub fn zero(s: &mut [u8], at: usize, n: usize)
    requires { at + n ≤ length s.old }
    ensures { s.new ≡ sets s.old at (zeros n) }
{
    s[at..at + n].fill(0);
}
