// One page of a batch, in flash: written with its flush number, and its head examined.
#![tactic(auto)]

ghost use Rattle.std.specs.Prelude.{true, ◌≡◌, ◌+◌, ◌≤◌, length};
ghost use Rattle.model.specs.Bytes.{mid, within};
ghost use Rattle.model.specs.Geometry.{allowed};
ghost use Rattle.model.specs.Page.{numbered, expected};

use model::Geometry;

// The page of `size` bytes at `from` in `src` stands at `at` in `dst`, with its flush number.
pub fn copy_numbered(dst: &mut [u8], at: usize, src: &[u8], from: usize, size: usize, flush: u32)
    requires size_in_bounds { at + size ≤ length dst.old }
    requires size_in_bounds_2 { from + size ≤ length src.now }
    requires le_size { 64 ≤ size }
    ensures { dst.new ≡ within at size (λ _. numbered flush (mid from size src.now)) dst.old }
{
    words::copy(dst, at, src, from, size);
    words::write_u32(dst, at + 8, flush);
}

// Is the head that of page `number` of batch `batch` of `partition`? `&` asks all five without a branch.
fn is_expected(page: &[u8], g: Geometry, partition: u32, batch: u32, number: u32) -> bool
    requires in_bounds { 16 ≤ length page.now }
    requires le_page { 32 ≤ g.page }
    ensures { result ≡ expected g partition batch number page.now }
{
    let entries = g.page / 16 - 1;
    (words::u16_at(page, 0) as u32 <= entries)
        & (words::u16_at(page, 2) as u32 == number)
        & (words::u16_at(page, 4) as u32 == partition)
        & (words::u16_at(page, 6) == 0)
        & (words::u32_at(page, 8) == batch)
}

// The same of the page that begins at `at` in flash.
pub fn is_expected_at(
    flash: &[u8],
    at: usize,
    g: Geometry,
    partition: u32,
    batch: u32,
    number: u32,
) -> bool
    requires g_value { allowed g ≡ true }
    requires page_in_bounds { at + g.page ≤ length flash.now }
    ensures { result ≡ expected g partition batch number (mid at g.page flash.now) }
{
    let e = at + g.page as usize;
    is_expected(&flash[at..e], g, partition, batch, number)
}
