// The search of a page, with a tally of what a get costs: it is lent to each search and grows with it.
#![tactic(auto)]

ghost use Rattle.std.specs.Prelude.{◌≡◌, ◌+◌, ◌*◌, ◌≤◌, ◌<◌, ◌^◌, length};
ghost use Rattle.model.specs.Page.{count_of, searched, compared};

use answers::Tally;

// The first used entry with the key; the comparisons up to there join the tally.
pub fn search(page: &[u8], key: u64, tally: &mut Tally) -> Option<usize>
    requires { (16 + 16 * count_of page.now ≤ length page.now) × (tally.old.comparisons + count_of page.now < 2 ^ 32) }
    ensures { (result ≡ searched key page.now) × (tally.new.reads ≡ tally.old.reads) × (tally.new.comparisons ≡ tally.old.comparisons + compared key page.now) }
{
    let entries = page::count(page);
    match page::search(page, key) {
        Some(i) => {
            tally.comparisons += i as u32;
            Some(i)
        }
        None => {
            tally.comparisons += entries as u32;
            None
        }
    }
}
