// The lookup in one partition: its list, its buffer, then its live batches in flash.
#![tactic(auto)]

ghost use Rattle.std.specs.Prelude.{false, ◌≡◌, ◌^◌, ◌≤◌, ◌<◌, length, None};
ghost use Rattle.model.specs.Geometry.{capacity, flash_need};
ghost use Rattle.model.specs.Partition.{head_of, passing};
ghost use Rattle.model.specs.Refusals.{head_overfull, key_overfull};
ghost use Rattle.model.specs.Get.{read_through, sought_in, sought};
ghost use Rattle.answers.specs.Told.{as_tally, answered};
ghost use Rattle.partition.specs.Ready.{Whole};

use answers::{Answer, Hit, Place, Reason, Refusal, Tally};
use head::Head;
use model::Geometry;

// Through the live batches whose filter passes, youngest first, up to the first entry with the key. The tally is that of the buffer page. The entries of a page are gone through from where its search stopped: at the key's, or behind the used ones.
pub fn read_through(
    part: &[u8],
    flash: &[u8],
    g: Geometry,
    key: u64,
    already: Tally,
) -> Result<Answer, Refusal>
    requires whole { Whole g part.now }
    requires part_value { head_overfull g (head_of part.now) ≡ false }
    requires g_in_bounds { flash_need g ≤ length flash.now }
    requires reads_value { already.reads ≡ 0 }
    requires comparisons_bound { already.comparisons ≤ capacity g }
    ensures { answered result ≡ read_through g key flash.now (passing g key part.now) (as_tally already) }
{
    let x = keys::mix(key);
    let t = keys::partition_of(g, key);
    let q = keys::page_of(g, key);
    let head = Head::read(part);
    let mut tally = already;
    let mut slot = head.flushes % g.kept;
    'batches: for age in 0..head.live {
        slot = geometry::slot_before(g, slot);
        if !filter::passes(part, g, slot, x) {
            continue 'batches;
        }
        tally.reads += 1;
        let n = head.flushes - age;
        let at = geometry::slot_page_at(g, t, slot, q);
        let is_expected = batch::is_expected_at(flash, at, g, t, n, q);
        if !is_expected {
            return Err(Refusal {
                reason: Reason::Unexpected,
                reads: tally.reads,
            });
        }
        let e = at + g.page as usize;
        let page = &flash[at..e];
        let behind = page::count(page) + 1;
        let stop = page_search::search(page, key, &mut tally).unwrap_or(behind);
        for i in stop..behind {
            if words::u64_at(page, 16 * i) == key {
                return Ok(Answer::Found(Hit {
                    value: page::value_at(page, i),
                    tally,
                    place: Place::Batch(n),
                }));
            }
        }
    }
    Ok(Answer::Absent(tally))
}

// The buffer page, then flash.
fn search_both(part: &[u8], flash: &[u8], g: Geometry, key: u64) -> Result<Answer, Refusal>
    requires whole { Whole g part.now }
    requires part_value { key_overfull g key part.now ≡ false }
    requires g_in_bounds { flash_need g ≤ length flash.now }
    ensures { answered result ≡ sought_in None g key part.now flash.now }
{
    let q = keys::page_of(g, key);
    let mut tally = Tally {
        reads: 0,
        comparisons: 0,
    };
    match buffer::search(part, g, q, key, &mut tally) {
        Some(i) => Ok(Answer::Found(Hit {
            value: buffer::value(part, g, q, i),
            tally,
            place: Place::Buffer,
        })),
        None => read_through(part, flash, g, key, tally),
    }
}

// The whole lookup: none for a listed key.
pub fn lookup(part: &[u8], flash: &[u8], g: Geometry, key: u64) -> Result<Answer, Refusal>
    requires whole { Whole g part.now }
    requires part_value { key_overfull g key part.now ≡ false }
    requires g_in_bounds { flash_need g ≤ length flash.now }
    ensures { answered result ≡ sought g key part.now flash.now }
{
    match list::find(part, g, key) {
        Some(_) => Ok(Answer::Absent(Tally {
            reads: 0,
            comparisons: 0,
        })),
        None => search_both(part, flash, g, key),
    }
}
