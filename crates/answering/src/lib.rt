// Which entries of a partition a get answers with. Each is decided by its key: by the list, the buffer page, the younger filters and the pages behind those that pass.
#![tactic(auto)]

ghost use Rattle.std.specs.Prelude.{true, not, ◌&&◌, ◌≡◌, ◌-◌};
ghost use Rattle.model.specs.Search.{is_some};
ghost use Rattle.model.specs.Keys.{partition_of, page_of, mixed};
ghost use Rattle.model.specs.Records.{key_at};
ghost use Rattle.model.specs.Page.{searched};
ghost use Rattle.model.specs.Partition.{head_of, flushes_of, live_of, is_live, batch_passes};
ghost use Rattle.model.specs.Batch.{batch_page};
ghost use Rattle.model.specs.Answers.{batch};
ghost use Rattle.model.specs.PartitionText.{is_found_in, answers_in};
ghost use Rattle.answers.specs.Told as told;
ghost use Rattle.answering.specs.Younger.{read_among, sought_among, is_absent};
ghost use Rattle.sources.specs.Readable.{Readable, IsSpot, spot_page, spot_answers};

use answers::Place;
use head::Head;
use model::Geometry;
use page_reader::Entry;
use sources::Spot;

// Has batch n the key, by its filter and then by its page? x is the key, mixed.
fn has_key(part: &[u8], flash: &[u8], g: Geometry, t: u32, n: u32, key: u64, x: u64) -> bool
    requires readable { Readable g t part.now flash.now }
    requires n_value { is_live (head_of part.now) n ≡ true }
    requires x_value { x ≡ mixed key }
    ensures { result ≡ batch_passes g key part.now n && is_some (searched key (batch_page g t flash.now n (page_of g key))) }
{
    let slot = geometry::slot_of(g, n);
    if !filter::passes(part, g, slot, x) {
        return false;
    }
    let a = geometry::slot_page_at(g, t, slot, keys::page_of(g, key));
    let e = a + g.page as usize;
    page::search(&flash[a..e], key).is_some()
}

// Does a batch younger than batch n answer a get of the key? A get's own search is not asked: with a second caller it would be compiled as a call.
fn is_superseded(part: &[u8], flash: &[u8], g: Geometry, t: u32, n: u32, key: u64) -> bool
    requires readable { Readable g t part.now flash.now }
    requires n_value { is_live (head_of part.now) n ≡ true }
    requires key_value { partition_of g key ≡ t }
    ensures { result ≡ not (is_absent (read_among g (flushes_of part.now - n) key part.now flash.now)) }
{
    let x = keys::mix(key);
    let younger = Head::read(part).flushes - n;
    for age in 0..younger {
        if has_key(part, flash, g, t, n + younger - age, key, x) {
            return true;
        }
    }
    false
}

// Batch n holds the key, which is not listed: is it the batch that a get answers from? Neither the buffer nor a younger batch does, and its own filter passes.
fn is_batch_asked(part: &[u8], flash: &[u8], g: Geometry, t: u32, n: u32, key: u64) -> bool
    requires readable { Readable g t part.now flash.now }
    requires n_value { is_live (head_of part.now) n ≡ true }
    requires key_value { partition_of g key ≡ t }
    requires key_value_2 { is_some (searched key (batch_page g t flash.now n (page_of g key))) ≡ true }
    ensures { result ≡ is_found_in (batch n) (sought_among g (live_of part.now) key part.now flash.now) }
{
    if buffer::find(part, g, keys::page_of(g, key), key).is_some() {
        return false;
    }
    if is_superseded(part, flash, g, t, n, key) {
        return false;
    }
    filter::passes(part, g, geometry::slot_of(g, n), keys::mix(key))
}

// Is the page there, which holds the key, the one that a get of the key answers from?
fn answers_in(part: &[u8], flash: &[u8], g: Geometry, spot: Spot, key: u64) -> bool
    requires spot { IsSpot g spot part.now flash.now }
    requires flash_value { is_some (searched key (spot_page g spot part.now flash.now)) ≡ true }
    ensures { result ≡ answers_in g spot.partition part.now flash.now (told.place spot.at) spot.page key }
{
    if keys::partition_of(g, key) != spot.partition {
        return false;
    }
    if keys::page_of(g, key) != spot.page {
        return false;
    }
    if list::find(part, g, key).is_some() {
        return false;
    }
    match spot.at {
        Place::Buffer => true,
        Place::Batch(n) => is_batch_asked(part, flash, g, spot.partition, n, key),
    }
}

// Is the entry of the page there the one that a get of its key answers with?
pub fn answers_with(
    part: &[u8],
    flash: &[u8],
    g: Geometry,
    spot: Spot,
    page: &[u8],
    entry: Entry,
) -> bool
    requires spot { IsSpot g spot part.now flash.now }
    requires page_value { page.now ≡ spot_page g spot part.now flash.now }
    requires key_value { entry.key ≡ key_at page.now entry.place }
    ensures { result ≡ spot_answers g spot part.now flash.now entry.place }
{
    match page::search(page, entry.key) {
        Some(first) => first == entry.place && answers_in(part, flash, g, spot, entry.key),
        None => false,
    }
}
