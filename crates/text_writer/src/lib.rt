// A partition's text, written into an area as far as it has room; each function tells where its text ends, in the area or behind it.
#![tactic(auto)]

ghost use Rattle.std.specs.Prelude.{◌≡◌, ◌+◌, ◌^◌, ◌<◌, ◌≤◌, length};
ghost use Rattle.std.proofs.lemmas.List.Edits.{sets};
ghost use Rattle.model.specs.Partition.{head_of};
ghost use Rattle.model.specs.PartitionText.{source_text, partition_text};
ghost use Rattle.answers.specs.Told as told;
ghost use Rattle.page_reader.specs.Steps.{entry_of};
ghost use Rattle.text_writer.specs.Fitting.{PutsIfFits};
ghost use Rattle.sources.specs.Readable.{Readable, IsSource, IsSpot, spot_page, spot_line, spot_text};

use answers::Place;
use head::Head;
use model::Geometry;
use page_reader::Entry;
use sources::Spot;

// The entry's line, if it has one.
fn write_entry(
    text: &mut [u8],
    from: usize,
    part: &[u8],
    flash: &[u8],
    g: Geometry,
    spot: Spot,
    page: &[u8],
    entry: Entry,
) -> usize
    requires spot { IsSpot g spot part.now flash.now }
    requires page_value { page.now ≡ spot_page g spot part.now flash.now }
    requires value { entry ≡ entry_of page.now entry.place }
    requires bound { from + length (spot_line g spot part.now flash.now entry.place) < 2 ^ 64 }
    ensures { PutsIfFits (spot_line g spot part.now flash.now entry.place) from text.old result text.new }
{
    if !answering::answers_with(part, flash, g, spot, page, entry) {
        return from;
    }
    let end = from + printer::put_length(entry.key, entry.value);
    if end <= text.len() {
        printer::write_put(text, from, entry.key, entry.value);
    }
    end
}

// The lines of a page.
fn write_page<'a>(
    text: &mut [u8],
    from: usize,
    part: &'a [u8],
    flash: &'a [u8],
    g: Geometry,
    spot: Spot,
) -> usize
    requires spot { IsSpot g spot part.now flash.now }
    requires bound { from + length (spot_text g spot part.now flash.now) < 2 ^ 64 }
    ensures { PutsIfFits (spot_text g spot part.now flash.now) from text.old result text.new }
{
    let page = sources::page_at(part, flash, g, spot);
    let entries = page_reader::new(page);
    let mut end = from;
    for entry in entries {
        end = write_entry(text, end, part, flash, g, spot, page, entry);
    }
    end
}

// The lines of a source.
fn write_source<'a>(
    text: &mut [u8],
    from: usize,
    part: &'a [u8],
    flash: &'a [u8],
    g: Geometry,
    t: u32,
    at: Place,
) -> usize
    requires readable { Readable g t part.now flash.now }
    requires source { IsSource (head_of part.now) (told.place at) }
    requires bound { from + length (source_text g t part.now flash.now (told.place at)) < 2 ^ 64 }
    ensures { PutsIfFits (source_text g t part.now flash.now (told.place at)) from text.old result text.new }
{
    let mut end = from;
    for q in 0..g.pages {
        let spot = Spot {
            partition: t,
            at,
            page: q,
        };
        end = write_page(text, end, part, flash, g, spot);
    }
    end
}

// The whole text, from the area's first byte on, where it has room; tells the text's length, also where it has not.
pub fn write<'a>(text: &mut [u8], part: &'a [u8], flash: &'a [u8], g: Geometry, t: u32) -> usize
    requires { Readable g t part.now flash.now }
    ensures told { result ≡ length (partition_text g t part.now flash.now) }
    ensures written { length (partition_text g t part.now flash.now) ≤ length text.old → text.new ≡ sets text.old 0 (partition_text g t part.now flash.now) }
{
    let last = Head::read(part).live;
    let count = last + 1;
    let mut end: usize = 0;
    for i in 0..count {
        let at = sources::source(part, g, i);
        end = write_source(text, end, part, flash, g, t, at);
    }
    end
}
