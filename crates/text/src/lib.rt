// The call text: a partition's keys and values as session lines, in an area that is lent for them.
#![tactic(auto)]

ghost use Rattle.std.specs.Prelude.{◌≡◌, ◌≤◌, ◌<◌, length};
ghost use Rattle.model.specs.Geometry.{partitions, flash_need};
ghost use Rattle.model.specs.PartitionText.{partition_text, text_checks};
ghost use Rattle.model.specs.Calls.{Call, text_left};
ghost use Rattle.answers.specs.Told.{told_unread, unless, written};
ghost use Rattle.answers.specs.Performs.{areas, Performs};
ghost use Rattle.opening.specs.Opened.{IsTable};
ghost use Rattle.partition.specs.Ready.{Whole};

use answers::{Reason, Refusal};
use head::Head;
use model::Geometry;

// 12, 13, 22, or the length of the text, for which there is room then. None of its refusals tells reads, its 13 neither.
pub fn decide<'a>(
    part: &'a [u8],
    flash: &'a [u8],
    g: Geometry,
    t: u32,
    room: usize,
) -> Result<u32, Reason>
    requires whole { Whole g part.now }
    requires g_in_bounds { flash_need g ≤ length flash.now }
    requires t_bound { t < partitions g }
    ensures { told_unread result ≡ unless (text_checks g t room part.now flash.now) (length (partition_text g t part.now flash.now)) }
{
    if Head::read(part).is_overfull(g) {
        return Err(Reason::Overfull);
    }
    if buffer::is_some_page_overfull(part, g) {
        return Err(Reason::Overfull);
    }
    if sources::is_some_failed(part, flash, g, t) {
        return Err(Reason::Unexpected);
    }
    let length = text_length::text_length(part, flash, g, t);
    if room < length {
        return Err(Reason::TextShort);
    }
    Ok(length as u32)
}

// 4, then as the partition decides; the text is written when nothing refuses it any more.
pub fn call<'a>(
    memory: &'a [u8],
    flash: &'a [u8],
    g: Geometry,
    t: u32,
    text: &mut [u8],
) -> Result<u32, Refusal>
    requires { IsTable g memory.now flash.now }
    ensures performs { Performs (Call.text t (length text.old)) memory.now flash.now (written result) memory.now flash.now }
    ensures text_after { text.new ≡ text_left (areas memory.now flash.now) t text.old }
{
    if geometry::partition_count(g) <= t {
        return Err(Reason::NoSuchPart.into());
    }
    let part = partition::part_of(memory, g, t);
    let length = decide(part, flash, g, t, text.len())?;
    // A partition with no line is not gone through again.
    if length == 0 {
        return Ok(0);
    }
    text_writer::write(text, part, flash, g, t);
    Ok(length)
}
