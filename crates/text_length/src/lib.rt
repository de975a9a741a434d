// The length of a partition's text.
#![tactic(auto)]

ghost use Rattle.std.specs.Prelude.{◌≡◌, length};
ghost use Rattle.model.specs.PartitionText.{partition_text};
ghost use Rattle.sources.specs.Readable.{Readable};

use model::Geometry;

// The text is written into no room: that tells its length, and writes nothing.
pub fn text_length<'a>(part: &'a [u8], flash: &'a [u8], g: Geometry, t: u32) -> usize
    requires { Readable g t part.now flash.now }
    ensures { result ≡ length (partition_text g t part.now flash.now) }
{
    text_writer::write(&mut [], part, flash, g, t)
}
