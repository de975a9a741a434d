// A session's line to its form.
#![tactic(auto)]

mod read;

use model::Geometry;
pub use read::read_line;

#[derive(Clone, Copy)]
pub enum Form {
    Format(Geometry),
    Put(u64, u64),
    Get(u64),
    Del(u64),
    Flush(u32),
    Count(u32),
    Drop(u32),
}
