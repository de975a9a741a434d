// A partition's head, read as one record, changed and put back.
#![tactic(auto)]

ghost use Rattle.std.specs.Prelude.{true, false, ◌≡◌, ◌+◌, ◌≤◌, ◌<◌, min, length};
ghost use Rattle.model.specs.Partition.{head_of, flushed_head, lowered_head, listed_head, unlisted_head, totalled_head, with_head, totalled, total_of, is_live};
ghost use Rattle.model.specs.Refusals.{head_overfull, total_out};
ghost use Rattle.model.specs.Geometry.{allowed};
ghost use Rattle.head.specs.Heads.{as_head};

use model::Geometry;

// Flushes done, listed keys, the total of the partition's entries, and the number of its live batches.
#[derive(Clone, Copy)]
pub struct Head {
    pub flushes: u32,
    pub listed: u32,
    pub total: u32,
    pub live: u32,
}

impl Head {
    pub fn read(part: &[u8]) -> Self
        requires { 16 ≤ length part.now }
        ensures { as_head result ≡ head_of part.now }
    {
        Self {
            flushes: words::u32_at(part, 0),
            listed: words::u32_at(part, 4),
            total: words::u32_at(part, 8),
            live: words::u32_at(part, 12),
        }
    }

    // 12: does it say more listed keys, more entries or more live batches than there can be?
    pub fn is_overfull(self, g: Geometry) -> bool
        requires { allowed g ≡ true }
        ensures { result ≡ head_overfull g (as_head self) }
    {
        (g.list < self.listed)
            | (geometry::most_entries(g) < self.total)
            | (g.kept < self.live)
            | (self.flushes < self.live)
    }

    // 12: is the total below 0, or more than there is room for, with so many entries more and so many less?
    pub fn is_total_out(self, g: Geometry, more: u32, less: u32) -> bool
        requires g_value { allowed g ≡ true }
        requires self_value { head_overfull g (as_head self) ≡ false }
        requires more_bound { more ≤ 1 }
        ensures { result ≡ total_out g more less (as_head self) }
    {
        let total = self.total + more;
        if total < less {
            return true;
        }
        geometry::most_entries(g) < total - less
    }

    // Is batch n live?
    pub fn is_live(self, n: u32) -> bool
        requires { self.live ≤ self.flushes }
        ensures { result ≡ is_live (as_head self) n }
    {
        let dead = self.flushes - self.live;
        if n <= dead {
            return false;
        }
        n <= self.flushes
    }

    // The live number after one flush more.
    fn raised(self, g: Geometry) -> u32
        requires { self.live ≤ g.kept }
        ensures { result ≡ min g.kept (self.live + 1) }
    {
        if self.live == g.kept {
            return g.kept;
        }
        self.live + 1
    }

    // One flush more.
    pub fn flushed(self, g: Geometry) -> Self
        requires flushes_bound { self.flushes < 4294967295 }
        requires live_le_kept { self.live ≤ g.kept }
        ensures { as_head result ≡ flushed_head g (as_head self) }
    {
        Self {
            flushes: self.flushes + 1,
            listed: self.listed,
            total: self.total,
            live: self.raised(g),
        }
    }

    // One live batch less.
    pub fn lowered(mut self) -> Self
        requires { 1 ≤ self.live }
        ensures { as_head result ≡ lowered_head (as_head self) }
    {
        self.live = self.live - 1;
        self
    }

    // One listed key more.
    pub fn listed(mut self) -> Self
        requires { self.listed < 4294967295 }
        ensures { as_head result ≡ listed_head (as_head self) }
    {
        self.listed = self.listed + 1;
        self
    }

    // n listed keys less.
    pub fn unlisted(mut self, n: u32) -> Self
        requires { n ≤ self.listed }
        ensures { as_head result ≡ unlisted_head n (as_head self) }
    {
        self.listed = self.listed - n;
        self
    }

    // So many entries more, and so many less.
    pub fn totalled(mut self, more: u32, less: u32) -> Self
        requires more_bound { self.total + more < 4294967296 }
        requires less_bound { less ≤ self.total + more }
        ensures { as_head result ≡ totalled_head more less (as_head self) }
    {
        self.total = self.total + more - less;
        self
    }
}

// The head stands in the partition again.
pub fn put_back(part: &mut [u8], head: Head)
    requires { 16 ≤ length part.old }
    ensures { part.new ≡ with_head (as_head head) part.old }
{
    words::write_u32(part, 0, head.flushes);
    words::write_u32(part, 4, head.listed);
    words::write_u32(part, 8, head.total);
    words::write_u32(part, 12, head.live);
}

// The partition's total, with so many entries more and so many less.
pub fn change_total(part: &mut [u8], more: u32, less: u32)
    requires in_bounds { 16 ≤ length part.old }
    requires more_bound { total_of part.old + more < 4294967296 }
    requires less_bound { less ≤ total_of part.old + more }
    ensures { part.new ≡ totalled more less part.old }
{
    put_back(part, Head::read(part).totalled(more, less));
}
