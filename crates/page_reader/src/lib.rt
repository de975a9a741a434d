// A reader lent one page, which gives its entries in turn: an iterator that holds a reference. The work is done by `step_at`.
#![tactic(auto)]

ghost use Rattle.std.specs.Prelude.{◌≡◌, ◌+◌, ◌-◌, ◌*◌, ◌<◌, ◌≤◌, length, IfSome};
ghost use Rattle.model.specs.Page.{count_of};
ghost use Rattle.std.specs.Iterator.{at_most};
ghost use Rattle.page_reader.specs.Steps.{step_at, behind};

// The page, and the place of the entry that comes next.
#[derive(Clone, Copy)]
pub struct Reader<'a> {
    pub page: &'a [u8],
    pub place: usize,
}

#[derive(Clone, Copy)]
pub struct Entry {
    pub place: usize,
    pub key: u64,
    pub value: u64,
}

// The entry at a place, or the end behind the used ones.
fn step_at(page: &[u8], place: usize) -> Option<Entry>
    requires { 16 + 16 * count_of page.now ≤ length page.now }
    ensures step { result ≡ step_at page.now place }
    ensures small { IfSome result (λ entry. place < 65536) }
{
    if page::count(page) < place {
        return None;
    }
    Some(Entry {
        place,
        key: words::u64_at(page, 16 * place),
        value: page::value_at(page, place),
    })
}

// A reader of the page, at its first entry: place 0 is the page's head.
pub fn new<'a>(page: &'a [u8]) -> Reader<'a>
    ensures { (result.page ≡ page.entry) × (result.place ≡ 1) }
{
    Reader { page, place: 1 }
}

// What it gives next.
pub fn next<'a>(r: Reader<'a>) -> Option<Entry>
    requires { 16 + 16 * count_of r.page.now ≤ length r.page.now }
    ensures { result ≡ step_at r.entry.page.now r.entry.place }
{
    step_at(r.page, r.place)
}

// The entries from the reader's place on, in turn. Each leaves it at the place behind.
impl<'a> Iterator for Reader<'a> {
    type Item = Entry;

    ghost can_next = { λ r. 16 + 16 * count_of r.page.now ≤ length r.page.now };

    ghost next_gives = { λ r given s. (given ≡ step_at r.page.now r.place) × (s.page ≡ r.page) × (s.place ≡ behind r.place given) };

    ghost remaining = { λ r. at_most (count_of r.page.now + 1 - r.place) };

    fn next(&mut self) -> Option<Entry> {
        let entry = next(*self)?;
        self.place += 1;
        Some(entry)
    }
}

// For a caller that goes on from a place: a reader that has come to it, asked once.
pub fn entry_at(page: &[u8], place: usize) -> Option<Entry>
    requires { 16 + 16 * count_of page.now ≤ length page.now }
    ensures { result ≡ step_at page.now place }
{
    next(Reader { page, place })
}
