// What the calls answer. specs/Told.antt gives the paper's number and values for each case.
#![tactic(auto)]

ghost use Rattle.std.specs.Prelude.{◌≡◌};
ghost use Rattle.answers.specs.Told.{number, unread};

// Why a call refuses. Its number is the documents'.
#[derive(Clone, Copy)]
pub enum Reason {
    NotAllowed = 1,
    MemoryShort = 2,
    FlashShort = 3,
    NoSuchPart = 4,
    NoTable = 11,
    Overfull = 12,
    Unexpected = 13,
    ListFull = 14,
    BufferEmpty = 15,
    LastFlush = 16,
    NotLive = 17,
    ZeroValue = 21,
    TextShort = 22,
    NothingLive = 23,
}

impl Reason {
    pub fn number(self) -> u32
        ensures { result ≡ number self }
    {
        self as u32
    }
}

// A refusal: why, and the pages read before it.
#[derive(Clone, Copy)]
pub struct Refusal {
    pub reason: Reason,
    pub reads: u32,
}

// Most come before any page is read.
impl From<Reason> for Refusal {
    ghost from_gives = { λ reason refusal. refusal ≡ unread reason };

    fn from(reason: Reason) -> Refusal {
        Refusal { reason, reads: 0 }
    }
}

// Where a found key was: in the buffer, or in a batch by its number. No `Option`: its `None` would say nothing of a buffer.
#[derive(Clone, Copy)]
pub enum Place {
    Buffer,
    Batch(u32),
}

// What a get has cost: the entries compared in pages, and the pages read. LLVM keeps both in one register, where the lower half, which comes first, grows without a shift.
#[derive(Clone, Copy)]
pub struct Tally {
    pub comparisons: u32,
    pub reads: u32,
}

#[derive(Clone, Copy)]
pub struct Hit {
    pub value: u64,
    pub tally: Tally,
    pub place: Place,
}

// get: what was found, or none; with its cost.
#[derive(Clone, Copy)]
pub enum Answer {
    Found(Hit),
    Absent(Tally),
}

// view: where the page begins, in memory or in flash, and its bytes.
#[derive(Clone, Copy)]
pub enum Viewed {
    Memory(usize, usize),
    Flash(usize, usize),
}
