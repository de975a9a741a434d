// What the C interface gives: one struct for the answers of all calls, and one for a card's figures.
#![tactic(auto)]

ghost use Rattle.std.specs.Prelude.{◌≡◌, ◌<◌, ◌^◌, Err};
ghost use Rattle.model.specs.Answers.{found, refused};
ghost use Rattle.answers.specs.Told.{numbered, as_tally, refusing, written, place, answered, viewed};
ghost use Rattle.exported.specs.Exported.{answer, batch_of, exported, exported_text, exported_card, SizeFits};

use answers::{Answer, Hit, Place, Reason, Refusal, Viewed};
use model::Card;

#[repr(C)]
#[derive(Clone, Copy)]
pub struct MxAnswer {
    pub status: u32,
    pub number: u32,
    pub reads: u32,
    pub batch: u32,
    pub value: u64,
    pub comparisons: u32,
}

#[repr(C)]
#[derive(Clone, Copy)]
pub struct MxCard {
    pub status: u32,
    pub number: u32,
    pub memory: u64,
    pub flash: u64,
    pub flushes: u64,
    pub first_lost: u64,
}

// Numbers, since C has no enum with values: include/mortxizal.h names them.
const DONE: u32 = 0;

const FOUND: u32 = 1;

const NONE: u32 = 2;

const REFUSED: u32 = 3;

// A refusal by its numbers, whichever they are; those of outcomes are the documents'.
pub fn of_refused(number: u32, reads: u32) -> MxAnswer
    ensures { result ≡ exported (refused number reads) }
{
    MxAnswer {
        status: REFUSED,
        number,
        reads,
        batch: 0,
        value: 0,
        comparisons: 0,
    }
}

fn of_refusal(refusal: Refusal) -> MxAnswer
    ensures { result ≡ exported (refusing refusal) }
{
    of_refused(refusal.reason.number(), refusal.reads)
}

// Functions by name, and no `From`: pages and bytes are both a `u32`, and `of_viewed` asks that a size fits.
pub fn of_written(outcome: Result<u32, Refusal>) -> MxAnswer
    ensures { result ≡ exported (written outcome) }
{
    match outcome {
        Ok(pages) => MxAnswer {
            status: DONE,
            number: pages,
            reads: 0,
            batch: 0,
            value: 0,
            comparisons: 0,
        },
        Err(refusal) => of_refusal(refusal),
    }
}

// The length of a text.
pub fn of_text(outcome: Result<u32, Refusal>) -> MxAnswer
    ensures { result ≡ exported_text (written outcome) }
{
    match outcome {
        Ok(bytes) => MxAnswer {
            status: DONE,
            number: 0,
            reads: 0,
            batch: 0,
            value: bytes as u64,
            comparisons: 0,
        },
        Err(refusal) => of_refusal(refusal),
    }
}

fn batch_of(spot: Place) -> u32
    ensures { result ≡ batch_of (place spot) }
{
    match spot {
        Place::Buffer => 0,
        Place::Batch(n) => n,
    }
}

fn of_hit(hit: Hit) -> MxAnswer
    ensures { result ≡ exported (found hit.value (as_tally hit.tally) (place hit.place)) }
{
    let spot = hit.place;
    let tally = hit.tally;
    MxAnswer {
        status: FOUND,
        number: 0,
        reads: tally.reads,
        batch: batch_of(spot),
        value: hit.value,
        comparisons: tally.comparisons,
    }
}

pub fn of_answer(outcome: Result<Answer, Refusal>) -> MxAnswer
    ensures { result ≡ exported (answered outcome) }
{
    match outcome {
        Ok(Answer::Found(hit)) => of_hit(hit),
        Ok(Answer::Absent(tally)) => MxAnswer {
            status: NONE,
            number: 0,
            reads: tally.reads,
            batch: 0,
            value: 0,
            comparisons: tally.comparisons,
        },
        Err(refusal) => of_refusal(refusal),
    }
}

// A page of `size` bytes at `at`; `area` is 0 in memory and 1 in flash, which is also what was read of flash.
fn of_page(area: u32, at: usize, size: usize) -> MxAnswer
    requires { size < 2 ^ 32 }
    ensures { result ≡ answer 0 size area area at 0 }
{
    MxAnswer {
        status: DONE,
        number: size as u32,
        reads: area,
        batch: area,
        value: at as u64,
        comparisons: 0,
    }
}

pub fn of_viewed(outcome: Result<Viewed, Refusal>) -> MxAnswer
    requires { SizeFits outcome }
    ensures { result ≡ exported (viewed outcome) }
{
    match outcome {
        Ok(Viewed::Memory(at, size)) => of_page(0, at, size),
        Ok(Viewed::Flash(at, size)) => of_page(1, at, size),
        Err(refusal) => of_refusal(refusal),
    }
}

// Figures refused with any number, as `of_refused`.
pub fn of_refused_figures(refusal: u32) -> MxCard
    ensures { result ≡ exported_card (Err refusal) }
{
    MxCard {
        status: REFUSED,
        number: refusal,
        memory: 0,
        flash: 0,
        flushes: 0,
        first_lost: 0,
    }
}

pub fn of_figures(outcome: Result<Card, Reason>) -> MxCard
    ensures { result ≡ exported_card (numbered outcome) }
{
    match outcome {
        Ok(card) => MxCard {
            status: DONE,
            number: 0,
            memory: card.memory,
            flash: card.flash,
            flushes: card.flushes,
            first_lost: card.first_lost,
        },
        Err(reason) => of_refused_figures(reason.number()),
    }
}
