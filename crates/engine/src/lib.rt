// One move of an agent: the instructions that its rule gives, the picks that it is made with, the labels that it issues and returns, and the records that a
// caller lends.
#![tactic(auto)]

ghost use Rattle.std.specs.Prelude.{◌≡◌};
ghost use Rattle.text.specs.Refusals.{number_of};
ghost use Rattle.engine.specs.Reasons.{ResultAs};

use text::{Reason, Refusal, Value};

// How many instructions a move may give, and how many records of them have to be lent.
pub const MOST_INSTRUCTIONS: usize = 256;

// An instruction: a location gets a value, or a label goes back to the roll.
#[derive(Clone, Copy)]
pub enum Instruction {
    Update { location: u32, value: Value },
    Release { label: Value },
}

// A move's instructions as numbers, one each: what its walk gives, and what is fired.
pub type Work = [u64; MOST_INSTRUCTIONS];

// A pick, made by a clerk: the number of an element, in 64 bits so that none is cut. One that is no element is refused.
pub type Pick = u64;

// A record of the instruction list that a caller lends.
#[derive(Clone, Copy)]
pub struct Record {
    pub what: Instruction,
}

// The label tally of some moves: how many labels they issued, one for each import, and how many they returned, each label once in a
// move.
#[derive(Clone, Copy)]
pub struct Tally {
    pub issued: u64,
    pub returned: u64,
}

// Accepted or refused, and the tally of the moves that have fired.
#[derive(Clone, Copy)]
pub struct TalliedResult<R = Reason> {
    pub answer: Result<(), Refusal<R>>,
    pub tally: Tally,
}

// The same result, with the reason of its refusal converted.
pub fn convert_result<R: From<Reason>>(done: TalliedResult) -> TalliedResult<R>
    ensures { ResultAs R.from_gives done result }
{
    let answer = match done.answer {
        Ok(()) => Ok(()),
        Err(refusal) => Err(Refusal {
            reason: R::from(refusal.reason),
            p: refusal.p,
            q: refusal.q,
        }),
    };
    TalliedResult {
        answer,
        tally: done.tally,
    }
}

// A result whose refusals have numbers of 16 bits for reasons, so that a run whose results are such can go on.
impl From<TalliedResult> for TalliedResult<u16> {
    ghost from_gives = { λ t r. ResultAs (λ e n. n ≡ number_of e) t r };

    fn from(done: TalliedResult) -> TalliedResult<u16> {
        convert_result(done)
    }
}
