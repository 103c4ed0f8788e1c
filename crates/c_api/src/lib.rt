// What C can call; include/rental.h declares it. An answer comes in one number.
#![tactic(auto)]

ghost use Rattle.std.specs.Prelude.{◌≡◌, length};
ghost use Rattle.text.specs.Words.{told};
ghost use Rattle.book.specs.Check.{packed as packed_check};
ghost use Rattle.engine.specs.Move.{input};
ghost use Rattle.c_api.specs.Packed.{packed_answer, tally_words, CheckPacked, MovePacked, RunPacked, InputPrinted};
ghost use Rattle.engine.specs.Tables.{tables};

use engine::{Pick, Tally};
use text::{Refusal, Value};

// The check of a book, as number × 2^32 + p. Each refusal of a book has q 0. C has number and p back by
// shift and mask.
#[unsafe(no_mangle)]
pub extern "C" fn rental_check_book(book: &[u8]) -> u64
    ensures { CheckPacked book.now result }
{
    packed_check(book_check::check_book(book))
}

// The answer of a book check in one number, number × 2^32 + p.
fn packed_check(answer: Result<(), Refusal>) -> u64
    ensures { result ≡ packed_check (told answer) }
{
    match answer {
        Ok(()) => 0,
        Err(r) => r.reason.number() as u64 * 4294967296 + r.p as u64,
    }
}

// An answer in one number, number × 2^48 + p × 2^24 + q. The numbers end at 19, so nothing wraps.
fn packed(answer: Result<(), Refusal>) -> u64
    ensures { result ≡ packed_answer (told answer) }
{
    match answer {
        Ok(()) => 0,
        Err(r) => r.reason.number() as u64 * 281474976710656 + r.p as u64 * 16777216 + r.q as u64,
    }
}

// The single-move entry, as number × 2^48 + p × 2^24 + q; `lent` is how many instruction records there are.
#[unsafe(no_mangle)]
pub extern "C" fn rental_move(
    book: &[u8],
    contents: &mut [Value],
    agent: usize,
    picks: &[Pick],
    lent: usize,
) -> u64
    ensures { MovePacked book.now contents.old (input agent picks.now) lent result contents.new }
{
    packed(engine_step::step_own_list(book, contents, agent, picks, lent))
}

// Writes a tally for C: labels issued, then labels returned.
fn give_tally(t: Tally, tally: &mut [u64])
    requires { length tally.old ≡ 2 }
    ensures { tally.new ≡ tally_words t }
{
    tally[0] = t.issued;
    tally[1] = t.returned;
}

// The log entry, as number × 2^48 + p × 2^24 + q, and the tally of the moves that fired.
#[unsafe(no_mangle)]
pub extern "C" fn rental_run_log(
    book: &[u8],
    log: &[u8],
    contents: &mut [Value],
    readers: &mut [u64],
    writers: &mut [u64],
    lent: usize,
    tally: &mut [u64; 2],
) -> u64
    ensures { RunPacked book.now log.now (tables contents.old readers.old writers.old) lent result (tables contents.new readers.new writers.new) tally.new }
{
    let ended = order_entry::run_own_list(book, log, contents, readers, writers, lent);
    give_tally(ended.tally, tally);
    packed(ended.answer)
}

// What `rental` prints, and the tally of its run. An output of fewer bytes than an answer may need is left as it is, and all numbers given are 0.
#[unsafe(no_mangle)]
pub extern "C" fn rental_report_input(
    input: &[u8],
    output: &mut [u8],
    tally: &mut [u64; 2],
) -> usize
    ensures { InputPrinted input.now output.old result output.new tally.new }
{
    let printed = report_print::report(input, output);
    give_tally(printed.tally, tally);
    printed.bytes
}
