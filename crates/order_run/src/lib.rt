// A log's run in stages: the checks, the start, each move begun and finished, and refusal 17 after the last.
#![tactic(auto)]

ghost use Rattle.std.specs.Prelude.{◌≡◌, ◌+◌, ◌-◌, ◌%◌, ◌^◌, ◌<◌, ◌≤◌, min, false, length, take, drop, replicate};
ghost use Rattle.text.specs.Words.{answer_of, told};
ghost use Rattle.order.specs.Pairs.{least_pair};
ghost use Rattle.order.specs.Call.{check_lengths};
ghost use Rattle.contents_start.specs.Written.{started};
ghost use Rattle.order_touch.specs.Marked.{unordered_marked, clipped};
ghost use Rattle.order_run.specs.RunTables.{touch_answer};
ghost use Rattle.book.specs.Book.{start};
ghost use Rattle.book.specs.Image.{word, low_program};
ghost use Rattle.engine.specs.Move.{input};
ghost use Rattle.engine_walk.specs.Walk.{outcome};
ghost use Rattle.engine_walk.specs.WalkMarks.{WalkMarked};
ghost use Rattle.engine_fire.specs.Count.{instructions_given};
ghost use Rattle.order_run.specs.Stages.{moves_left};
ghost use Rattle.order_run.specs.Checked.{CallChecked};
ghost use Rattle.engine.specs.Tables.{tables};
ghost use Rattle.order_run.specs.Promised.{NextMove, StartedOn, NextBegun, StateAs, NextFinishedAs, CallStarted, CallPrepared};

use book::Image;
use engine::{TalliedResult, Tally, Work};
use engine_fire::Begun;
use order::{Lengths, OrderTable};
use text::{Reason, Refusal, Value};

// Refusal 2, lowest table first, where there are so many locations.
pub fn check_lent(locations: u32, lent: Lengths) -> Result<(), Refusal>
    ensures { told result ≡ answer_of (check_lengths locations lent) }
{
    if lent.contents < locations as usize {
        return text::refused(Reason::LentShort, locations, text::CONTENTS_TABLE);
    }
    if lent.readers < locations as usize {
        return text::refused(Reason::LentShort, locations, text::READERS_TABLE);
    }
    if lent.writers < locations as usize {
        return text::refused(Reason::LentShort, locations, text::WRITERS_TABLE);
    }
    if lent.instructions < engine::MOST_INSTRUCTIONS {
        return text::refused(
            Reason::LentShort,
            engine::MOST_INSTRUCTIONS as u32,
            text::INSTRUCTIONS_TABLE,
        );
    }
    Ok(())
}

// Writes the start of a run, with no marks.
pub fn start_tables(
    book: &[u8],
    image: &Image,
    contents: &mut [Value],
    readers: &mut [u64],
    writers: &mut [u64],
)
    ensures contents_after { contents.new ≡ started image.now book.now contents.old }
    ensures readers_after { (readers.new ≡ replicate (length readers.old) 0) × (writers.new ≡ replicate (length writers.old) 0) }
{
    contents_start::write_start(book, image, contents);
    readers.fill(0);
    writers.fill(0);
}

// Refusal 17, of so many moves, by the order's table and the marks.
pub fn check_order(
    readers: &[u64],
    writers: &[u64],
    order: &OrderTable,
    moves: u32,
) -> Result<(), Refusal>
    ensures { told result ≡ touch_answer (least_pair (unordered_marked order.now readers.now writers.now (clipped readers.now writers.now (length readers.now))) moves) }
{
    match order_touch::least_touching_pair(readers, writers, order, moves, readers.len()) {
        None => Ok(()),
        Some(pair) => text::refused(Reason::UnorderedTouch, pair.first, pair.second),
    }
}

// ---- how far a run is

// A move that is next: move `at` of so many, and the tally of the moves that have fired.
#[derive(Clone, Copy)]
pub struct Upcoming {
    pub at: u32,
    pub moves: u32,
    pub tally: Tally,
}

// How far a run is: a move is next, or the run is over, with its result. A caller's result may be of a type of its own.
#[derive(Clone, Copy)]
pub enum RunState<T = TalliedResult> {
    Next(Upcoming),
    Over(T),
}

// A call that passed the checks before its first move: how many moves and locations there are.
#[derive(Clone, Copy)]
pub struct CheckedCall {
    pub moves: u32,
    pub locations: u32,
}

// ---- the checks

// All checks before the first move, in the order of SPECIFICATION 8.2: the book, the log, the moves of one agent, the lengths lent.
pub fn check_all(
    book: &[u8],
    log: &[u8],
    lent: Lengths,
    image: &mut Image,
    order: &mut OrderTable,
) -> Result<CheckedCall, Refusal>
    ensures { CallChecked book.now log.now lent result image.new order.new }
{
    book_check::check_into(book, image)?;
    let moves = order_log::read_log(
        log,
        book_image::agents(image) as u32,
        book_image::elements(image) as u32,
        order,
    )?;
    order_log::check_agents(order, moves)?;
    let locations = book_image::locations(image);
    check_lent(locations, lent)?;
    Ok(CheckedCall { moves, locations })
}

// ---- from move to move

// Two tallies added up. A run's are small: what does not fit into 64 bits is dropped, so that any two can be added.
fn add_tallies(s: Tally, t: Tally) -> Tally
    ensures { (result.issued ≡ (s.issued + t.issued) % 2 ^ 64) × (result.returned ≡ (s.returned + t.returned) % 2 ^ 64) }
{
    Tally {
        issued: std::num::wrapping_add_u64(s.issued, t.issued),
        returned: std::num::wrapping_add_u64(s.returned, t.returned),
    }
}

// A run that is over, with its answer and its tally.
fn run_over<R>(answer: Result<(), Refusal<R>>, tally: Tally) -> RunState<TalliedResult<R>>
    ensures { result ≡ RunState.Over (record { answer = answer; tally = tally }) }
{
    RunState::Over(TalliedResult { answer, tally })
}

// The bit of move i.
fn move_bit(i: u32) -> u64
    ensures { i < 64 → result ≡ 2 ^ i }
{
    if i < order::MOST_MOVES {
        return 1u64 << i;
    }
    0
}

// i + 1 for a move's number, else 65, which no move has: so the moves left fall.
fn number_after(i: u32) -> u32
    ensures { (i < 64 → result ≡ i + 1) × (65 - result ≤ 64 - i) }
{
    if i < order::MOST_MOVES {
        return i + 1;
    }
    order::MOST_MOVES + 1
}

// Move i is next, if there is one; otherwise the order is checked, and the run is over. The moves before it have this tally.
fn next_move(
    readers: &[u64],
    writers: &[u64],
    order: &OrderTable,
    moves: u32,
    i: u32,
    tally: Tally,
) -> RunState
    ensures next_move { NextMove order.now moves i tally readers.now writers.now result }
    ensures result_bound { moves_left result ≤ 65 - i }
{
    if (i as usize) < (moves as usize).min(order::MOST_MOVES as usize) {
        return RunState::Next(Upcoming {
            at: i,
            moves,
            tally,
        });
    }
    run_over(check_order(readers, writers, order, moves), tally)
}

// Writes the start, and move 0 is next; on tables of just the records needed.
fn start_on_part(
    book: &[u8],
    image: &Image,
    order: &OrderTable,
    contents: &mut [Value],
    readers: &mut [u64],
    writers: &mut [u64],
    moves: u32,
) -> RunState
    ensures { StartedOn book.now image.now order.now moves (tables contents.old readers.old writers.old) (tables contents.new readers.new writers.new) result }
{
    start_tables(book, image, contents, readers, writers);
    next_move(readers, writers, order, moves, 0, engine_fire::no_labels())
}

// Begins an agent's move with the picks that stand in the table from `first` up to `end`.
fn begin_with(
    image: &Image,
    contents: &[Value],
    readers: &mut [u64],
    bit: u64,
    list: &mut Work,
    agent: u32,
    table: &[u64],
    first: usize,
    end: usize,
) -> Begun
    requires { (first ≤ end) × (end ≤ length table.now) }
    ensures walk_marked { WalkMarked (low_program image.now) contents.now bit (input agent (take (end - first) (drop first table.now))) (outcome result.walk list.new) readers.old readers.new }
    ensures count_value { (result.count ≡ instructions_given result.walk) × (length list.new ≡ 256) }
{
    engine_fire::begin_move(
        image,
        contents,
        readers,
        bit,
        list,
        agent,
        &table[first..end],
    )
}

// Begins the move that is next, on tables of just the records needed.
pub fn begin_next(
    contents: &[Value],
    readers: &mut [u64],
    image: &Image,
    order: &OrderTable,
    list: &mut Work,
    next: Upcoming,
) -> Begun
    ensures { NextBegun image.now order.now next contents.now readers.old readers.new list.new result }
{
    let i = next.at;
    let bit = move_bit(i);
    let agent = order_log::agent_of_move(order, i);
    let own = order_log::picks_of_move(order, i);
    begin_with(
        image, contents, readers, bit, list, agent, order, own.first, own.end,
    )
}

// The same state of a run, with the reason of a refusal converted.
fn convert_state<R: From<Reason>>(state: RunState) -> RunState<TalliedResult<R>>
    ensures { StateAs R.from_gives state result }
{
    match state {
        RunState::Next(next) => RunState::Next(next),
        RunState::Over(done) => RunState::Over(engine::convert_result(done)),
    }
}

// Finishes the move that is begun, on tables of just the records needed; then the move after it is next, or the run is over. A caller's reasons may be of a
// type of its own: a walk that was refused ends the run for its own reason.
pub fn finish_next<R: Copy + From<Reason>>(
    contents: &mut [Value],
    readers: &mut [u64],
    writers: &mut [u64],
    image: &Image,
    order: &OrderTable,
    list: &Work,
    next: Upcoming,
    begun: Begun<R>,
) -> RunState<TalliedResult<R>>
    ensures { NextFinishedAs R.from_gives image.now order.now list.now next begun (tables contents.old readers.old writers.old) (tables contents.new readers.new writers.new) result }
{
    let i = next.at;
    let bit = move_bit(i);
    let walk = begun.walk;
    let done = engine_fire::finish_move(image, contents, readers, writers, bit, list, walk, i);
    if done.answer.is_err() {
        return run_over(done.answer, next.tally);
    }
    let after = number_after(i);
    let tally = add_tallies(next.tally, done.tally);
    let state = next_move(readers, writers, order, next.moves, after, tally);
    convert_state(state)
}

// ---- a call, on tables of any length

// How many records of each table a run is made on: one for each location, or fewer if a table has fewer.
pub fn records_used(image: &Image, contents: usize, readers: usize, writers: usize) -> usize
    ensures { result ≡ min (word image.now 6) (min contents (min readers writers)) }
{
    let all = book_image::locations(image) as usize;
    let two = readers.min(writers);
    all.min(contents.min(two))
}

// The start of a call that passed its checks: contents written and marks cleared; move 0 is next.
pub fn start_run(
    book: &[u8],
    contents: &mut [Value],
    readers: &mut [u64],
    writers: &mut [u64],
    image: &Image,
    order: &OrderTable,
    checked: CheckedCall,
) -> RunState
    ensures { CallStarted book.now image.now order.now checked (tables contents.old readers.old writers.old) (tables contents.new readers.new writers.new) result }
{
    let n = records_used(image, contents.len(), readers.len(), writers.len());
    start_on_part(
        book,
        image,
        order,
        &mut contents[..n],
        &mut readers[..n],
        &mut writers[..n],
        checked.moves,
    )
}

// A log call up to its first move: the checks, and the start.
pub fn prepare(
    book: &[u8],
    log: &[u8],
    contents: &mut [Value],
    readers: &mut [u64],
    writers: &mut [u64],
    lent: usize,
    image: &mut Image,
    order: &mut OrderTable,
) -> RunState
    ensures { CallPrepared book.now log.now lent (tables contents.old readers.old writers.old) (tables contents.new readers.new writers.new) image.new order.new result }
{
    let lengths = Lengths {
        contents: contents.len(),
        readers: readers.len(),
        writers: writers.len(),
        instructions: lent,
    };
    match check_all(book, log, lengths, image, order) {
        Ok(checked) => start_run(book, contents, readers, writers, image, order, checked),
        Err(refusal) => run_over(Err(refusal), engine_fire::no_labels()),
    }
}
