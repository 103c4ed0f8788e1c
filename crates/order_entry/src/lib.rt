// A log's run through an instruction list that the caller lends: the log entry, and the moves from any state of a run. Both also with a list of their own,
// for callers that have no records.
#![tactic(auto)]

ghost use Rattle.order_entry.specs.LogRun.{LogRun, LogRunOwn};
ghost use Rattle.engine.specs.Labels.{tallied};
ghost use Rattle.engine.specs.Tables.{tables};
ghost use Rattle.order_entry.specs.Promised.{MadeOn, AnyRunToEnd, AnyRunToEndOwn};

use book::Image;
use engine::{Record, TalliedResult};
use order::OrderTable;
use order_run::RunState;
use text::Value;

// Makes the moves of a log from the one that is next, on tables of just the records needed: each is begun, its instructions are
// written into the list and read from there, and it is finished; then refusal 17.
fn make_moves(
    contents: &mut [Value],
    readers: &mut [u64],
    writers: &mut [u64],
    instructions: &mut [Record],
    image: &Image,
    order: &OrderTable,
    first: RunState,
) -> TalliedResult
    ensures { MadeOn image.now order.now first (tables contents.old readers.old writers.old) instructions.old (tallied result) (tables contents.new readers.new writers.new) instructions.new }
{
    let mut work = [0u64; engine::MOST_INSTRUCTIONS];
    let mut state = first;
    // Which move is next, the one before says.
    loop {
        let next = match state {
            RunState::Next(next) => next,
            RunState::Over(result) => return result,
        };
        let begun = order_run::begin_next(contents, readers, image, order, &mut work, next);
        engine_list::pass(instructions, &mut work, begun.count);
        state = order_run::finish_next(
            contents, readers, writers, image, order, &work, next, begun,
        );
    }
}

// Makes the moves of a log from the one that is next: the tables are cut to the records needed, once, and the moves made on these. A run that is over
// stays so, with its result as it came, of any type that a result of this code can be made into.
pub fn run_from<T: From<TalliedResult>>(
    contents: &mut [Value],
    readers: &mut [u64],
    writers: &mut [u64],
    instructions: &mut [Record],
    image: &Image,
    order: &OrderTable,
    first: RunState<T>,
) -> T
    ensures { AnyRunToEnd T.from_gives image.now order.now first (tables contents.old readers.old writers.old) instructions.old result (tables contents.new readers.new writers.new) instructions.new }
{
    let next = match first {
        RunState::Next(next) => next,
        RunState::Over(over) => return over,
    };
    let n = order_run::records_used(image, contents.len(), readers.len(), writers.len());
    let ended = make_moves(
        &mut contents[..n],
        &mut readers[..n],
        &mut writers[..n],
        instructions,
        image,
        order,
        RunState::Next(next),
    );
    T::from(ended)
}

// The log entry: a book, a log, the tables, and a list of instruction records.
pub fn run(
    book: &[u8],
    log: &[u8],
    contents: &mut [Value],
    readers: &mut [u64],
    writers: &mut [u64],
    instructions: &mut [Record],
) -> TalliedResult
    ensures { LogRun book.now log.now (tables contents.old readers.old writers.old) instructions.old (tallied result) (tables contents.new readers.new writers.new) instructions.new }
{
    let lent = instructions.len();
    let mut image = [0u32; 2248];
    let mut order = [0u64; 512];
    let state = order_run::prepare(
        book, log, contents, readers, writers, lent, &mut image, &mut order,
    );
    run_from(
        contents,
        readers,
        writers,
        instructions,
        &image,
        &order,
        state,
    )
}

// ---- with a list of its own

// The log entry with a list of `lent` records of its own. It has 256 at most; a longer list makes no difference.
pub fn run_own_list(
    book: &[u8],
    log: &[u8],
    contents: &mut [Value],
    readers: &mut [u64],
    writers: &mut [u64],
    lent: usize,
) -> TalliedResult
    ensures { LogRunOwn book.now log.now (tables contents.old readers.old writers.old) lent (tallied result) (tables contents.new readers.new writers.new) }
{
    let none = engine_list::blank();
    let mut list = [none; engine::MOST_INSTRUCTIONS];
    let n = lent.min(engine::MOST_INSTRUCTIONS);
    run(book, log, contents, readers, writers, &mut list[..n])
}

// Makes the moves of a log from the one that is next, with a list of `lent` records of its own.
pub fn run_from_own_list<T: From<TalliedResult>>(
    contents: &mut [Value],
    readers: &mut [u64],
    writers: &mut [u64],
    lent: usize,
    image: &Image,
    order: &OrderTable,
    first: RunState<T>,
) -> T
    ensures { AnyRunToEndOwn T.from_gives image.now order.now first (tables contents.old readers.old writers.old) lent result (tables contents.new readers.new writers.new) }
{
    let none = engine_list::blank();
    let mut list = [none; engine::MOST_INSTRUCTIONS];
    let n = lent.min(engine::MOST_INSTRUCTIONS);
    run_from(
        contents,
        readers,
        writers,
        &mut list[..n],
        image,
        order,
        first,
    )
}
