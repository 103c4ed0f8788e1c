// A single move: the checks of its call after those of the book (refusal 9 for the agent and the picks, then 2, then 8); the call in stages; and the entry,
// through an instruction list that the caller lends or with one of its own.
#![tactic(auto)]

ghost use Rattle.std.specs.Prelude.{◌≡◌, take};
ghost use Rattle.text.specs.Words.{answer_of, told};
ghost use Rattle.book.specs.Sum.{Strided};
ghost use Rattle.book.specs.Image.{word, low_program};
ghost use Rattle.engine.specs.Move.{input};
ghost use Rattle.engine.specs.Single.{pick_place, check_agent, check_picks, check_step_lengths, check_contents};
ghost use Rattle.engine_step.specs.Call.{check_call};
ghost use Rattle.engine_step.specs.Stages.{given, MoveWalked, CallBegun, CallFinishedAs};
ghost use Rattle.engine_step.specs.Entry.{StepMade, StepMadeOwn};

use book::Image;
use engine::{Pick, Record, Work};
use engine_fire::Begun;
use text::{Reason, Refusal, Value};

// The place of pick j: its index + 1, but no more than C's one number holds.
fn place_of(j: usize) -> u32
    ensures { result ≡ pick_place j }
{
    if j < 16777215 { j as u32 + 1 } else { 16777215 }
}

// Refusal 9: no such agent.
fn check_agent(image: &Image, agent: usize) -> Result<(), Refusal>
    ensures { told result ≡ answer_of (check_agent (low_program image.now) agent) }
{
    if agent < book_image::agents(image) as usize {
        Ok(())
    } else {
        text::refused(Reason::LogLine, 0, 0)
    }
}

// Refusal 9 for the picks: the least that is no element.
fn check_picks(image: &Image, picks: &[Pick]) -> Result<(), Refusal>
    ensures { told result ≡ answer_of (check_picks (low_program image.now) picks.now) }
{
    let e = book_image::elements(image) as u64;
    for (j, pick) in picks.iter().enumerate() {
        if e <= *pick {
            return text::refused(Reason::LogLine, place_of(j), 0);
        }
    }
    Ok(())
}

// Refusal 2: the contents table is too short, or else the list of instructions.
fn check_lent(image: &Image, contents: &[Value], lent: usize) -> Result<(), Refusal>
    ensures { told result ≡ answer_of (check_step_lengths (word image.now 6) contents.now lent) }
{
    let locations = book_image::locations(image);
    if contents.len() < locations as usize {
        return text::refused(Reason::LentShort, locations, text::CONTENTS_TABLE);
    }
    if lent < engine::MOST_INSTRUCTIONS {
        return text::refused(
            Reason::LentShort,
            engine::MOST_INSTRUCTIONS as u32,
            text::INSTRUCTIONS_TABLE,
        );
    }
    Ok(())
}

// Refusal 8 of a lent table, on as many records as there are locations.
fn check_contents(image: &Image, contents: &[Value]) -> Result<(), Refusal>
    ensures { Strided (low_program image.now) → told result ≡ answer_of (check_contents (low_program image.now) (take (word image.now 6) contents.now)) }
{
    let n = (book_image::locations(image) as usize).min(contents.len());
    let found = contents_check::bad_value(image, &contents[..n]);
    text::none_at(Reason::ContentsRule, 0, found)
}

// Refusal 9 for the agent and for the picks, then refusal 2, then refusal 8, which reads the whole table.
pub fn check_call(
    image: &Image,
    contents: &[Value],
    agent: usize,
    picks: &[Pick],
    lent: usize,
) -> Result<(), Refusal>
    ensures { Strided (low_program image.now) → told result ≡ answer_of (check_call (low_program image.now) (word image.now 6) contents.now (input agent picks.now) lent) }
{
    check_agent(image, agent)?;
    check_picks(image, picks)?;
    check_lent(image, contents, lent)?;
    check_contents(image, contents)
}

// ---- the call in stages: the checks and the move begun, then the move finished; in between its instructions may go through a lent list

// Begins the move on the first L records of the lent table, with no marks: their tables have length 0.
fn walk_call(
    image: &Image,
    contents: &[Value],
    agent: u32,
    picks: &[Pick],
    work: &mut Work,
) -> Begun
    ensures { MoveWalked (low_program image.now) (take (word image.now 6) contents.now) (input agent picks.now) work.new result }
{
    let all = book_image::locations(image) as usize;
    let n = all.min(contents.len());
    let mut readers = [0u64; 1];
    engine_fire::begin_move(
        image,
        &contents[..n],
        &mut readers[..0],
        1,
        work,
        agent,
        picks,
    )
}

// Makes the checks, and begins the move if they pass.
pub fn begin_call(
    book: &[u8],
    contents: &[Value],
    agent: usize,
    picks: &[Pick],
    lent: usize,
    image: &mut Image,
    work: &mut Work,
) -> Result<Begun, Refusal>
    ensures { CallBegun book.now contents.now (input agent picks.now) lent image.new work.new result }
{
    book_check::check_into(book, image)?;
    check_call(image, contents, agent, picks, lent)?;
    Ok(walk_call(image, contents, agent as u32, picks, work))
}

// Finishes the move, by the instructions that came back from the lent list; a call that was refused stays refused. A caller's refusals, and the reasons that a
// walk is refused for, may be of types of its own, with reasons that this code does not have.
pub fn finish_call<R: Copy + From<Reason>, E: From<Refusal<R>>>(
    contents: &mut [Value],
    image: &Image,
    work: &Work,
    call: Result<Begun<R>, E>,
) -> Result<(), E>
    ensures { CallFinishedAs R.from_gives E.from_gives image.now contents.old work.now call result contents.new }
{
    let walk = call?.walk;
    let all = book_image::locations(image) as usize;
    let n = all.min(contents.len());
    let mut readers = [0u64; 1];
    let mut writers = [0u64; 1];
    let done = engine_fire::finish_move(
        image,
        &mut contents[..n],
        &mut readers[..0],
        &mut writers[..0],
        1,
        work,
        walk,
        0,
    );
    done.answer?;
    Ok(())
}

// How many instructions a call gave: none if it was refused.
fn given(call: Result<Begun, Refusal>) -> usize
    ensures { result ≡ given call }
{
    match call {
        Ok(begun) => begun.count,
        Err(_) => 0,
    }
}

// ---- the entry

// The single-move entry: a book, a contents table, an agent, its picks, and a list of instruction records. The
// move's instructions are written into the list, and the move is fired by what is read from there.
pub fn step(
    book: &[u8],
    contents: &mut [Value],
    agent: usize,
    picks: &[Pick],
    instructions: &mut [Record],
) -> Result<(), Refusal>
    ensures { StepMade book.now contents.old (input agent picks.now) instructions.old (told result) contents.new instructions.new }
{
    let lent = instructions.len();
    let mut image = [0u32; 2248];
    let mut work = [0u64; engine::MOST_INSTRUCTIONS];
    let call = begin_call(book, contents, agent, picks, lent, &mut image, &mut work);
    engine_list::pass(instructions, &mut work, given(call));
    finish_call(contents, &image, &work, call)
}

// The single-move entry with a list of `lent` records of its own. It has 256 at most; a longer list makes no difference.
pub fn step_own_list(
    book: &[u8],
    contents: &mut [Value],
    agent: usize,
    picks: &[Pick],
    lent: usize,
) -> Result<(), Refusal>
    ensures { StepMadeOwn book.now contents.old (input agent picks.now) lent (told result) contents.new }
{
    let none = engine_list::blank();
    let mut list = [none; engine::MOST_INSTRUCTIONS];
    let n = lent.min(engine::MOST_INSTRUCTIONS);
    step(book, contents, agent, picks, &mut list[..n])
}
