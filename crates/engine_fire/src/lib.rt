// One move: begun, which is its walk, and finished: fired and marked, or refused. Firing finds whether it clashes, the contents and the marks after it, and
// its label tally.
#![tactic(auto)]

ghost use Rattle.std.specs.Prelude.{◌≡◌, [], ◌+◌, ◌≤◌, ◌<◌, min, ℕ, ltb, length, get_or, set, if◌then◌else◌};
ghost use Rattle.std.specs.Int.Bits.{bit_or};
ghost use Rattle.text.specs.Words.{one_if};
ghost use Rattle.text.specs.Refusals.{number_of};
ghost use Rattle.book.specs.Book.{L};
ghost use Rattle.book.specs.Sum.{Strided};
ghost use Rattle.book.specs.Image.{low_program};
ghost use Rattle.book_parts.specs.Part.{put_in};
ghost use Rattle.engine.specs.Labels.{no_labels, tallied};
ghost use Rattle.engine.specs.Move.{taken_reads, Fired, input};
ghost use Rattle.engine_instruction.specs.Code.{decoded, items};
ghost use Rattle.engine_clash.specs.Clash.{updates_by};
ghost use Rattle.engine_term.specs.Marks.{marked, mark};
ghost use Rattle.engine_fire.specs.Outcome.{write_marked, read_marked, FiresTo, Settled, moved_by, tally_told};
ghost use Rattle.engine_fire.specs.Steps.{part_after, puts, put_marked, put_reads, issues_at, returns_at, put_tally, fire_tally};
ghost use Rattle.engine.specs.Rule.{walking, most_instructions};
ghost use Rattle.engine_walk.specs.WalkMarks.{bits_cleared};
ghost use Rattle.engine_fire.specs.Effect.{move_answer, Begins};
ghost use Rattle.engine_fire.specs.Finish.{refused_answer, readers_kept, Finishes};
ghost use Rattle.engine_fire.specs.Reasons.{refused_result, FinishesAs};
ghost use Rattle.engine_fire.specs.Count.{instructions_given};
ghost use Rattle.engine.specs.Tables.{tables};

use book::Image;
use book_parts::Part;
use engine::{Pick, TalliedResult, Tally, Work};
use engine_emit::Progress;
use text::{Reason, Refusal, Value};

// What becomes of a move whose walk met no refusal: it fires, with its label tally, or clashes at a location.
#[derive(Clone, Copy)]
pub enum Outcome {
    Fired { tally: Tally },
    Clash { location: u32 },
}

// ---- Refusal 15

// No book has a location of this number: the search for the least clash begins from it.
const NO_LOCATION: u32 = 4294967295;

// l is one of the book's locations.
fn is_location(image: &Image, l: u32) -> bool
    ensures { result ≡ ltb l (L (low_program image.now)) }
{
    if l == NO_LOCATION {
        return false;
    }
    let at = l as usize;
    let part = book_parts::part_of(image, at);
    at < part.end
}

// ---- firing

// Puts v at place i of a part.
fn put_value(part: &mut [Value], i: usize, v: Value)
    requires { i < length part.old }
    ensures { part.new ≡ set part.old i v }
{
    part[i] = v;
}

// Puts the bit into the mark of `at`, in the function's part of the marks from `first` up to `end`, as far as they go.
fn mark_in(writers: &mut [u64], first: usize, end: usize, at: usize, bit: u64)
    requires { first ≤ at }
    ensures { writers.new ≡ put_in first end at (bit_or (get_or writers.old at 0) bit) writers.old }
{
    let e = end.min(writers.len());
    if at < e {
        engine_term::mark(&mut writers[first..e], bit, at - first);
    }
}

// Puts v at location `at` and the bit into its mark, in the function's part from `first` up to `end`, as far as the tables go.
fn put_in_part(
    contents: &mut [Value],
    writers: &mut [u64],
    first: usize,
    end: usize,
    at: usize,
    v: Value,
    bit: u64,
)
    requires { first ≤ at }
    ensures contents_after { contents.new ≡ put_in first end at v contents.old }
    ensures writers_after { writers.new ≡ put_in first end at (mark bit (ltb at (length contents.old)) (get_or writers.old at 0)) writers.old }
{
    let e = end.min(contents.len());
    if at < e {
        put_value(&mut contents[first..e], at - first, v);
        mark_in(writers, first, end, at, bit);
    }
}

// Location `at`, of a part that goes to `end`, is to get v: if it holds a label other than v, Reserve at that label is marked as read.
fn mark_put(
    contents: &[Value],
    readers: &mut [u64],
    end: usize,
    at: usize,
    v: Value,
    p: Value,
    bit: u64,
)
    ensures { readers.new ≡ marked bit (if ltb at (min end (length contents.now)) then taken_reads p (get_or contents.now at 0) v else []) readers.old }
{
    let e = end.min(contents.len());
    if at < e {
        engine_release::mark_taken(readers, p, contents[at], v, bit);
    }
}

// The part that location `at` is in; the part `last` is tried first.
fn part_at(image: &Image, last: Part, at: usize) -> Part
    ensures { result ≡ part_after (low_program image.now) last at }
{
    if (last.first <= at) & (at < last.end) {
        last
    } else {
        book_parts::part_of(image, at)
    }
}

// The tally of no move.
pub fn no_labels() -> Tally
    ensures { result ≡ no_labels }
{
    Tally {
        issued: 0,
        returned: 0,
    }
}

// The tally t, counted on where location `at` gets v; e is the number of elements. At one of Reserve's locations a value other than true issues a label, and
// true returns one, unless a release before it in the same move has.
fn count_label(contents: &[Value], e: Value, at: usize, v: Value, t: Tally) -> Tally
    requires { (t.issued < 18446744073709551615) × (t.returned < 18446744073709551615) }
    ensures { (result.issued ≡ t.issued + one_if (issues_at e at v)) × (result.returned ≡ t.returned + one_if (returns_at e at v (get_or contents.now at 0))) }
{
    if e as usize <= at {
        return t;
    }
    if v != 2 {
        return Tally {
            issued: t.issued + 1,
            returned: t.returned,
        };
    }
    if text::fetch(contents, at) == 2 {
        return t;
    }
    Tally {
        issued: t.issued,
        returned: t.returned + 1,
    }
}

// Puts each instruction's own value at its own location, in its function's part; what that reads and writes is marked. Gives how many labels that issues and
// returns.
fn put_values(
    image: &Image,
    contents: &mut [Value],
    readers: &mut [u64],
    writers: &mut [u64],
    list: &[u64],
    bit: u64,
) -> Tally
    ensures value { result ≡ put_tally (low_program image.now) (decoded list.now) contents.old }
    ensures contents_after { contents.new ≡ puts (L (low_program image.now)) (decoded list.now) contents.old }
    ensures readers_after { readers.new ≡ marked bit (put_reads (low_program image.now).P (L (low_program image.now)) (decoded list.now) contents.old) readers.old }
    ensures writers_after { writers.new ≡ put_marked bit (min (L (low_program image.now)) (length contents.old)) (decoded list.now) writers.old }
{
    let p = book_parts::permanent(image);
    let e = book_image::elements(image);
    let mut part = Part { first: 0, end: 0 };
    let mut tally = no_labels();
    for code in list {
        let what = engine_instruction::decode(*code);
        let at = engine_instruction::own_location(what) as usize;
        let v = engine_instruction::own_value(what);
        tally = count_label(contents, e, at, v, tally);
        part = part_at(image, part, at);
        mark_put(contents, readers, part.end, at, v, p, bit);
        put_in_part(contents, writers, part.first, part.end, at, v, bit);
    }
    tally
}

// The contents and the marks after a move that does not clash: first the released labels are cleared, then each own value is put. Gives how many labels that
// issues and returns.
fn fire(
    image: &Image,
    contents: &mut [Value],
    readers: &mut [u64],
    writers: &mut [u64],
    list: &[u64],
    bit: u64,
) -> Tally
    ensures value { result ≡ fire_tally (low_program image.now) (decoded list.now) contents.old }
    ensures fires_to { FiresTo image.now contents.old list.now contents.new }
    ensures readers_after { readers.new ≡ read_marked bit (low_program image.now) (decoded list.now) contents.old readers.old }
    ensures writers_after { Strided (low_program image.now) → writers.new ≡ write_marked bit (length contents.old) (updates_by image.now contents.old list.now) writers.old }
{
    engine_release::clear_released(image, contents, readers, writers, list, bit);
    put_values(image, contents, readers, writers, list, bit)
}

// ---- the move

// Refusal 15, else the move fires. A refused move leaves contents and marks as they were.
pub fn settle(
    image: &Image,
    contents: &mut [Value],
    readers: &mut [u64],
    writers: &mut [u64],
    list: &[u64],
    bit: u64,
) -> Outcome
    ensures { Strided (low_program image.now) → Settled image.now list.now bit (tables contents.old readers.old writers.old) result (tables contents.new readers.new writers.new) }
{
    let at = engine_clash::least_clash(image, contents, list, NO_LOCATION);
    if is_location(image, at) {
        return Outcome::Clash { location: at };
    }
    let tally = fire(image, contents, readers, writers, list, bit);
    Outcome::Fired { tally }
}

// ---- a move begun and finished

// A move that is begun: how its walk ended, and how many instructions it gave.
#[derive(Clone, Copy)]
pub struct Begun<R = Reason> {
    pub walk: Progress<R>,
    pub count: usize,
}

// How many instructions a walk gave, by its end: none if it was refused.
fn instructions_given(s: Progress, list: &[u64]) -> usize
    requires { length list.now ≡ most_instructions }
    ensures { result ≡ instructions_given s }
{
    if s.refused.is_some() {
        return 0;
    }
    (s.len as usize).min(list.len())
}

// Begins an agent's move: its rule is walked with these picks, and what the walk reads is marked.
pub fn begin_move(
    image: &Image,
    contents: &[Value],
    readers: &mut [u64],
    bit: u64,
    list: &mut Work,
    agent: u32,
    picks: &[Pick],
) -> Begun
    ensures { Begins (low_program image.now) contents.now bit (input agent picks.now) result list.new readers.old readers.new }
{
    let walk = engine_walk::walk_move(image, contents, readers, bit, list, agent, picks);
    let count = instructions_given(walk, list);
    Begun { walk, count }
}

// The answer to a move that is refused: it has issued and returned no label.
fn refused_result<R>(reason: R, at: u32, q: u32) -> TalliedResult<R>
    ensures { result ≡ refused_result reason at q }
{
    TalliedResult {
        answer: Err(Refusal { reason, p: at, q }),
        tally: no_labels(),
    }
}

// The answer to move `at`, which is refused; its reader marks are taken out.
fn refuse_move(readers: &mut [u64], bit: u64, reason: Reason, at: u32, q: u32) -> TalliedResult
    ensures value { tallied result ≡ refused_answer (number_of reason) at q }
    ensures readers_after { readers.new ≡ bits_cleared bit readers.old }
{
    engine_walk::clear_marks(readers, bit);
    refused_result(reason, at, q)
}

// The answer to move `at`, which is settled; if it is refused, its reader marks are taken out.
fn answer_move(readers: &mut [u64], bit: u64, at: u32, what: Outcome) -> TalliedResult
    ensures value { (f : Fired) → tallied result ≡ record { answer = move_answer at (moved_by f what); tally = tally_told what } }
    ensures readers_after { (f : Fired) → readers.new ≡ readers_kept bit (moved_by f what) readers.old }
{
    match what {
        Outcome::Fired { tally } => TalliedResult {
            answer: Ok(()),
            tally,
        },
        Outcome::Clash { location } => refuse_move(readers, bit, Reason::Clash, at, location),
    }
}

// Settles move `at`, whose walk gave the first `len` instructions of the list, and answers it. The list is cut to these here; all below take a slice.
fn settle_listed(
    image: &Image,
    contents: &mut [Value],
    readers: &mut [u64],
    writers: &mut [u64],
    bit: u64,
    list: &Work,
    len: usize,
    at: u32,
) -> TalliedResult
    ensures { (next : ℕ) → Finishes image.now bit at (walking (record { made = items list.now len; next = next; left = [] })) (tables contents.old readers.old writers.old) (tallied result) (tables contents.new readers.new writers.new) }
{
    let n = len.min(list.len());
    let what = settle(image, contents, readers, writers, &list[..n], bit);
    answer_move(readers, bit, at, what)
}

// Finishes move `at`, whose walk ended as s says: refused as the walk was, or settled by the first s.len instructions of the list.
// A caller's reasons may be of a type of its own: that of the walk's refusal is given back as it is.
pub fn finish_move<R: Copy + From<Reason>>(
    image: &Image,
    contents: &mut [Value],
    readers: &mut [u64],
    writers: &mut [u64],
    bit: u64,
    list: &Work,
    s: Progress<R>,
    at: u32,
) -> TalliedResult<R>
    ensures { FinishesAs R.from_gives image.now bit at s list.now (tables contents.old readers.old writers.old) result (tables contents.new readers.new writers.new) }
{
    if let Some(reason) = s.refused {
        return refused_result(reason, at, s.node as u32);
    }
    let len = s.len as usize;
    let done = settle_listed(image, contents, readers, writers, bit, list, len, at);
    engine::convert_result(done)
}
