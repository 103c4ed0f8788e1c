// Refusal 15, the least location that clashes: each instruction compared with all, and a shorter search for updates alone.
#![tactic(auto)]

ghost use Rattle.std.specs.Prelude.{◌≡◌, [], ◌<◌, ◌≤◌, length, if◌then◌else◌};
ghost use Rattle.text.specs.Words.{has};
ghost use Rattle.book.specs.Image.{low_program};
ghost use Rattle.engine.specs.Move.{label_of, released, other};
ghost use Rattle.engine_instruction.specs.Code.{decoded};
ghost use Rattle.engine_instruction.specs.Given.{any};
ghost use Rattle.engine_clash.specs.LeastClash.{held_place, clears_held, values_given, sets_released, least_with, least_clash};
ghost use Rattle.engine_clash.specs.Steps.{location_of, slot_of, Last, Chain, least_with_update};

use book::{Function, Image};
use engine::Instruction;
use text::Value;

// A location, its function, its arguments, and what it holds, which also stands in place of an argument that the function has not: a release clears the
// location if its label is one of the three. They are found once, since a location is held against every instruction of a move.
#[derive(Clone, Copy)]
struct HeldPlace {
    location: u32,
    function: Function,
    first: usize,
    second: usize,
    held: Value,
}

// ---- one location

// x if the test passes, else y.
fn either(test: bool, x: usize, y: usize) -> usize
    ensures { result ≡ (if test then x else y) }
{
    if test { x } else { y }
}

// Location l, taken apart, and what it holds; past the last function there is none.
fn held_place(image: &Image, contents: &[Value], l: u32) -> HeldPlace
    ensures { result ≡ held_place (low_program image.now) contents.now l }
{
    let at = l as usize;
    let owner = book_parts::owner_of(image, at);
    let index = if at < owner.end { at - owner.first } else { 0 };
    let f = owner.function;
    let a = book_parts::take_apart(f, index);
    let held = text::fetch(contents, at);
    HeldPlace {
        location: l,
        function: f,
        first: either(1 <= f.arity, a.first, held as usize),
        second: either(2 <= f.arity, a.second, held as usize),
        held,
    }
}

// A release of x clears the location of s.
fn clears(s: HeldPlace, x: Value) -> bool
    ensures { result ≡ clears_held s x }
{
    let y = x as usize;
    book_parts::is_dynamic(s.function) && (s.first == y || s.second == y || s.held == x)
}

// The instruction gives the location of s a value other than w.
fn gives_other(s: HeldPlace, w: Value, what: Instruction) -> bool
    ensures { result ≡ other w (values_given s what) }
{
    match what {
        Instruction::Update { location, value } => {
            if location == s.location {
                return value != w;
            }
            false
        }
        Instruction::Release { label } => {
            if label as u32 == s.location {
                return 2 != w;
            }
            if clears(s, label) {
                return book_parts::default_of(s.function) != w;
            }
            false
        }
    }
}

// Some instruction of the list gives the location of s a value other than w.
fn some_gives_other(list: &[u64], s: HeldPlace, w: Value) -> bool
    ensures { result ≡ any (λ i. other w (values_given s i)) (decoded list.now) }
{
    list.iter().any(|code| gives_other(s, w, engine_instruction::decode(*code)))
}

// The instruction releases the label x.
fn releases(what: Instruction, x: Value) -> bool
    ensures { result ≡ has (label_of what []) x }
{
    match what {
        Instruction::Update { .. } => false,
        Instruction::Release { label } => label == x,
    }
}

// Some instruction of the list releases the label x.
fn is_released(list: &[u64], x: Value) -> bool
    ensures { result ≡ has (released (decoded list.now)) x }
{
    list.iter()
        .any(|code| releases(engine_instruction::decode(*code), x))
}

// ---- all instructions

// The instruction is an update whose value is a label that the list releases.
fn sets_released(list: &[u64], what: Instruction) -> bool
    ensures { result ≡ sets_released (released (decoded list.now)) what }
{
    match what {
        Instruction::Update { value, .. } => is_released(list, value),
        Instruction::Release { .. } => false,
    }
}

// The own location of the instruction, if it is less than `best` and clashes; else `best`.
fn least_with(image: &Image, contents: &[Value], list: &[u64], what: Instruction, best: u32) -> u32
    ensures { result ≡ least_with (low_program image.now) contents.now (decoded list.now) what best }
{
    let at = engine_instruction::own_location(what);
    if best <= at {
        return best;
    }
    let s = held_place(image, contents, at);
    if some_gives_other(list, s, engine_instruction::own_value(what)) {
        return at;
    }
    if sets_released(list, what) {
        return at;
    }
    best
}

// The least location that clashes, or `most`: each instruction is compared with all.
pub fn least_of_all(image: &Image, contents: &[Value], list: &[u64], most: u32) -> u32
    ensures { result ≡ least_clash (low_program image.now) contents.now (decoded list.now) (decoded list.now) most }
{
    let mut least = most;
    for code in list {
        let what = engine_instruction::decode(*code);
        least = least_with(image, contents, list, what, least);
    }
    least
}

// ---- updates alone, as the numbers that stand for them: a location with two values

// For up to so many updates it is faster to compare each with all than to clear the tables.
const FEW: usize = 8;

// The slot of an update: updates with one location have one slot, and few others have it.
fn slot(code: u64) -> usize
    ensures { (result ≡ slot_of code) × (result < 512) }
{
    (code / 65536 % 512) as usize
}

// The last of the first p updates with the location of this one, counted from 1; 0 if none has it. Only those with its slot are tried: p is one, and
// `prior` has the one before each.
fn last_at_slot(list: &[u64], prior: &[u16; engine::MOST_INSTRUCTIONS], p: u16, code: u64) -> usize
    requires { Chain list.now prior.now code p }
    ensures { Last location_of list.now code p result }
{
    // A while, since each step goes to where `prior` says.
    let mut i = p as usize;
    while 0 < i {
        if list[i - 1] / 65536 == code / 65536 {
            return i;
        }
        i = prior[i - 1] as usize;
    }
    0
}

// The last of these updates with the location of this one, counted from 1; 0 if none has it. All of them are tried.
fn last_before(list: &[u64], code: u64) -> usize
    ensures { Last location_of list.now code (length list.now) result }
{
    for i in (0..list.len()).rev() {
        if list[i] / 65536 == code / 65536 {
            return i + 1;
        }
    }
    0
}

// The location of an update, if it is less than `least` and update i, counted from 1, gives it another value; else `least`.
fn least_with_update(list: &[u64], i: usize, code: u64, least: u64) -> u64
    requires { i ≤ length list.now }
    ensures { result ≡ least_with_update list.now i code least }
{
    if i == 0 {
        return least;
    }
    if (list[i - 1] == code) | (least <= code / 65536) {
        return least;
    }
    code / 65536
}

// The least location that clashes, or `most`, found without tables.
fn least_of_few(image: &Image, contents: &[Value], list: &[u64], most: u32) -> u32
    ensures { result ≡ least_clash (low_program image.now) contents.now (decoded list.now) (decoded list.now) most }
{
    let mut least = most as u64;
    for j in 0..list.len() {
        let code = list[j];
        if engine_instruction::RELEASES <= code {
            return least_of_all(image, contents, list, most);
        }
        least = least_with_update(list, last_before(&list[..j], code), code, least);
    }
    least as u32
}

// The least location that clashes, or `most`. Without a release it is enough to compare each update with the last one before it at its location.
// Counted from 1, the code's `last` has the last update at each slot, and its `prior` the one before each update at its slot.
pub fn least_clash(image: &Image, contents: &[Value], list: &[u64], most: u32) -> u32
    ensures { result ≡ least_clash (low_program image.now) contents.now (decoded list.now) (decoded list.now) most }
{
    let n = list.len();
    if n <= FEW {
        return least_of_few(image, contents, list, most);
    }
    if engine::MOST_INSTRUCTIONS < n {
        return least_of_all(image, contents, list, most);
    }
    let mut last = [0u16; 512];
    let mut prior = [0u16; engine::MOST_INSTRUCTIONS];
    let mut least = most as u64;
    for j in 0..n {
        let code = list[j];
        if engine_instruction::RELEASES <= code {
            return least_of_all(image, contents, list, most);
        }
        let s = slot(code);
        let p = last[s];
        least = least_with_update(list, last_at_slot(list, &prior, p, code), code, least);
        prior[j] = p;
        last[s] = j as u16 + 1;
    }
    least as u32
}
