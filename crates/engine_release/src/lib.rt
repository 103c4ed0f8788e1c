// Released labels cleared, from a function's part of the contents and from all: every location that a release clears gets its default, and what that
// reads and writes is marked.
#![tactic(auto)]

ghost use Rattle.std.specs.Prelude.{◌≡◌, false, ℕ, ◌+◌, ◌≤◌, ◌<◌, eqb, length, get_or, set};
ghost use Rattle.text.specs.Words.{has};
ghost use Rattle.book.specs.Book.{default};
ghost use Rattle.book.specs.Sum.{first_argument, second_argument, arguments_by};
ghost use Rattle.engine.specs.Move.{taken_reads};
ghost use Rattle.engine_term.specs.Marks.{marked, mark};
ghost use Rattle.engine_instruction.specs.Given.{clears_in};
ghost use Rattle.engine_release.specs.Part.{value_cleared_in, part_cleared, part_marked, cleared_reads, reads_in, part_reads};
ghost use Rattle.book.specs.Image.{low_program};
ghost use Rattle.engine_instruction.specs.Code.{decoded};
ghost use Rattle.engine_release.specs.Steps.{function_cleared, function_marked, function_reads, label_cleared, label_marked, label_reads, instruction_cleared, instruction_marked, instruction_reads, all_cleared, all_marked, all_reads};

use book::{Function, Image};
use engine::Instruction;
use text::Value;

// A label that a move releases, and what clearing it from a function's part needs: P, the function with its first location, the move's bit.
#[derive(Clone, Copy)]
pub struct Released {
    pub label: Value,
    pub permanent: Value,
    pub function: Function,
    pub first: u32,
    pub bit: u64,
}

// A location that held a value gets v: if the value held was a label other than v, Reserve at that label is marked as read.
pub fn mark_taken(readers: &mut [u64], p: Value, held: Value, v: Value, bit: u64)
    ensures { readers.new ≡ marked bit (taken_reads p held v) readers.old }
{
    if (p <= held) & (v != held) {
        engine_term::mark(readers, bit, held as usize);
    }
}

// Marks what clearing location i of the part reads: the location, and Reserve at the label that it held, if any.
fn mark_cleared(readers: &mut [u64], r: Released, i: usize, held: Value)
    requires { i < 9223372036854775808 }
    ensures { readers.new ≡ marked r.bit (cleared_reads r.permanent (default r.function) (r.first + i) held) readers.old }
{
    let d = book_parts::default_of(r.function);
    engine_term::mark(readers, r.bit, r.first as usize + i);
    mark_taken(readers, r.permanent, held, d, r.bit);
}

// ---- places passed over

// The next place from i on that has x as first argument, at most n: these places come one after the other, as many as the stride.
fn next_first(f: Function, x: Value, i: usize, n: usize) -> usize
    requires { (0 < f.stride) × (i ≤ n) }
    ensures { (i ≤ result) × (result ≤ n) × ((k : ℕ) → i ≤ k → k < result → first_argument f k ≡ x → ⊥) }
{
    let s = f.stride as usize;
    let from = x as usize * s;
    if i < from {
        return from.min(n);
    }
    if i < from + s {
        return i;
    }
    n
}

// The next place from i on that has x as second argument, at most n: there is none if x is not below the stride, else one in as many places as the stride.
fn next_second(f: Function, x: Value, i: usize, n: usize) -> usize
    requires { (0 < f.stride) × (i ≤ n) × (n < 9223372036854775808) }
    ensures { (i ≤ result) × (result ≤ n) × ((k : ℕ) → i ≤ k → k < result → second_argument f k ≡ x → ⊥) }
{
    let s = f.stride as usize;
    let y = x as usize;
    if s <= y {
        return n;
    }
    let here = book_parts::take_apart(f, i);
    if here.second <= y {
        return (i + (y - here.second)).min(n);
    }
    (i + (s - here.second) + y).min(n)
}

// A place from i on up to which none has x as argument, at most n.
fn pass_arguments(f: Function, x: Value, i: usize, n: usize) -> usize
    requires { (i ≤ n) × (n < 9223372036854775808) }
    ensures { (i ≤ result) × (result ≤ n) × ((k : ℕ) → i ≤ k → k < result → has (arguments_by f.arity (first_argument f k) (second_argument f k)) x ≡ false) }
{
    if f.stride == 0 {
        return i;
    }
    next_second(f, x, i, next_first(f, x, i, n))
}

// The first of the places from i to `stop` that holds x, or `stop`.
fn pass_values(part: &[Value], x: Value, i: usize, stop: usize) -> usize
    requires { (i ≤ stop) × (stop ≤ length part.now) }
    ensures { (i ≤ result) × (result ≤ stop) × ((k : ℕ) → i ≤ k → k < result → eqb (get_or part.now k 0) x ≡ false) }
{
    for k in i..stop {
        if part[k] == x {
            return k;
        }
    }
    stop
}

// A place from i on up to which the label's release clears none: most of a part is passed over.
fn pass_over(part: &[Value], r: Released, i: usize) -> usize
    requires { i ≤ length part.now }
    ensures { (i ≤ result) × (result ≤ length part.now) × ((k : ℕ) → i ≤ k → k < result → clears_in r.function k (get_or part.now k 0) r.label ≡ false) }
{
    let n = part.len();
    let f = r.function;
    if book_parts::is_dynamic(f) {
        let stop = pass_arguments(f, r.label, i, n);
        return pass_values(part, r.label, i, stop);
    }
    n
}

// ---- labels cleared

// Location i of the part gets its default, if the label's release clears it; what that reads and writes is marked.
fn clear_one(part: &mut [Value], readers: &mut [u64], writers: &mut [u64], r: Released, i: usize)
    requires { i < length part.old }
    ensures part_after { part.new ≡ set part.old i (value_cleared_in r.function r.label i (get_or part.old i 0)) }
    ensures writers_after { writers.new ≡ set writers.old i (mark r.bit (clears_in r.function i (get_or part.old i 0) r.label) (get_or writers.old i 0)) }
    ensures readers_after { readers.new ≡ marked r.bit (reads_in r.permanent r.function r.label r.first i (get_or part.old i 0)) readers.old }
{
    let held = part[i];
    let a = book_parts::take_apart(r.function, i);
    if engine_instruction::clears_at(r.function, a, held, r.label) {
        part[i] = book_parts::default_of(r.function);
        mark_cleared(readers, r, i, held);
        engine_term::mark(writers, r.bit, i);
    }
}

// Each location of the part that the label's release clears gets its default; what that reads and writes is marked.
pub fn clear_part(part: &mut [Value], readers: &mut [u64], writers: &mut [u64], r: Released)
    ensures part_after { part.new ≡ part_cleared r.function r.label part.old }
    ensures writers_after { writers.new ≡ part_marked r.bit r.function r.label part.old writers.old }
    ensures readers_after { readers.new ≡ marked r.bit (part_reads r.permanent r.function r.label r.first part.old) readers.old }
{
    // A while, since each step goes as far as `pass_over` says. That is called in one place, so that its search for a value is compiled once, to a loop
    // within 16 bytes: a longer one takes twice the time where it lies over the end of 32.
    let mut i = 0;
    while i < part.len() {
        i = pass_over(part, r, i);
        if i < part.len() {
            clear_one(part, readers, writers, r, i);
            i += 1;
        }
    }
}

// ---- function after function

// Clears the label from the function's part, from its first location up to `end`. Only the part and its writer marks are lent on.
fn clear_function(
    contents: &mut [Value],
    readers: &mut [u64],
    writers: &mut [u64],
    r: Released,
    end: usize,
)
    requires { r.first ≤ end }
    ensures contents_after { contents.new ≡ function_cleared r.function r.label r.first end contents.old }
    ensures writers_after { writers.new ≡ function_marked r.bit r.function r.label r.first end contents.old writers.old }
    ensures readers_after { readers.new ≡ marked r.bit (function_reads r.permanent r.function r.label r.first end contents.old) readers.old }
{
    let first = r.first as usize;
    let n = contents.len();
    let a = first.min(n);
    let b = end.min(n);
    let m = writers.len();
    let p = first.min(m);
    let q = end.min(m);
    clear_part(&mut contents[a..b], readers, &mut writers[p..q], r);
}

// Clears x from all functions.
fn clear_label(
    image: &Image,
    contents: &mut [Value],
    readers: &mut [u64],
    writers: &mut [u64],
    x: Value,
    bit: u64,
)
    ensures contents_after { contents.new ≡ label_cleared (low_program image.now) x contents.old }
    ensures writers_after { writers.new ≡ label_marked bit (low_program image.now) x contents.old writers.old }
    ensures readers_after { readers.new ≡ marked bit (label_reads (low_program image.now) x contents.old) readers.old }
{
    let p = book_parts::permanent(image);
    let n = book_image::functions(image);
    let mut first: u32 = 0;
    for g in 0..n {
        let own = book_parts::part_from(image, g, first);
        let f = own.function;
        let r = Released {
            label: x,
            permanent: p,
            function: f,
            first,
            bit,
        };
        clear_function(contents, readers, writers, r, own.end);
        first = own.end as u32;
    }
}

// Clears the label that the instruction releases, if it is a release.
fn clear_instruction(
    image: &Image,
    contents: &mut [Value],
    readers: &mut [u64],
    writers: &mut [u64],
    what: Instruction,
    bit: u64,
)
    ensures contents_after { contents.new ≡ instruction_cleared (low_program image.now) what contents.old }
    ensures writers_after { writers.new ≡ instruction_marked bit (low_program image.now) what contents.old writers.old }
    ensures readers_after { readers.new ≡ marked bit (instruction_reads (low_program image.now) what contents.old) readers.old }
{
    if let Instruction::Release { label } = what {
        clear_label(image, contents, readers, writers, label, bit);
    }
}

// Clears every label that the list releases.
pub fn clear_released(
    image: &Image,
    contents: &mut [Value],
    readers: &mut [u64],
    writers: &mut [u64],
    list: &[u64],
    bit: u64,
)
    ensures contents_after { contents.new ≡ all_cleared (low_program image.now) (decoded list.now) contents.old }
    ensures writers_after { writers.new ≡ all_marked bit (low_program image.now) (decoded list.now) contents.old writers.old }
    ensures readers_after { readers.new ≡ marked bit (all_reads (low_program image.now) (decoded list.now) contents.old) readers.old }
{
    for code in list {
        let what = engine_instruction::decode(*code);
        clear_instruction(image, contents, readers, writers, what, bit);
    }
}
