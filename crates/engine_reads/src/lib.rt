// What rules read beside their terms: Reserve and universes; each read marks its location.
#![tactic(auto)]

ghost use Rattle.std.specs.Prelude.{◌≡◌, map, ◌-◌, ◌≤◌};
ghost use Rattle.std.specs.Int.Bits.{bit_or, bit_and};
ghost use Rattle.text.specs.Words.{table_from};
ghost use Rattle.book.specs.Book.{reserve, dynamic_at};
ghost use Rattle.engine.specs.Reader.{read};
ghost use Rattle.engine.specs.Rule.{lowest, universe_at};
ghost use Rattle.book.specs.Image.{low_program};
ghost use Rattle.engine_term.specs.Marks.{marked_if_dynamic, marked, Has, Placed, Runs};
ghost use Rattle.engine_reads.specs.Marking.{found_below, universe_marked, member, next_passing};

use book::{Function, Image};
use engine_term::Frame;
use text::Value;

// ---- marks of a part

// Leaves in all marks only the bits of the mask.
pub fn mask_marks(readers: &mut [u64], mask: u64)
    ensures { readers.new ≡ map (λ v. bit_and v mask) readers.old }
{
    for mark in readers.iter_mut() {
        *mark &= mask;
    }
}

// Puts the bit into all marks of a part.
fn mark_part(part: &mut [u64], bit: u64)
    ensures { part.new ≡ map (λ v. bit_or v bit) part.old }
{
    for mark in part.iter_mut() {
        *mark |= bit;
    }
}

// Puts the bit into the marks from `first` up to `end`, as far as they go.
fn mark_between(readers: &mut [u64], bit: u64, first: usize, end: usize)
    ensures { readers.new ≡ marked bit (table_from (λ l. l) first (end - first)) readers.old }
{
    let stop = end.min(readers.len());
    let start = first.min(stop);
    mark_part(&mut readers[start..stop], bit);
}

// ---- labels and Reserve

// The lowest label on the roll from `from` on, or E; Reserve is marked as read at the labels tried.
pub fn lowest_label(frame: &Frame, readers: &mut [u64], from: Value) -> Value
    ensures { Runs (low_program frame.now.image.now) frame.now.contents.now frame.now.bit (lowest from ((low_program frame.now.image.now).E - from)) (found_below (low_program frame.now.image.now).E result) readers.old readers.new }
{
    let e = book_image::elements(frame.image);
    for x in from..e {
        engine_term::mark(readers, frame.bit, x as usize);
        if text::fetch(frame.contents, x as usize) == 2 {
            return x;
        }
    }
    e
}

// Location x, which is Reserve's if x is an element, is dynamic.
fn is_reserve_dynamic(image: &Image, x: Value) -> bool
    ensures { Placed (low_program image.now) → result ≡ dynamic_at (low_program image.now) x }
{
    if x < book_image::elements(image) {
        return true;
    }
    engine_term::dynamic_at(image, x as usize)
}

// Marks Reserve at x as read.
fn mark_reserve(frame: &Frame, readers: &mut [u64], x: Value)
    ensures { Placed (low_program frame.now.image.now) → readers.new ≡ marked_if_dynamic (low_program frame.now.image.now) frame.now.bit x readers.old }
{
    if is_reserve_dynamic(frame.image, x) {
        engine_term::mark(readers, frame.bit, x as usize);
    }
}

// The value of Reserve at x, which is marked as read.
pub fn read_reserve(frame: &Frame, readers: &mut [u64], x: Value) -> Value
    ensures { Runs (low_program frame.now.image.now) frame.now.contents.now frame.now.bit (read (reserve x)) result readers.old readers.new }
{
    mark_reserve(frame, readers, x);
    text::fetch(frame.contents, x as usize)
}

// ---- universes

// Marks the universe f as read at all elements, of which there are e, if it is dynamic: its locations are one run from its first on.
pub fn mark_universe(readers: &mut [u64], bit: u64, f: Function, e: Value)
    ensures { readers.new ≡ universe_marked f e bit readers.old }
{
    if book_parts::is_dynamic(f) {
        let first = f.first as usize;
        mark_between(readers, bit, first, first + e as usize);
    }
}

// The value of the universe u at x, which is marked as read; of a number that is no element it is false, and nothing is read.
pub fn read_universe(frame: &Frame, readers: &mut [u64], u: u16, x: Value) -> Value
    ensures { Has (low_program frame.now.image.now) u 1 → Runs (low_program frame.now.image.now) frame.now.contents.now frame.now.bit (universe_at (low_program frame.now.image.now) u x) result readers.old readers.new }
{
    if x < book_image::elements(frame.image) {
        return frame.read(readers, u, 0, x);
    }
    1
}

// The least member from `from` on of a universe of e elements whose first location is `first`, or e if there is none.
pub fn next_member(contents: &[Value], first: u32, e: Value, from: Value) -> Value
    ensures { (from ≤ result) × (result ≡ next_passing (member contents.now first) from (e - from)) }
{
    for y in from..e {
        if text::fetch(contents, first as usize + y as usize) == 2 {
            return y;
        }
    }
    from.max(e)
}
