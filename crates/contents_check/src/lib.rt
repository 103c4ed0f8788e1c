// Refusal 8 of a lent contents table: the least location at fault (SPECIFICATION 3.9).
#![tactic(auto)]

ghost use Rattle.std.specs.Prelude.{◌≡◌, ◌&&◌, ◌||◌, ℕ, ◌+◌, ◌<◌, ◌≤◌, eqb, ltb, get_or};
ghost use Rattle.text.specs.Words.{least};
ghost use Rattle.book.specs.Book.{Program, L, true_element, size, dynamic, default};
ghost use Rattle.book.specs.Sum.{Strided, arguments_by};
ghost use Rattle.book.specs.Image.{low_program};
ghost use Rattle.book.specs.Contents.{some_on_roll, all_permanent, bad_value};
ghost use Rattle.contents_check.specs.Part.{Held, Faultless, SkippedTo, Part};

use book::{Function, Image};
use book_parts::Arguments;
use text::Value;

// ---- Refusal 8

// x is an element on the roll, e being the number of elements.
fn on_roll(contents: &[Value], e: Value, x: usize) -> bool
    ensures { result ≡ (ltb x e && eqb (get_or contents.now x 0) true_element) }
{
    (x < e as usize) & (text::fetch(contents, x) == 2)
}

// Those of the two arguments that a function of that arity has are permanent.
fn all_permanent(p: Value, arity: u32, a: Arguments) -> bool
    ensures { result ≡ all_permanent p (arguments_by arity a.first a.second) }
{
    ((arity < 1) | (a.first < p as usize)) & ((arity < 2) | (a.second < p as usize))
}

// f may hold v at these arguments: f is dynamic, or v is its default, or v and the arguments are permanent.
fn is_static_fine(p: Value, f: Function, v: Value, a: Arguments) -> bool
    ensures { result ≡ (dynamic f || eqb v (default f) || all_permanent p (arguments_by f.arity a.first a.second) && ltb v p) }
{
    if book_parts::is_dynamic(f) {
        return true;
    }
    (v == book_parts::default_of(f)) | all_permanent(p, f.arity, a) & (v < p)
}

// One of the two arguments is on the roll, of those that a function of that arity has.
fn some_on_roll(contents: &[Value], e: Value, arity: u32, a: Arguments) -> bool
    ensures { (B : Program) → B.E ≡ e → result ≡ some_on_roll B contents.now (arguments_by arity a.first a.second) }
{
    ((1 <= arity) & on_roll(contents, e, a.first)) | ((2 <= arity) & on_roll(contents, e, a.second))
}

// Refusal 8: location l, which is number i of f, is at fault.
fn is_bad(contents: &[Value], e: Value, p: Value, f: Function, l: u32, i: u32) -> bool
    ensures { (B : Program) → Held B e p f l i → result ≡ bad_value B contents.now l }
{
    let a = book_parts::take_apart(f, i as usize);
    let v = text::fetch(contents, l as usize);
    let lawful = (v < e)
        & (!book_parts::is_relation(f) | book_parts::is_boolean(v))
        & is_static_fine(p, f, v, a);
    if l < e as u32 {
        return !(lawful & ((v != 2) | (p as u32 <= l)));
    }
    let trace = on_roll(contents, e, v as usize)
        | (v != book_parts::default_of(f)) & some_on_roll(contents, e, f.arity, a);
    !(lawful & !trace)
}

// A value that no location of f is at fault for: its default, if that is an element and not on the roll; else a number that no location holds.
fn faultless_value(contents: &[Value], e: Value, f: Function) -> u32
    ensures { Faultless contents.now e f result }
{
    let v = book_parts::default_of(f);
    if (v < e) & (text::fetch(contents, v as usize) != 2) {
        return v as u32;
    }
    65536
}

// A location from l up to `end`, before which all locations from l on hold v.
fn skip_value(contents: &[Value], v: u32, l: u32, end: u32) -> u32
    requires { l ≤ end }
    ensures { SkippedTo contents.now v l end result }
{
    let n = (end as usize).min(contents.len());
    for k in l as usize..n {
        if contents[k] as u32 != v {
            return k as u32;
        }
    }
    l.max(n as u32)
}

// The least location at fault of f's part, counted from its first. Nearly all hold a value that is not at fault, and only the others are checked in full.
fn bad_part(
    contents: &[Value],
    e: Value,
    p: Value,
    f: Function,
    first: u32,
    end: u32,
) -> Option<u32>
    requires { first ≤ end }
    ensures value { (B : Program) → Part B e p f first end → result ≡ least (λ i. bad_value B contents.now (first + i)) (size e f.arity) }
    ensures by_index { (i : ℕ) → result ≡ Some i → first + i < end }
{
    let v = faultless_value(contents, e, f);
    let mut l = skip_value(contents, v, first, end);
    // l jumps over what skip_value skips, so no range counts it.
    while l < end {
        if is_bad(contents, e, p, f, l, l - first) {
            return Some(l - first);
        }
        l = skip_value(contents, v, l + 1, end);
    }
    None
}

// Refusal 8 of a lent table: the least location at fault, function after function.
pub fn bad_value(image: &Image, contents: &[Value]) -> Option<u32>
    ensures { Strided (low_program image.now) → result ≡ least (bad_value (low_program image.now) contents.now) (L (low_program image.now)) }
{
    let e = book_image::elements(image);
    let p = book_parts::permanent(image);
    let n = book_image::functions(image);
    let mut first: u32 = 0;
    for g in 0..n {
        let own = book_parts::part_from(image, g, first);
        let end = own.end as u32;
        if let Some(i) = bad_part(contents, e, p, own.function, first, end) {
            return Some(first + i);
        }
        first = end;
    }
    None
}
