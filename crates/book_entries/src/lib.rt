// Refusals 1 and 8 on the contents lines of a book, in one pass over its text and the image of its program.
#![tactic(auto)]

ghost use Rattle.std.specs.Prelude.{◌≡◌, ◌&&◌, ◌||◌, not, ◌+◌, ◌-◌, ◌<◌, eqb, ltb, leb};
ghost use Rattle.text.specs.Words.{least_from};
ghost use Rattle.text.specs.Text.{bad_line};
ghost use Rattle.book.specs.Book.{true_element, relation, dynamic, default};
ghost use Rattle.book.specs.Sum.{Strided};
ghost use Rattle.book.specs.Contents.{entry_fits};
ghost use Rattle.book.specs.Image.{program_in, first_entry_in, entry_count_in};
ghost use Rattle.book_entries.specs.Roll.{roll_with, untraced_by, RollEmpty};
ghost use Rattle.book_entries.specs.Pass.{faults, faults_from};

use book::{Entry, Function, Image};
use text::{Line, LineFaults};

// The entry names one of f functions, and as its arguments and value some of e elements.
fn in_bounds(f: u32, e: u32, x: Entry) -> bool
    ensures { result ≡ ltb x.function f && ltb x.arg1 e && ltb x.arg2 e && ltb x.value e }
{
    (x.function < f) & (x.arg1 < e) & (x.arg2 < e) & (x.value < e)
}

// The arguments that function f has not are 0 in the entry: those that it has are left out, and the others add up to 0.
fn arguments_fit(x: Entry, f: Function) -> bool
    ensures { result ≡ (leb 1 f.arity || eqb x.arg1 0) && (eqb f.arity 2 || eqb x.arg2 0) }
{
    let first = x.arg1 as u64 * (f.arity == 0) as u64;
    let second = x.arg2 as u64 * (f.arity != 2) as u64;
    first + second == 0
}

// The entry's value is true if f is a relation, and not undef otherwise.
fn value_fits(x: Entry, f: Function) -> bool
    ensures { result ≡ relation f && eqb x.value true_element || not (relation f) && not (eqb x.value (default f)) }
{
    if book_parts::is_relation(f) {
        x.value == 2
    } else {
        x.value != 0
    }
}

// The entry has no label if f is static; p elements are permanent.
fn static_fits(p: u32, x: Entry, f: Function) -> bool
    ensures { result ≡ dynamic f || ltb x.arg1 p && ltb x.arg2 p && ltb x.value p }
{
    book_parts::is_dynamic(f) || ((x.arg1 < p) & (x.arg2 < p) & (x.value < p))
}

// The entry, if it is one of Reserve, has a label as argument; p elements are permanent.
fn reserve_fits(p: u32, x: Entry) -> bool
    ensures { result ≡ not (eqb x.function 0) || leb p x.arg1 }
{
    x.function != 0 || p <= x.arg1
}

// The entry fits its function f, p elements being permanent.
fn entry_fits(p: u32, x: Entry, f: Function) -> bool
    ensures { result ≡ entry_fits p x f }
{
    arguments_fit(x, f) & value_fits(x, f) & static_fits(p, x, f) & reserve_fits(p, x)
}

// Adds the label that the entry puts on the roll to the table of such labels, if it is an entry of Reserve.
fn add_to_roll(roll: &mut [u8], x: Entry)
    ensures { roll.new ≡ roll_with x roll.old }
{
    if x.function == 0 {
        text::put(roll, x.arg1 as usize, 1);
    }
}

// The entry is no trace of a label that the table has on the roll.
fn no_trace(roll: &[u8], x: Entry) -> bool
    ensures { result ≡ untraced_by roll.now x }
{
    let a = text::fetch(roll, x.arg1 as usize);
    let b = text::fetch(roll, x.arg2 as usize);
    let v = text::fetch(roll, x.value as usize);
    (x.function == 0) | ((a == 0) & (b == 0) & (v == 0))
}

// What the pass finds when line i is at fault: the lines from i up to `end` are still checked for their form. It is called once at most, and kept apart
// since the loop of the pass is slower with it inside.
#[inline(never)]
fn fault_at(text: &[u8], i: u32, end: u32) -> LineFaults
    ensures { result ≡ faults (least_from (bad_line text.now) (end - i) i) (Some i) }
{
    let found = text::bad_line_from(text, i, end);
    match found {
        None => LineFaults {
            ill: None,
            fault: Some(i),
        },
        Some(j) => LineFaults {
            ill: Some(j),
            fault: None,
        },
    }
}

// Checks the lines from `first` up to `end`, with a table of the labels on the roll, which is empty to begin with.
fn check_entry_lines(
    text: &[u8],
    image: &Image,
    first: u32,
    end: u32,
    roll: &mut [u8],
) -> LineFaults
    requires { RollEmpty (program_in image.now).E roll.old }
    ensures { Strided (program_in image.now) → result ≡ faults_from (program_in image.now) text.now first (end - first) }
{
    let p = book_image::permanent(image);
    let e = book_image::elements(image) as u32;
    let n = book_image::functions(image) as u32;
    let mut low: usize = 0;
    for i in first..end {
        let Some(l) = text::parse(text, i) else {
            return LineFaults {
                ill: Some(i),
                fault: None,
            };
        };
        let x = Entry::from(l);
        let f = book_image::function_at(image, x.function);
        // This is the entry's location if its arguments fit f, which is tested together with it.
        let place = book_parts::location(f, x.arg1, x.arg2);
        if !(in_bounds(n, e, x) & (entry_fits(p, x, f) & (low <= place) & no_trace(roll, x))) {
            return fault_at(text, i, end);
        }
        add_to_roll(roll, x);
        low = place + 1;
    }
    LineFaults {
        ill: None,
        fault: None,
    }
}

// Refusals 1 and 8: the least contents line that is ill-formed, or else the least at fault. Most books have few elements, and a small table is soon cleared.
// A helper generic in the table's length would be no plainer: its contract is longer than the two lines that it saves.
pub fn check_entries(text: &[u8], image: &Image) -> LineFaults
    ensures { Strided (program_in image.now) → result ≡ faults_from (program_in image.now) text.now (first_entry_in image.now) (entry_count_in image.now) }
{
    let first = book_image::first_entry(image);
    let end = first + book_image::entries(image);
    if book_image::elements(image) <= 256 {
        let mut roll = [0u8; 256];
        check_entry_lines(text, image, first, end, &mut roll)
    } else {
        let mut roll = [0u8; 10000];
        check_entry_lines(text, image, first, end, &mut roll)
    }
}
