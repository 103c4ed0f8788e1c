// The start of a run, written into a contents table: each location's default, then the book's entries.
#![tactic(auto)]

ghost use Rattle.std.specs.Prelude.{◌≡◌, ◌≤◌};
ghost use Rattle.book.specs.Image.{low_program};
ghost use Rattle.book_parts.specs.Part.{put_in};
ghost use Rattle.contents_start.specs.Written.{function_filled, defaults_in, entry_put, entries_put, entry_lines, started};

use book::Image;
use text::{Line, Value};

// Puts v at the locations from `first` up to `end`, as far as the table goes.
fn fill_function(contents: &mut [Value], first: usize, end: usize, v: Value)
    requires { first ≤ end }
    ensures { contents.new ≡ function_filled first end v contents.old }
{
    let n = contents.len();
    let a = first.min(n);
    let b = end.min(n);
    contents[a..b].fill(v);
}

// Puts its default at every location, function by function.
fn write_defaults(image: &Image, contents: &mut [Value])
    ensures { contents.new ≡ defaults_in (low_program image.now) contents.old }
{
    let n = book_image::functions(image);
    let mut first: u32 = 0;
    for f in 0..n {
        let own = book_parts::part_from(image, f, first);
        let v = book_parts::default_of(own.function);
        fill_function(contents, own.first, own.end, v);
        first = own.end as u32;
    }
}

// Puts v at location l of the part from `first` up to `end`, as far as the table goes.
fn store_in_part(contents: &mut [Value], first: usize, end: usize, l: usize, v: Value)
    requires { (first ≤ end) × (first ≤ l) }
    ensures { contents.new ≡ put_in first end l v contents.old }
{
    let n = contents.len();
    let a = first.min(n);
    let b = end.min(n);
    text::put(&mut contents[a..b], l - first, v);
}

// Puts the value of a contents line at its location.
fn write_entry(image: &Image, contents: &mut [Value], l: Line)
    ensures { contents.new ≡ entry_put (low_program image.now) l contents.old }
{
    let f = text::low(l.a);
    let x = text::low(l.b);
    let y = text::low(l.c);
    let g = book_image::function_at(image, f as u32);
    let own = book_parts::part_from(image, f, g.first);
    let place = book_parts::location(g, x as u32, y as u32);
    store_in_part(contents, own.first, own.end, place, text::low(l.d));
}

// Puts the values of all contents lines, one by one, from where the image says that the lines are.
fn write_entries(book: &[u8], image: &Image, contents: &mut [Value])
    ensures { contents.new ≡ entries_put (low_program image.now) (entry_lines image.now book.now) contents.old }
{
    let first = book_image::first_entry(image);
    let count = book_image::entries(image);
    for i in 0..count {
        let entry = text::read_line(book, first, i);
        write_entry(image, contents, entry);
    }
}

// Writes the start of a run of the book whose image it is: every location's default, then the contents lines.
pub fn write_start(book: &[u8], image: &Image, contents: &mut [Value])
    ensures { contents.new ≡ started image.now book.now contents.old }
{
    write_defaults(image, contents);
    write_entries(book, image, contents);
}
