// Refusals 3 and 4: the fields of a book's header, and the rows of its functions' lines, checked.
#![tactic(auto)]

ghost use Rattle.std.specs.Prelude.{◌≡◌, ◌+◌, length};
ghost use Rattle.text.specs.Words.{least};
ghost use Rattle.book.specs.Lines.{first_function, bad_field, bad_function};
ghost use Rattle.book.specs.Image.{image_row, program_in};

use book::Image;
use text::Line;

// Refusal 3: field i of the header, whose lines are k and l, is outside its bounds.
fn bad_field(k: Line, l: Line, i: u32) -> bool
    ensures { result ≡ bad_field k l i }
{
    ((i == 0) & !((4 <= k.a) & (k.a <= 10000)))
        | ((i == 1) & !((4 <= k.b) & (k.b <= k.a)))
        | ((i == 2) & !((1 <= k.c) & (k.c <= 32)))
        | ((i == 3) & !((1 <= k.d) & (k.d <= 1024)))
        | ((i == 4) & !((1 <= l.a) & (l.a <= 16)))
        | ((i == 5) & !(l.b <= 65536))
        | ((i == 6) & (l.c != 0))
        | ((i == 7) & (l.d != 0))
}

// Refusal 3: the least field of the header that is outside its bounds.
pub fn bad_header(k: Line, l: Line) -> Option<u32>
    ensures { result ≡ least (bad_field k l) 8 }
{
    (0..8).find(|&i| bad_field(k, l, i))
}

// Refusal 4: function line f is at fault.
fn bad_function(l: Line, f: u32) -> bool
    ensures { result ≡ bad_function l f }
{
    !((l.a <= 2) & (l.b <= 3) & (l.c == 0) & (l.d == 0) & ((f != 0) | ((l.a == 1) & (l.b == 3))))
}

// Refusal 4: the least function whose line is at fault, on the rows before the functions have first locations.
pub fn bad_functions(image: &Image) -> Option<u32>
    ensures { result ≡ least (λ f. bad_function (image_row image.now (first_function + f)) f) (length (program_in image.now).functions) }
{
    let n = book_image::functions(image) as u32;
    (0..n).find(|&f| bad_function(book_image::row(image, book_image::FUNCTION_ROWS + f), f))
}
