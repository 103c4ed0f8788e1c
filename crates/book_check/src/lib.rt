// The whole check of a book, refusals 1 and 3 to 8 in the order of SPECIFICATION 3. Each line is read once; from a contents line at
// fault on, the form is read again.
#![tactic(auto)]

ghost use Rattle.std.specs.Prelude.{◌≡◌, List, ℕ, ◌≤◌, length};
ghost use Rattle.text.specs.Words.{least, answer_of, told};
ghost use Rattle.text.specs.Text.{bad_line};
ghost use Rattle.book.specs.declared.Header.{Header};
ghost use Rattle.book.specs.Lines.{header_of};
ghost use Rattle.book.specs.Image.{image_length, FitsImage};
ghost use Rattle.book.specs.Check.{check_program, check_book};
ghost use Rattle.book_load.specs.Loaded.{functions_laid, HoldsLines};
ghost use Rattle.book_check.specs.ImageOf.{ImageOf, check_text};

use book::{Header, Image};
use text::{Line, Reason, Refusal};

// The number of L among the fields of the header, as refusal 3 gives it.
const FIELD_OF_L: u32 = 8;

// The header that the two header lines say.
fn header_of(k: Line, l: Line) -> Header
    ensures { result ≡ header_of k l }
{
    Header {
        elements: k.a,
        permanent: k.b,
        functions: k.c,
        nodes: k.d,
        agents: l.a,
        contents: l.b,
    }
}

// Refusal 4, refusal 3 for L, and refusals 5 to 7, on the rows of lines that are in form. The functions get their first locations and strides once their lines are checked.
fn check_program(image: &mut Image) -> Result<(), Refusal>
    ensures { (image.new ≡ functions_laid image.old) × (image_length ≤ length image.old) × ((h : Header) (text : List ℕ) → FitsImage h → HoldsLines image.old h text → told result ≡ answer_of (check_program h text)) }
{
    let bad_function = book_header::bad_functions(image);
    book_load::lay_out(image);
    let functions = text::none_at(Reason::FunctionLine, 0, bad_function);
    functions?;
    let all = book_image::locations(image);
    let locations = text::must(
        all <= book::MOST_LOCATIONS,
        Reason::HeaderBounds,
        FIELD_OF_L,
        0,
    );
    locations?;
    let nodes = text::none_at(Reason::NodeLine, 0, book_nodes::bad_nodes(image));
    nodes?;
    let uses = text::none_at(Reason::NodeUse, 0, book_scopes::bad_use(image));
    uses?;
    let around = text::none_at(Reason::NodeUse, 0, book_scopes::bad_scope(image));
    around?;
    text::none_at(Reason::AgentLine, 0, book_nodes::bad_agents(image))
}

// Refusal 1 on all lines after the header, 4, 3 for L, and 5 to 8.
fn check_text(text: &[u8], h: Header, image: &mut Image) -> Result<(), Refusal>
    requires { (FitsImage h) × (least (bad_line text.now) 2 ≡ None) }
    ensures { (told result ≡ answer_of (check_text h text.now)) × ImageOf image.new (check_text h text.now) }
{
    let rows = text::none_at(Reason::IllFormed, 0, book_load::load(text, h, image));
    rows?;
    let program = check_program(image);
    let contents = book_entries::check_entries(text, image);
    let ill_formed = contents.ill;
    let at_fault = contents.fault;
    let form = text::none_at(Reason::IllFormed, 0, ill_formed);
    form?;
    let all = 2 + h.functions + h.nodes + h.agents + h.contents;
    let surplus = text::must(
        text.len() <= text::LINE * all as usize,
        Reason::IllFormed,
        all,
        0,
    );
    surplus?;
    program?;
    text::none_at(Reason::ContentsRule, 0, at_fault)
}

// The whole check of a book. It leaves the image of an accepted one.
pub fn check_into(book: &[u8], image: &mut Image) -> Result<(), Refusal>
    ensures { (told result ≡ answer_of (check_book book.now)) × ImageOf image.new (check_book book.now) }
{
    let Some(k) = text::parse(book, 0) else {
        return text::refused(Reason::IllFormed, 0, 0);
    };
    let Some(l) = text::parse(book, 1) else {
        return text::refused(Reason::IllFormed, 1, 0);
    };
    let bounds = text::none_at(Reason::HeaderBounds, 0, book_header::bad_header(k, l));
    bounds?;
    check_text(book, header_of(k, l), image)
}

// The whole check of a book, without its image.
pub fn check_book(book: &[u8]) -> Result<(), Refusal>
    ensures { told result ≡ answer_of (check_book book.now) }
{
    let mut image = [0u32; 2248];
    check_into(book, &mut image)
}
