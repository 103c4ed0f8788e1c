// The rows and nodes of an image, loaded from the text of a book: each line is read once, its form and its numbers together.
#![tactic(auto)]

ghost use Rattle.std.specs.Prelude.{◌≡◌, ◌+◌, ◌-◌, ◌<◌, ◌≤◌, length};
ghost use Rattle.book.specs.Lines.{first_entry};
ghost use Rattle.book.specs.Image.{image_length, image_row, FitsImage, capped_header, filled, first_location, laid_row};
ghost use Rattle.book_load.specs.Loaded.{line_loaded, header_loaded, functions_laid, LinesLoaded};

use book::{Header, Image, Node};
use text::{Line, Value};

// Puts line i of the text where the image has it: functions and agents in rows, nodes in two words.
fn put_line(h: Header, i: u32, l: Line, image: &mut Image)
    requires { (FitsImage h) × (i < first_entry h) }
    ensures { image.new ≡ line_loaded h i l image.old }
{
    let nodes = 2 + h.functions;
    let agents = nodes + h.nodes;
    if i < nodes {
        book_image::store(image, i, l);
    } else if i < agents {
        book_image::store_node(image, i - nodes, Node::from(l));
    } else {
        book_image::store(image, book_image::AGENT_ROWS + (i - agents), l);
    }
}

// Puts the header's two rows; L is not known yet.
fn put_header(h: Header, image: &mut Image)
    ensures { image.new ≡ header_loaded h image.old }
{
    book_image::store(
        image,
        0,
        Line {
            a: h.elements,
            b: h.permanent,
            c: h.functions,
            d: h.nodes,
        },
    );
    book_image::store(
        image,
        1,
        Line {
            a: h.agents,
            b: h.contents,
            c: 0,
            d: 0,
        },
    );
}

// Puts the lines of functions, nodes and agents, up to the first that is ill-formed, which it gives.
fn load_lines(text: &[u8], h: Header, image: &mut Image) -> Option<u32>
    requires { FitsImage h }
    ensures { LinesLoaded h text.now image.old image.new result }
{
    let end = 2 + h.functions + h.nodes + h.agents;
    for i in 2..end {
        let Some(l) = text::parse(text, i) else {
            return Some(i);
        };
        put_line(h, i, l, image);
    }
    None
}

// Refusal 1 on the lines of functions, nodes and agents: the least one that is ill-formed. Those before it are put into the image as they stand.
pub fn load(text: &[u8], h: Header, image: &mut Image) -> Option<u32>
    ensures { LinesLoaded (capped_header h) text.now (header_loaded (capped_header h) image.old) image.new result }
{
    let g = book_image::capped(h);
    put_header(g, image);
    load_lines(text, g, image)
}

// Gives the rows of n functions their first locations and strides, and says how many locations the functions have together.
fn lay_functions(e: Value, n: u32, image: &mut Image) -> u32
    requires { (e ≤ 10000) × (n ≤ 32) }
    ensures { (result ≡ first_location (λ f. image_row image.old (2 + f)) e n) × (image.new ≡ filled (laid_row (λ f. image_row image.old (2 + f)) e) 2 n 0 image.old) }
{
    let mut sum: u32 = 0;
    for i in 0..n {
        let l = book_image::row(image, book_image::FUNCTION_ROWS + i);
        book_image::store(
            image,
            book_image::FUNCTION_ROWS + i,
            Line {
                a: sum,
                b: l.a,
                c: l.b,
                d: book_image::stride(e, l.a),
            },
        );
        sum += book_image::size(e, l.a);
    }
    sum
}

// Gives the functions of an image their first locations and strides, and the header's second row L.
pub fn lay_out(image: &mut Image)
    ensures { (image.new ≡ functions_laid image.old) × (length image.old ≡ image_length) }
{
    let e = book_image::elements(image);
    let n = book_image::functions(image) as u32;
    let a = image[4];
    let c = image[5];
    let all = lay_functions(e, n, image);
    book_image::store(
        image,
        1,
        Line {
            a,
            b: c,
            c: all,
            d: 0,
        },
    );
}
