// The image of a program, and the one way to read it: its counts, its functions, nodes and agents, and how many locations it has.
#![tactic(auto)]

ghost use Rattle.std.specs.Prelude.{◌≡◌, ◌+◌, length};
ghost use Rattle.book.specs.Book.{size, stride, no_function, no_node, function_at, node_at, agent_at};
ghost use Rattle.book.specs.Image.{image_length, word, image_row, program_in, first_entry_in, entry_count_in, FitsImage, capped_header, stored, node_stored};

use book::{Agent, Function, Header, Image, Node};
use text::{Line, Value};

// The first row of the functions.
pub const FUNCTION_ROWS: u32 = 2;

// The first row of the agents.
pub const AGENT_ROWS: u32 = 34;

// The first word of the nodes, which have two words each.
const NODE_WORDS: usize = 200;

// The weight of the kind in a node's first word, where it stands above a.
const ABOVE_A: u32 = 1048576;

// The weight of b in a node's second word, where it stands above c.
const ABOVE_C: u32 = 65536;

// ---- rows

// Row r of the image; past its end each number is 0.
pub fn row(image: &Image, r: u32) -> Line
    ensures { result ≡ image_row image.now r }
{
    let at = r as usize * 4;
    Line {
        a: text::fetch(image, at),
        b: text::fetch(image, at + 1),
        c: text::fetch(image, at + 2),
        d: text::fetch(image, at + 3),
    }
}

// Puts l as row r; past the end nothing is put. The contract also says how long an image is, since
// callers' proofs need it.
pub fn store(image: &mut Image, r: u32, l: Line)
    ensures { (image.new ≡ stored r l image.old) × (length image.old ≡ image_length) }
{
    let at = r as usize * 4;
    text::put(image, at, l.a);
    text::put(image, at + 1, l.b);
    text::put(image, at + 2, l.c);
    text::put(image, at + 3, l.d);
}

// Puts y as node n. A field that has too few bits becomes the largest number that they hold.
pub fn store_node(image: &mut Image, n: u32, y: Node)
    ensures { image.new ≡ node_stored n y image.old }
{
    let at = NODE_WORDS + n as usize * 2;
    text::put(image, at, y.kind.min(4095) * ABOVE_A + y.a.min(1048575));
    text::put(image, at + 1, y.b.min(65535) * ABOVE_C + y.c.min(65535));
}

// The header with each number that is past its bound at the bound.
pub fn capped(h: Header) -> Header
    ensures { (result ≡ capped_header h) × FitsImage result }
{
    Header {
        elements: h.elements.min(book::MOST_ELEMENTS),
        permanent: h.permanent.min(book::MOST_ELEMENTS),
        functions: h.functions.min(book::MOST_FUNCTIONS),
        nodes: h.nodes.min(book::MOST_NODES),
        agents: h.agents.min(book::MOST_AGENTS),
        contents: h.contents.min(book::MOST_CONTENTS),
    }
}

// ---- counts

// E, the number of elements.
pub fn elements(image: &Image) -> Value
    ensures { result ≡ (program_in image.now).E }
{
    image[0].min(book::MOST_ELEMENTS) as Value
}

// P, the number of permanent elements.
pub fn permanent(image: &Image) -> u32
    ensures { result ≡ (program_in image.now).P }
{
    image[1]
}

// F, the number of functions.
pub fn functions(image: &Image) -> u16
    ensures { result ≡ length (program_in image.now).functions }
{
    image[2].min(book::MOST_FUNCTIONS) as u16
}

// N, the number of nodes.
pub fn nodes(image: &Image) -> u16
    ensures { result ≡ length (program_in image.now).nodes }
{
    image[3].min(book::MOST_NODES) as u16
}

// A, the number of agents.
pub fn agents(image: &Image) -> u16
    ensures { result ≡ length (program_in image.now).agents }
{
    image[4].min(book::MOST_AGENTS) as u16
}

// C, the number of contents lines.
pub fn entries(image: &Image) -> u32
    ensures { result ≡ entry_count_in image.now }
{
    image[5].min(book::MOST_CONTENTS)
}

// The line of the text at which the contents lines start.
pub fn first_entry(image: &Image) -> u32
    ensures { result ≡ first_entry_in image.now }
{
    2 + functions(image) as u32 + nodes(image) as u32 + agents(image) as u32
}

// L, the number of locations, as the book check leaves it.
pub fn locations(image: &Image) -> u32
    ensures { result ≡ word image.now 6 }
{
    image[6]
}

// ---- functions, nodes, agents

// What stands past the last function: all fields are 0, but the stride is 1.
fn no_function() -> Function
    ensures { result ≡ no_function }
{
    Function {
        first: 0,
        arity: 0,
        kind: 0,
        stride: 1,
    }
}

// Function f; past the last one all fields are 0, but the stride is 1. Each read of a term comes through here, so the two bounds are tested one by one.
pub fn function_at(image: &Image, f: u32) -> Function
    ensures { result ≡ function_at (program_in image.now) f }
{
    if image[2] <= f {
        return no_function();
    }
    if book::MOST_FUNCTIONS <= f {
        return no_function();
    }
    let at = (FUNCTION_ROWS as usize + f as usize) * 4;
    Function {
        first: image[at],
        arity: image[at + 1],
        kind: image[at + 2],
        stride: image[at + 3],
    }
}

// What stands past the last node: all fields are 0.
fn no_node() -> Node
    ensures { result ≡ no_node }
{
    Node {
        kind: 0,
        a: 0,
        b: 0,
        c: 0,
    }
}

// Node n; past the last one all fields are 0. Every term and rule is read through here, so the two bounds are tested one by one, which is
// faster than taking the smaller first.
pub fn node_at(image: &Image, n: u32) -> Node
    ensures { result ≡ node_at (program_in image.now) n }
{
    if image[3] <= n {
        return no_node();
    }
    if book::MOST_NODES <= n {
        return no_node();
    }
    let at = NODE_WORDS + n as usize * 2;
    let v = image[at];
    let w = image[at + 1];
    Node {
        kind: v / ABOVE_A,
        a: v % ABOVE_A,
        b: w / ABOVE_C,
        c: w % ABOVE_C,
    }
}

// Agent i; past the last one all fields are 0.
pub fn agent_at(image: &Image, i: u32) -> Agent
    ensures { result ≡ agent_at (program_in image.now) i }
{
    if i < image[4].min(book::MOST_AGENTS) {
        let at = (AGENT_ROWS as usize + i as usize) * 4;
        Agent {
            root: image[at],
            element: image[at + 1],
        }
    } else {
        Agent {
            root: 0,
            element: 0,
        }
    }
}

// How many locations a function of that arity has, e being the number of elements.
pub fn size(e: Value, arity: u32) -> u32
    ensures { result ≡ size e arity }
{
    if arity == 0 {
        return 1;
    }
    if arity == 1 {
        return e as u32;
    }
    e as u32 * e as u32
}

// The stride of a function of that arity, e being the number of elements.
pub fn stride(e: Value, arity: u32) -> u32
    ensures { result ≡ stride e arity }
{
    if arity < 2 { 1 } else { e as u32 }
}
