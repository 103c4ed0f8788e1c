// A program as the engine holds it, its locations found and taken apart, and each function's part of the contents table.
#![tactic(auto)]

ghost use Rattle.std.specs.Prelude.{◌≡◌};
ghost use Rattle.book.specs.Book.{boolean, relation, dynamic, default, node_at};
ghost use Rattle.book.specs.Sum.{sum, first_argument, second_argument};
ghost use Rattle.book.specs.Image.{low_program};
ghost use Rattle.book_parts.specs.Part.{part_from, part_of, owner_of};
ghost use Rattle.book_parts.specs.NodeKinds.{HasNumber};
ghost use Rattle.book_parts.specs.StoredNodes.{stored_node};

use book::{Function, Image};
use text::Value;

// ---- what the engine takes from an image, in its own width

// P, the number of permanent elements.
pub fn permanent(image: &Image) -> Value
    ensures { result ≡ (low_program image.now).P }
{
    text::low(book_image::permanent(image))
}

// A node, its numbers in sixteen bits.
#[derive(Clone, Copy)]
pub struct StoredNode {
    pub kind: u16,
    pub a: u16,
    pub b: u16,
    pub c: u16,
}

// Node n, its numbers in sixteen bits; past the last one all fields are 0.
pub fn node(image: &Image, n: u16) -> StoredNode
    ensures { stored_node result ≡ node_at (low_program image.now) n }
{
    let w = book_image::node_at(image, n as u32);
    StoredNode {
        kind: text::low(w.kind),
        a: text::low(w.a),
        b: text::low(w.b),
        c: text::low(w.c),
    }
}

// The kinds of nodes, by their numbers (SPECIFICATION 2.7); `Other` is any number that is no kind's.
#[derive(Clone, Copy)]
pub enum NodeKind {
    Other = 0,
    Element = 1,
    Variable = 2,
    Agent = 3,
    Function = 4,
    FunctionOfOne = 5,
    FunctionOfTwo = 6,
    Equal = 7,
    Not = 8,
    And = 9,
    Or = 10,
    Plus = 11,
    Minus = 12,
    Less = 13,
    Skip = 20,
    Set = 21,
    Both = 22,
    If = 23,
    Let = 24,
    Forall = 25,
    Import = 26,
    Release = 27,
    Choose = 28,
}

// The kind that has the number k.
pub fn kind_of(k: u16) -> NodeKind
    ensures { HasNumber result k }
{
    match k {
        1 => NodeKind::Element,
        2 => NodeKind::Variable,
        3 => NodeKind::Agent,
        4 => NodeKind::Function,
        5 => NodeKind::FunctionOfOne,
        6 => NodeKind::FunctionOfTwo,
        7 => NodeKind::Equal,
        8 => NodeKind::Not,
        9 => NodeKind::And,
        10 => NodeKind::Or,
        11 => NodeKind::Plus,
        12 => NodeKind::Minus,
        13 => NodeKind::Less,
        20 => NodeKind::Skip,
        21 => NodeKind::Set,
        22 => NodeKind::Both,
        23 => NodeKind::If,
        24 => NodeKind::Let,
        25 => NodeKind::Forall,
        26 => NodeKind::Import,
        27 => NodeKind::Release,
        28 => NodeKind::Choose,
        _ => NodeKind::Other,
    }
}

// ---- kinds of functions

// The function is a relation, static or dynamic.
pub fn is_relation(f: Function) -> bool
    ensures { result ≡ relation f }
{
    (f.kind == 1) | (f.kind == 3)
}

// Moves may change the function's values.
pub fn is_dynamic(f: Function) -> bool
    ensures { result ≡ dynamic f }
{
    2 <= f.kind
}

// Whether v is false or true.
pub fn is_boolean(v: Value) -> bool
    ensures { result ≡ boolean v }
{
    (v == 1) | (v == 2)
}

// The function's default: false in a relation, undef elsewhere.
pub fn default_of(f: Function) -> Value
    ensures { result ≡ default f }
{
    if is_relation(f) { 1 } else { 0 }
}

// ---- locations

// The location of f at x and y, an argument that f has not being 0. Whatever finds a location from arguments asks here; what goes through all of a
// function's locations counts on from its first.
pub fn location(f: Function, x: u32, y: u32) -> usize
    ensures { result ≡ sum f x y }
{
    f.first as usize + x as usize * f.stride as usize + y as usize
}

// The two arguments of a location; one that its function has not is 0.
#[derive(Clone, Copy)]
pub struct Arguments {
    pub first: usize,
    pub second: usize,
}

// The arguments of location i of f. Whatever asks for the arguments of a location asks here. A division by 1 is left out, since most functions are unary.
pub fn take_apart(f: Function, i: usize) -> Arguments
    ensures { (result.first ≡ first_argument f i) × (result.second ≡ second_argument f i) }
{
    let s = f.stride as usize;
    if s == 1 {
        return Arguments {
            first: i,
            second: 0,
        };
    }
    if s == 0 {
        return Arguments {
            first: 0,
            second: i,
        };
    }
    Arguments {
        first: i / s,
        second: i % s,
    }
}

// ---- parts

// A run of the contents table, from location `first` up to `end`.
#[derive(Clone, Copy)]
pub struct Part {
    pub first: usize,
    pub end: usize,
}

// A function and its part of the contents table, from location `first` up to `end`.
#[derive(Clone, Copy)]
pub struct Owner {
    pub function: Function,
    pub first: usize,
    pub end: usize,
}

// Function g and its part, which starts at `first`: where the part of the function before it ends.
pub fn part_from(image: &Image, g: u16, first: u32) -> Owner
    ensures { result ≡ part_from (low_program image.now) g first }
{
    let f = book_image::function_at(image, g as u32);
    let size = book_image::size(book_image::elements(image), f.arity);
    Owner {
        function: f,
        first: first as usize,
        end: first as usize + size as usize,
    }
}

// The function that location l belongs to, and its part of the contents table; past L there is none, and the part is empty.
pub fn owner_of(image: &Image, l: usize) -> Owner
    ensures { result ≡ owner_of (low_program image.now) l }
{
    let n = book_image::functions(image);
    let mut first: u32 = 0;
    for g in 0..n {
        let own = part_from(image, g, first);
        if l < own.end {
            return own;
        }
        first = own.end as u32;
    }
    Owner {
        function: book_image::function_at(image, n as u32),
        first: first as usize,
        end: first as usize,
    }
}

// The part of the contents table that location l is in.
pub fn part_of(image: &Image, l: usize) -> Part
    ensures { result ≡ part_of (low_program image.now) l }
{
    let o = owner_of(image, l);
    Part {
        first: o.first,
        end: o.end,
    }
}
