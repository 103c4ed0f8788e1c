// The rule book: the bounds of its counts, and what its lines say.
#![tactic(auto)]

ghost use Rattle.std.specs.Prelude.{◌≡◌};
ghost use Rattle.book.specs.Lines.{node_of, entry_of};

use text::Line;

// The greatest counts of a book (SPECIFICATION 11.1).
pub const MOST_ELEMENTS: u32 = 10000;

pub const MOST_FUNCTIONS: u32 = 32;

pub const MOST_NODES: u32 = 1024;

pub const MOST_AGENTS: u32 = 16;

pub const MOST_CONTENTS: u32 = 65536;

pub const MOST_LOCATIONS: u32 = 65536;

// The image of a program: 2,248 words, laid out as specs/Image says.
pub type Image = [u32; 2248];

// The header's numbers: E, P, F, N, A and C.
#[derive(Clone, Copy)]
pub struct Header {
    pub elements: u32,
    pub permanent: u32,
    pub functions: u32,
    pub nodes: u32,
    pub agents: u32,
    pub contents: u32,
}

// A function: its first location, its arity, its kind, and its stride: how far apart its locations are whose first arguments are neighbours.
// The kind is a number and no enum: in a checked book it is 0 to 3, but an image holds any number there, and `program_in` (specs/Image) gives it on.
#[derive(Clone, Copy)]
pub struct Function {
    pub first: u32,
    pub arity: u32,
    pub kind: u32,
    pub stride: u32,
}

// A node of a rule: its kind and its three fields.
#[derive(Clone, Copy)]
pub struct Node {
    pub kind: u32,
    pub a: u32,
    pub b: u32,
    pub c: u32,
}

// The node that a node line says.
impl From<Line> for Node {
    ghost from_gives = { λ l n. n ≡ node_of l };

    fn from(l: Line) -> Node {
        Node {
            kind: l.a,
            a: l.b,
            b: l.c,
            c: l.d,
        }
    }
}

// An agent: the node of its rule, and its element.
#[derive(Clone, Copy)]
pub struct Agent {
    pub root: u32,
    pub element: u32,
}

// A contents line: a location, as function and arguments, and its value at the start.
#[derive(Clone, Copy)]
pub struct Entry {
    pub function: u32,
    pub arg1: u32,
    pub arg2: u32,
    pub value: u32,
}

// The entry that a contents line says.
impl From<Line> for Entry {
    ghost from_gives = { λ l x. x ≡ entry_of l };

    fn from(l: Line) -> Entry {
        Entry {
            function: l.a,
            arg1: l.b,
            arg2: l.c,
            value: l.d,
        }
    }
}
