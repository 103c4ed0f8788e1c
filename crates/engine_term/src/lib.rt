// Terms: their values in the program that an image holds, and the marks of what they read.
#![tactic(auto)]

ghost use Rattle.std.specs.Prelude.{◌≡◌, ℕ, ◌%◌, get_or, if◌then◌else◌};
ghost use Rattle.book.specs.Book.{undef, truth, dynamic_at};
ghost use Rattle.engine.specs.Reader.{read};
ghost use Rattle.engine.specs.Term.{conjunction, disjunction, plus, minus, less, number, negate, apply, shapes, no_term};
ghost use Rattle.engine_term.specs.Bindings.{variables_of, value_at, target_at, operator_value};
ghost use Rattle.book.specs.Image.{low_program};
ghost use Rattle.engine_term.specs.Marks.{mark_one, dynamic_of, Placed, SumAt, Runs};

use book::{Function, Image};
use book_parts::NodeKind;
use text::Value;

// What a rule is walked in, and a term evaluated in: the image, the contents, the move's bit, and the bindings, which are the values of the eight variables
// and then the agent's element.
#[derive(Clone, Copy)]
pub struct Frame<'a> {
    pub image: &'a Image,
    pub contents: &'a [Value],
    pub bit: u64,
    pub bindings: [Value; 9],
}

// A location as the word that an instruction has for it. Those of a checked book fit.
fn location_word(at: usize) -> u32
    ensures { result ≡ at % 4294967296 }
{
    (at % 4294967296) as u32
}

// Location l is dynamic.
pub fn dynamic_at(image: &Image, l: usize) -> bool
    ensures { result ≡ dynamic_at (low_program image.now) l }
{
    let owner = book_parts::owner_of(image, l);
    book_parts::is_dynamic(owner.function)
}

// Location `at`, which is f's at x and y, is dynamic; its kind says so if x and y are elements.
fn is_dynamic_at(image: &Image, f: Function, x: Value, y: Value, at: usize) -> bool
    ensures { result ≡ dynamic_of (low_program image.now) f x y at }
{
    let e = book_image::elements(image);
    if (e <= x) | (e <= y) {
        return dynamic_at(image, at);
    }
    book_parts::is_dynamic(f)
}

// Puts the bit into the mark of a location; past the end nothing is put.
pub fn mark(readers: &mut [u64], bit: u64, at: usize)
    ensures { readers.new ≡ mark_one bit at readers.old }
{
    if at < readers.len() {
        readers[at] = readers[at] | bit;
    }
}

// The sum of function f at x and y, as an instruction has it.
pub fn location(image: &Image, f: u16, x: Value, y: Value) -> u32
    ensures { (l : ℕ) → SumAt (low_program image.now) f x y l → Placed (low_program image.now) → result ≡ l }
{
    let row = book_image::function_at(image, f as u32);
    location_word(book_parts::location(row, x as u32, y as u32))
}

// A test as a Boolean of the book.
fn truth(t: bool) -> Value
    ensures { result ≡ truth t }
{
    if t { 2 } else { 1 }
}

// x is a number of the book, p elements being permanent.
fn is_number(p: Value, x: Value) -> bool
    ensures { result ≡ number p x }
{
    if 3 <= x { x < p } else { false }
}

// The value of not.
fn not(x: Value) -> Value
    ensures { result ≡ negate x }
{
    match x {
        1 => 2,
        2 => 1,
        _ => 0,
    }
}

// The value of and.
fn and(x: Value, y: Value) -> Value
    ensures { result ≡ apply 0 conjunction x y }
{
    if book_parts::is_boolean(x) {
        if book_parts::is_boolean(y) {
            if x == 2 { y } else { 1 }
        } else {
            0
        }
    } else {
        0
    }
}

// The value of or.
fn or(x: Value, y: Value) -> Value
    ensures { result ≡ apply 0 disjunction x y }
{
    if book_parts::is_boolean(x) {
        if book_parts::is_boolean(y) {
            if x == 2 { 2 } else { y }
        } else {
            0
        }
    } else {
        0
    }
}

// The value of plus.
fn plus(p: Value, x: Value, y: Value) -> Value
    ensures { result ≡ apply p plus x y }
{
    if is_number(p, x) {
        if is_number(p, y) {
            let sum = x as u32 + y as u32 - 3;
            if sum < p as u32 { sum as Value } else { 0 }
        } else {
            0
        }
    } else {
        0
    }
}

// The value of minus.
fn minus(p: Value, x: Value, y: Value) -> Value
    ensures { result ≡ apply p minus x y }
{
    if is_number(p, x) {
        if is_number(p, y) {
            if y <= x { 3 + (x - y) } else { 0 }
        } else {
            0
        }
    } else {
        0
    }
}

// The value of less.
fn less(p: Value, x: Value, y: Value) -> Value
    ensures { result ≡ apply p less x y }
{
    if is_number(p, x) {
        if is_number(p, y) { truth(x < y) } else { 0 }
    } else {
        0
    }
}

// The value of a term of kind k from those of its two operands.
fn operate(p: Value, k: u16, x: Value, y: Value) -> Value
    ensures { result ≡ operator_value p (get_or shapes k no_term) x y }
{
    match book_parts::kind_of(k) {
        NodeKind::Equal => truth(x == y),
        NodeKind::And => and(x, y),
        NodeKind::Or => or(x, y),
        NodeKind::Plus => plus(p, x, y),
        NodeKind::Minus => minus(p, x, y),
        NodeKind::Less => less(p, x, y),
        _ => 0,
    }
}

impl Frame<'_> {
    // Marks location `at`, which is f's at x and y, if it is dynamic.
    fn mark_if_dynamic(&self, readers: &mut [u64], f: Function, x: Value, y: Value, at: usize)
        ensures { readers.new ≡ (if dynamic_of (low_program self.now.image.now) f x y at then mark_one self.now.bit at readers.old else readers.old) }
    {
        if is_dynamic_at(self.image, f, x, y, at) {
            mark(readers, self.bit, at);
        }
    }

    // The value at the sum of function f at x and y, which is marked as read.
    pub fn read(&self, readers: &mut [u64], f: u16, x: Value, y: Value) -> Value
        ensures { (l : ℕ) → SumAt (low_program self.now.image.now) f x y l → Runs (low_program self.now.image.now) self.now.contents.now self.now.bit (read l) result readers.old readers.new }
    {
        let row = book_image::function_at(self.image, f as u32);
        let at = book_parts::location(row, x as u32, y as u32);
        self.mark_if_dynamic(readers, row, x, y, at);
        text::fetch(self.contents, at)
    }

    // The value of variable a.
    fn variable(&self, a: u16) -> Value
        ensures { result ≡ get_or (variables_of self.now.bindings) a undef }
    {
        if a < 8 { self.bindings[a as usize] } else { 0 }
    }

    // The value of the term at node n, at most `depth` nodes deep; what it reads is marked. A unary function's argument is given as the second, since
    // its stride is 1: so no product is made.
    #[cycle(argument_eval)]
    pub fn eval(&self, readers: &mut [u64], depth: usize, n: u16) -> Value
        ensures { Runs (low_program self.now.image.now) self.now.contents.now self.now.bit (value_at self.now.image.now self.now.bindings depth n) result readers.old readers.new }
    {
        if depth == 0 {
            return 0;
        }
        let less = depth - 1;
        let node = book_parts::node(self.image, n);
        match book_parts::kind_of(node.kind) {
            NodeKind::Element => node.a,
            NodeKind::Variable => self.variable(node.a),
            NodeKind::Agent => self.bindings[8],
            NodeKind::Function => self.read(readers, node.a, 0, 0),
            NodeKind::FunctionOfOne => {
                let x = self.eval(readers, less, node.b);
                self.read(readers, node.a, 0, x)
            }
            NodeKind::FunctionOfTwo => {
                let x = self.argument(readers, less, node.b);
                let y = self.argument(readers, less, node.c);
                self.read(readers, node.a, x, y)
            }
            NodeKind::Not => not(self.eval(readers, less, node.a)),
            NodeKind::Equal
            | NodeKind::And
            | NodeKind::Or
            | NodeKind::Plus
            | NodeKind::Minus
            | NodeKind::Less => {
                let x = self.eval(readers, less, node.a);
                let y = self.eval(readers, less, node.b);
                operate(book_parts::permanent(self.image), node.kind, x, y)
            }
            _ => 0,
        }
    }

    // The same, with a variable's value looked up without a call: most arguments are variables. One number is asked for, so it stays a test (kind 2).
    #[cycle(argument_eval)]
    fn argument(&self, readers: &mut [u64], depth: usize, n: u16) -> Value
        ensures { Runs (low_program self.now.image.now) self.now.contents.now self.now.bit (value_at self.now.image.now self.now.bindings depth n) result readers.old readers.new }
    {
        if depth == 0 {
            return 0;
        }
        let node = book_parts::node(self.image, n);
        if node.kind == 2 {
            return self.variable(node.a);
        }
        self.eval(readers, depth, n)
    }

    // The location that the term at node n names, at most `depth` nodes deep; what its arguments read is marked.
    pub fn target_location(&self, readers: &mut [u64], depth: usize, n: u16) -> u32
        ensures { Runs (low_program self.now.image.now) self.now.contents.now self.now.bit (target_at self.now.image.now self.now.bindings depth n) result readers.old readers.new }
    {
        if depth == 0 {
            return 0;
        }
        let less = depth - 1;
        let node = book_parts::node(self.image, n);
        match book_parts::kind_of(node.kind) {
            NodeKind::Function => location(self.image, node.a, 0, 0),
            NodeKind::FunctionOfOne => {
                let x = self.argument(readers, less, node.b);
                location(self.image, node.a, 0, x)
            }
            NodeKind::FunctionOfTwo => {
                let x = self.argument(readers, less, node.b);
                let y = self.argument(readers, less, node.c);
                location(self.image, node.a, x, y)
            }
            _ => 0,
        }
    }
}
