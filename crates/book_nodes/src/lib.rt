// Refusals 5 and 7: node lines and agent lines, checked over the image of a book.
#![tactic(auto)]

ghost use Rattle.std.specs.Prelude.{◌≡◌, leb, ◌≢◌, ◌+◌, ◌-◌, ◌≤◌, length};
ghost use Rattle.text.specs.Words.{least};
ghost use Rattle.book.specs.Kinds.{is_term, is_rule, sort, term};
ghost use Rattle.book.specs.Lines.{fits, bad_node, bad_agent};
ghost use Rattle.book.specs.Image.{image_row, program_in};
ghost use Rattle.book_nodes.specs.declared.Sort.TheVariants.{Unused, Term, Rule};
ghost use Rattle.book_nodes.specs.Sorts.{sort_number, is_named};

use book::Image;
use text::Line;

// What an operand of a node has to be, from number 0 on (SPECIFICATION 3.5).
#[derive(Clone, Copy, PartialEq, Eq)]
pub enum Sort {
    // the node is of no kind
    NoKind,
    // a field without a use, which is 0
    Unused,
    // a permanent element
    Permanent,
    Variable,
    // functions of arity 0 to 2, not Reserve
    Function0,
    Function1,
    Function2,
    // a relation of arity 1, not Reserve
    Universe,
    DynamicUniverse,
    // a node that is a term
    Term,
    // a node that is a rule
    Rule,
    // a term that names a dynamic location
    LocationTerm,
}

impl Sort {
    // The operand is a node.
    pub fn is_node(self) -> bool
        ensures { result ≡ leb term (sort_number self) }
    {
        matches!(self, Sort::Term | Sort::Rule | Sort::LocationTerm)
    }
}

// What the three operands of a node have to be.
pub type OperandSorts = (Sort, Sort, Sort);

// The operand sorts of each node kind from 0 to 28.
static SORTS: [OperandSorts; 29] = [
    // 0 no kind
    (Sort::NoKind, Sort::NoKind, Sort::NoKind),
    // 1 element
    (Sort::Permanent, Sort::Unused, Sort::Unused),
    // 2 variable
    (Sort::Variable, Sort::Unused, Sort::Unused),
    // 3 agent
    (Sort::Unused, Sort::Unused, Sort::Unused),
    // 4 function
    (Sort::Function0, Sort::Unused, Sort::Unused),
    // 5 function of one
    (Sort::Function1, Sort::Term, Sort::Unused),
    // 6 function of two
    (Sort::Function2, Sort::Term, Sort::Term),
    // 7 equal
    (Sort::Term, Sort::Term, Sort::Unused),
    // 8 not
    (Sort::Term, Sort::Unused, Sort::Unused),
    // 9 and
    (Sort::Term, Sort::Term, Sort::Unused),
    // 10 or
    (Sort::Term, Sort::Term, Sort::Unused),
    // 11 plus
    (Sort::Term, Sort::Term, Sort::Unused),
    // 12 minus
    (Sort::Term, Sort::Term, Sort::Unused),
    // 13 less
    (Sort::Term, Sort::Term, Sort::Unused),
    // 14 no kind
    (Sort::NoKind, Sort::NoKind, Sort::NoKind),
    // 15 no kind
    (Sort::NoKind, Sort::NoKind, Sort::NoKind),
    // 16 no kind
    (Sort::NoKind, Sort::NoKind, Sort::NoKind),
    // 17 no kind
    (Sort::NoKind, Sort::NoKind, Sort::NoKind),
    // 18 no kind
    (Sort::NoKind, Sort::NoKind, Sort::NoKind),
    // 19 no kind
    (Sort::NoKind, Sort::NoKind, Sort::NoKind),
    // 20 skip
    (Sort::Unused, Sort::Unused, Sort::Unused),
    // 21 set
    (Sort::LocationTerm, Sort::Term, Sort::Unused),
    // 22 both
    (Sort::Rule, Sort::Rule, Sort::Unused),
    // 23 if
    (Sort::Term, Sort::Rule, Sort::Rule),
    // 24 let
    (Sort::Variable, Sort::Term, Sort::Rule),
    // 25 forall
    (Sort::Variable, Sort::Universe, Sort::Rule),
    // 26 import
    (Sort::Variable, Sort::DynamicUniverse, Sort::Rule),
    // 27 release
    (Sort::Term, Sort::Unused, Sort::Unused),
    // 28 choose
    (Sort::Variable, Sort::Universe, Sort::Rule),
];

// The operand sorts of a node kind.
pub fn sorts_of(kind: u32) -> OperandSorts
    ensures { (sort_number result.0 ≡ sort kind 0) × (sort_number result.1 ≡ sort kind 1) × (sort_number result.2 ≡ sort kind 2) }
{
    if kind < 29 {
        SORTS[kind as usize]
    } else {
        (Sort::NoKind, Sort::NoKind, Sort::NoKind)
    }
}

// The kind is that of a term: a range of numbers, as SPECIFICATION 2.7 and the definition have it, where names would be a list of 13.
fn is_term(kind: u32) -> bool
    ensures { result ≡ is_term kind }
{
    matches!(kind, 1..=13)
}

// The kind is that of a rule: a range of numbers, for the same reason.
fn is_rule(kind: u32) -> bool
    ensures { result ≡ is_rule kind }
{
    matches!(kind, 20..=28)
}

// x is a function of that arity that nodes may name: any but Reserve.
fn is_named(image: &Image, x: u32, arity: u32) -> bool
    ensures { result ≡ is_named (program_in image.now) x arity }
{
    let f = book_image::function_at(image, x);
    (0 < x) & (x < book_image::functions(image) as u32) & (f.arity == arity)
}

// x fits the sort s, any but the three of `fits`, as an operand of node n. Only what the sort asks about is loaded. Inline here, it would keep `fits`
// out of the loop over the nodes.
#[inline(never)]
fn fits_other(image: &Image, n: u32, s: Sort, x: u32) -> bool
    requires { (s ≢ Unused) × (s ≢ Term) × (s ≢ Rule) }
    ensures { result ≡ fits (program_in image.now) n (sort_number s) x }
{
    match s {
        Sort::NoKind | Sort::Unused | Sort::Term | Sort::Rule => false,
        Sort::Permanent => x < book_image::permanent(image),
        Sort::Variable => x < 8,
        Sort::Function0 => is_named(image, x, 0),
        Sort::Function1 => is_named(image, x, 1),
        Sort::Function2 => is_named(image, x, 2),
        Sort::Universe => {
            is_named(image, x, 1) & book_parts::is_relation(book_image::function_at(image, x))
        }
        Sort::DynamicUniverse => {
            is_named(image, x, 1) & (book_image::function_at(image, x).kind == 3)
        }
        Sort::LocationTerm => {
            let y = book_image::node_at(image, x);
            (x < n)
                & ((4 <= y.kind) & (y.kind <= 6))
                & book_parts::is_dynamic(book_image::function_at(image, y.a))
        }
    }
}

// x fits the sort s as an operand of node n. Most operands are unused or nodes, and these sorts are matched here, in the loop over the nodes: one match
// over all sorts takes 9% more instructions on a book of 1,024 nodes.
fn fits(image: &Image, n: u32, s: Sort, x: u32) -> bool
    ensures { result ≡ fits (program_in image.now) n (sort_number s) x }
{
    match s {
        Sort::Unused => x == 0,
        Sort::Term => (x < n) & is_term(book_image::node_at(image, x).kind),
        Sort::Rule => (x < n) & is_rule(book_image::node_at(image, x).kind),
        _ => fits_other(image, n, s, x),
    }
}

// Refusal 5: node n is at fault.
fn bad_node(image: &Image, n: u32) -> bool
    ensures { result ≡ bad_node (program_in image.now) n }
{
    let y = book_image::node_at(image, n);
    let (a, b, c) = sorts_of(y.kind);
    !(fits(image, n, a, y.a) & fits(image, n, b, y.b) & fits(image, n, c, y.c))
}

// Refusal 5: the least node at fault.
pub fn bad_nodes(image: &Image) -> Option<u32>
    ensures { result ≡ least (bad_node (program_in image.now)) (length (program_in image.now).nodes) }
{
    let n = book_image::nodes(image) as u32;
    (0..n).find(|&i| bad_node(image, i))
}

// Refusal 7: agent i, whose line is l, is at fault.
fn bad_agent(image: &Image, l: Line, i: u32) -> bool
    ensures { result ≡ bad_agent (program_in image.now) l i }
{
    let n = book_image::nodes(image) as u32;
    let p = book_image::permanent(image);
    let root = book_image::node_at(image, l.a);
    let last = book_image::agent_at(image, i.saturating_sub(1));
    !((l.a < n)
        & is_rule(root.kind)
        & (l.b < p)
        & ((i == 0) | (last.element < l.b))
        & (l.c == 0)
        & (l.d == 0))
}

// Refusal 7: the least agent at fault, on the rows of the agents' lines.
pub fn bad_agents(image: &Image) -> Option<u32>
    ensures { result ≡ least (λ i. bad_agent (program_in image.now) (image_row image.now (34 + i)) i) (length (program_in image.now).agents) }
{
    let n = book_image::agents(image) as u32;
    (0..n).find(|&i| bad_agent(image, book_image::row(image, book_image::AGENT_ROWS + i), i))
}
