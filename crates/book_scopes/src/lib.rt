// Refusal 6: the use of nodes, and what stands around them, checked over the image of a book.
#![tactic(auto)]

ghost use Rattle.std.specs.Prelude.{◌≡◌, not, eqb, length, get_or};
ghost use Rattle.text.specs.Words.{least};
ghost use Rattle.book.specs.Kinds.{is_binder};
ghost use Rattle.book.specs.Use.{bad_use};
ghost use Rattle.book.specs.Scopes.{bit_of, binds, put_if, operands_given, all_given, misplaced, bad_scope};
ghost use Rattle.book.specs.Image.{program_in};
ghost use Rattle.book_scopes.specs.Tables.{one_more, use_added, operands_counted, roots_counted, uses_counted, scope_below, in_forall, in_binder, to_ab, to_c, misplaced_at};

use book::{Image, Node};

// A count plus 1, which stops at 2: that is already too many.
fn one_more(k: u8) -> u8
    ensures { result ≡ one_more k }
{
    if k < 2 { k + 1 } else { k }
}

// Adds one use of node x to the counts, if `on`.
fn add_use(s: &mut [u8], on: bool, x: u32)
    ensures { s.new ≡ use_added on x s.old }
{
    if on {
        let k = text::fetch(s, x as usize);
        text::put(s, x as usize, one_more(k));
    }
}

// Adds the operand places of node y to the counts.
fn count_operands(s: &mut [u8], y: Node)
    ensures { s.new ≡ operands_counted y s.old }
{
    let (a, b, c) = book_nodes::sorts_of(y.kind);
    add_use(s, a.is_node(), y.a);
    add_use(s, b.is_node(), y.b);
    add_use(s, c.is_node(), y.c);
}

// Puts 1 at the roots of the first n agents into the counts. Agents may share a root.
fn count_roots(image: &Image, n: u32, s: &mut [u8])
    ensures { s.new ≡ roots_counted (program_in image.now) n s.old }
{
    for i in 0..n {
        let a = book_image::agent_at(image, i);
        text::put(s, a.root as usize, 1);
    }
}

// Adds the operand places of the first n nodes to the counts.
fn count_uses(image: &Image, n: u32, s: &mut [u8])
    ensures { s.new ≡ uses_counted (program_in image.now) n s.old }
{
    for i in 0..n {
        count_operands(s, book_image::node_at(image, i));
    }
}

// The least of the first n nodes whose count is not 1.
fn not_once(s: &[u8], n: u32) -> Option<u32>
    ensures { result ≡ least (λ i. not (eqb (get_or s.now i 0) 1)) n }
{
    (0..n).find(|&i| text::fetch(s, i as usize) != 1)
}

// Refusal 6, use: the least node that is not used exactly once.
pub fn bad_use(image: &Image) -> Option<u32>
    ensures { result ≡ least (bad_use (program_in image.now)) (length (program_in image.now).nodes) }
{
    let mut counts = [0u8; 1024];
    let a = book_image::agents(image) as u32;
    let n = book_image::nodes(image) as u32;
    count_roots(image, a, &mut counts);
    count_uses(image, n, &mut counts);
    not_once(&counts, n)
}

// The bit of variable v.
fn bit_of(v: u32) -> u16
    ensures { result ≡ bit_of v }
{
    if v < 8 { 1u16 << v } else { 0 }
}

// What stands around a node is one number: a bit for each variable bound there, 256 for each forall, which are counted
// to 2, and 1024 for each node above it, which are counted to 32. A root has 0. Sixteen bits hold it.

// What stands around the operands a and b of a node that has v around it: one node more.
fn scope_below(v: u16) -> u16
    ensures { result ≡ scope_below v }
{
    if v / 1024 < 32 { v + 1024 } else { v }
}

// What stands around the c of node y: one forall more if y is a forall.
fn in_forall(y: Node, v: u16) -> u16
    ensures { result ≡ in_forall y v }
{
    if (y.kind == 25) & (v / 256 % 4 < 2) {
        v + 256
    } else {
        v
    }
}

// The kind binds a variable: 24 to 26 and 28 of SPECIFICATION 2.7. `Node` has the number of the text, which may be past the sixteen bits of `kind_of`.
fn is_binder(kind: u32) -> bool
    ensures { result ≡ is_binder kind }
{
    matches!(kind, 24..=26 | 28)
}

// What stands around the c of node y: one variable more if y is a binder.
fn in_binder(y: Node, v: u16) -> u16
    ensures { result ≡ in_binder y v }
{
    if is_binder(y.kind) {
        v | bit_of(y.a)
    } else {
        v
    }
}

// Puts v at place x, if `on`.
fn put_if(s: &mut [u16], on: bool, x: u32, v: u16)
    ensures { s.new ≡ put_if on x v s.old }
{
    if on {
        text::put(s, x as usize, v);
    }
}

// Node y gives v to its operands a and b, and w to its operand c.
fn give_operands(s: &mut [u16], y: Node, v: u16, w: u16)
    ensures { s.new ≡ operands_given y v w s.old }
{
    let (a, b, c) = book_nodes::sorts_of(y.kind);
    put_if(s, a.is_node(), y.a, v);
    put_if(s, b.is_node(), y.b, v);
    put_if(s, c.is_node(), y.c, w);
}

// Each node, from the highest on, gives its operands what stands around them.
fn give_all(image: &Image, s: &mut [u16])
    ensures { s.new ≡ all_given (program_in image.now) to_ab to_c (length (program_in image.now).nodes) s.old }
{
    let n = book_image::nodes(image) as u32;
    for m in (0..n).rev() {
        let y = book_image::node_at(image, m);
        let v = scope_below(text::fetch(s, m as usize));
        let w = in_binder(y, in_forall(y, v));
        give_operands(s, y, v, w);
    }
}

// The variable that node y names or binds is bound.
fn is_bound(y: Node, bound: u16) -> bool
    ensures { result ≡ binds bound y.a }
{
    bound & bit_of(y.a) != 0
}

// Node y is at fault, with this around it. Only a variable and a binder ask what is bound.
fn is_misplaced(y: Node, depth: u16, foralls: u16, bound: u16) -> bool
    ensures { result ≡ misplaced y depth foralls bound }
{
    let deep = 32 < depth;
    if y.kind == 2 {
        return !is_bound(y, bound) | deep;
    }
    if is_binder(y.kind) {
        return is_bound(y, bound) | deep | ((y.kind == 25) & (2 <= foralls));
    }
    deep
}

// Node i is at fault, by the table of what stands around each node.
fn misplaced_at(image: &Image, s: &[u16], i: u32) -> bool
    ensures { result ≡ misplaced_at (program_in image.now) s.now i }
{
    let y = book_image::node_at(image, i);
    let v = text::fetch(s, i as usize);
    is_misplaced(y, v / 1024 + 1, v / 256 % 4, v % 256)
}

// The least of the first n nodes that is at fault, by the table of what stands around each node.
fn misplaced_in(image: &Image, s: &[u16], n: u32) -> Option<u32>
    ensures { result ≡ least (misplaced_at (program_in image.now) s.now) n }
{
    (0..n).find(|&i| misplaced_at(image, s, i))
}

// Refusal 6, binding, depth and nesting: the least node at fault.
pub fn bad_scope(image: &Image) -> Option<u32>
    ensures { result ≡ least (bad_scope (program_in image.now)) (length (program_in image.now).nodes) }
{
    let mut around = [0u16; 1024];
    let n = book_image::nodes(image) as u32;
    give_all(image, &mut around);
    misplaced_in(image, &around, n)
}
