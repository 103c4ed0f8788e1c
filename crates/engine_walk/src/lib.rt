// The walk of a rule: its instructions or its refusal, and the marks of what it reads.
#![tactic(auto)]

ghost use Rattle.std.specs.Prelude.{◌≡◌, List, [], ℕ, eqb, length, set, if◌then◌else◌};
ghost use Rattle.text.specs.Refusals.{refusal_number};
ghost use Rattle.engine.specs.Move.{input};
ghost use Rattle.engine.specs.Rule.{import, after, most_instructions, walk};
ghost use Rattle.engine_term.specs.Bindings.{variables_of, agent_of};
ghost use Rattle.engine_term.specs.Marks.{Has};
ghost use Rattle.book.specs.Image.{low_program};
ghost use Rattle.engine_emit.specs.Emit.{reached};
ghost use Rattle.engine_walk.specs.WalkMarks.{bits_cleared, WalkMarked};
ghost use Rattle.engine_walk.specs.Walk.{outcome, assign_rule, let_rule, forall_rule, import_rule, release_rule, choose_rule, state, state_with, RuleWalked, NodeWalked, BodyWalked};

use book::Image;
use book_parts::{NodeKind, StoredNode};
use engine::{Pick, Work};
use engine_emit::{Picks, Progress};
use engine_term::Frame;
use text::Value;

// Puts variable a of the bindings at x.
fn bind_variable(bindings: &mut [Value; 9], a: u16, x: Value)
    ensures { (variables_of bindings.new ≡ set (variables_of bindings.old) a x) × (agent_of bindings.new ≡ agent_of bindings.old) }
{
    if a < 8 {
        bindings[a as usize] = x;
    }
}

// The branch that a guard with the value x takes: b if it is true, else c.
fn branch(x: Value, b: u16, c: u16) -> u16
    ensures { result ≡ (if eqb x 2 then b else c) }
{
    if x == 2 { b } else { c }
}

// The marks and the list stay two parameters: were they `&mut` fields of one struct, each function below would have to promise besides, of each of
// the two, that the field still lends the same slice.

// Kind 21, a set: the location that node a names gets the value of term b.
fn walk_assign(
    frame: &Frame,
    readers: &mut [u64],
    list: &mut Work,
    depth: usize,
    s: Progress,
    n: u16,
    node: StoredNode,
) -> Progress
    requires { refusal_number s.refused ≡ 0 }
    ensures { (ys : List ℕ) → RuleWalked frame.now (assign_rule frame.now.image.now depth n node) (state_with ys s list.old readers.old) (state_with ys result list.new readers.new) }
{
    let at = frame.target_location(readers, depth, node.a);
    let x = frame.eval(readers, depth, node.b);
    let f = engine_emit::target_function(frame.image, depth, node.a);
    engine_emit::emit_update(frame.image, list, s, n, f, at, x)
}

// Kind 27, a release: the label that term a gives goes back to the roll.
fn walk_release(
    frame: &Frame,
    readers: &mut [u64],
    list: &mut Work,
    depth: usize,
    s: Progress,
    n: u16,
    node: StoredNode,
) -> Progress
    requires { refusal_number s.refused ≡ 0 }
    ensures { (ys : List ℕ) → RuleWalked frame.now (release_rule frame.now.image.now depth n node) (state_with ys s list.old readers.old) (state_with ys result list.new readers.new) }
{
    let x = frame.eval(readers, depth, node.a);
    let v = engine_reads::read_reserve(frame, readers, x);
    engine_emit::emit_release(frame.image, list, s, n, x, v)
}

// Walks the rule at node n, at most `depth` nodes deep; after a refusal nothing more is done.
// The second rule of a both and the branch of an if take the place of node n in the loop, with no call; each other kind ends the loop.
#[cycle(walk_walk_body_walk_choose_walk_forall_walk_import_walk_let)]
fn walk(
    frame: &Frame,
    readers: &mut [u64],
    list: &mut Work,
    picks: &mut Picks,
    depth: usize,
    s: Progress,
    n: u16,
) -> Progress
    ensures { NodeWalked frame.now depth n (state picks.old s list.old readers.old) (state picks.new result list.new readers.new) }
{
    let mut left = depth;
    let mut at = n;
    let mut r = s;
    // The rule that is next stands in the node, so no range goes over the rules.
    while 2 <= left {
        if r.refused.is_some() {
            return r;
        }
        let node = book_parts::node(frame.image, at);
        let less = left - 1;
        match book_parts::kind_of(node.kind) {
            NodeKind::Set => return walk_assign(frame, readers, list, less, r, at, node),
            NodeKind::Both => {
                r = walk(frame, readers, list, picks, less, r, node.a);
                at = node.b;
            }
            NodeKind::If => {
                let x = frame.eval(readers, less, node.a);
                at = branch(x, node.b, node.c);
            }
            NodeKind::Let => return walk_let(frame, readers, list, picks, less, r, node),
            NodeKind::Forall => return walk_forall(frame, readers, list, picks, less, r, node),
            NodeKind::Import => return walk_import(frame, readers, list, picks, less, r, at, node),
            NodeKind::Release => return walk_release(frame, readers, list, less, r, at, node),
            NodeKind::Choose => return walk_choose(frame, readers, list, picks, less, r, at, node),
            _ => return r,
        }
        left = less;
    }
    r
}

// Walks the c of a binder that binds variable a, with a at x.
#[cycle(walk_walk_body_walk_choose_walk_forall_walk_import_walk_let)]
fn walk_body(
    frame: &Frame,
    readers: &mut [u64],
    list: &mut Work,
    picks: &mut Picks,
    depth: usize,
    s: Progress,
    node: StoredNode,
    x: Value,
) -> Progress
    ensures { BodyWalked frame.now depth node x (state picks.old s list.old readers.old) (state picks.new result list.new readers.new) }
{
    let mut inner = *frame;
    bind_variable(&mut inner.bindings, node.a, x);
    walk(&inner, readers, list, picks, depth, s, node.c)
}

// Kind 24, a let: the body c is walked with variable a at the value of term b.
#[cycle(walk_walk_body_walk_choose_walk_forall_walk_import_walk_let)]
fn walk_let(
    frame: &Frame,
    readers: &mut [u64],
    list: &mut Work,
    picks: &mut Picks,
    depth: usize,
    s: Progress,
    node: StoredNode,
) -> Progress
    requires { refusal_number s.refused ≡ 0 }
    ensures { RuleWalked frame.now (let_rule frame.now.image.now depth node) (state picks.old s list.old readers.old) (state picks.new result list.new readers.new) }
{
    let x = frame.eval(readers, depth, node.b);
    walk_body(frame, readers, list, picks, depth, s, node, x)
}

// Kind 25, a forall: the body c is walked with variable a at each member of the universe b, ascending.
#[cycle(walk_walk_body_walk_choose_walk_forall_walk_import_walk_let)]
fn walk_forall(
    frame: &Frame,
    readers: &mut [u64],
    list: &mut Work,
    picks: &mut Picks,
    depth: usize,
    s: Progress,
    node: StoredNode,
) -> Progress
    requires { refusal_number s.refused ≡ 0 }
    ensures { Has (low_program frame.now.image.now) node.b 1 → RuleWalked frame.now (forall_rule frame.now.image.now depth node) (state picks.old s list.old readers.old) (state picks.new result list.new readers.new) }
{
    let e = book_image::elements(frame.image);
    let f = book_image::function_at(frame.image, node.b as u32);
    engine_reads::mark_universe(readers, frame.bit, f, e);
    let mut r = s;
    let mut y = engine_reads::next_member(frame.contents, f.first, e, 0);
    // The member that is next is sought, so no range goes over the members.
    while y < e {
        r = walk_body(frame, readers, list, picks, depth, r, node, y);
        if r.refused.is_some() {
            return r;
        }
        y = engine_reads::next_member(frame.contents, f.first, e, y + 1);
    }
    r
}

// Kind 26, an import: the lowest label of the roll is put into the universe b, and the body c is walked with variable a at it.
#[cycle(walk_walk_body_walk_choose_walk_forall_walk_import_walk_let)]
fn walk_import(
    frame: &Frame,
    readers: &mut [u64],
    list: &mut Work,
    picks: &mut Picks,
    depth: usize,
    s: Progress,
    n: u16,
    node: StoredNode,
) -> Progress
    requires { refusal_number s.refused ≡ 0 }
    ensures { Has (low_program frame.now.image.now) node.b 1 → RuleWalked frame.now (import_rule frame.now.image.now depth n node) (state picks.old s list.old readers.old) (state picks.new result list.new readers.new) }
{
    let x = engine_reads::lowest_label(frame, readers, s.label);
    let at = engine_term::location(frame.image, node.b, 0, x);
    let t = engine_emit::import_label(frame.image, list, s, n, at, x);
    walk_body(frame, readers, list, picks, depth, t, node, x)
}

// Kind 28, a choose: the move's next pick must be in the universe b, and the body c is walked with variable a at it.
#[cycle(walk_walk_body_walk_choose_walk_forall_walk_import_walk_let)]
fn walk_choose(
    frame: &Frame,
    readers: &mut [u64],
    list: &mut Work,
    picks: &mut Picks,
    depth: usize,
    s: Progress,
    n: u16,
    node: StoredNode,
) -> Progress
    requires { refusal_number s.refused ≡ 0 }
    ensures { Has (low_program frame.now.image.now) node.b 1 → RuleWalked frame.now (choose_rule frame.now.image.now depth n node) (state picks.old s list.old readers.old) (state picks.new result list.new readers.new) }
{
    let x = picks.next(frame.image);
    let v = engine_reads::read_universe(frame, readers, node.b, x);
    let t = picks.take(s, n, v);
    walk_body(frame, readers, list, picks, depth, t, node, x)
}

// Takes a refused move's bit, and the higher ones, out of all marks; the moves before it have lower bits.
pub fn clear_marks(readers: &mut [u64], bit: u64)
    ensures { readers.new ≡ bits_cleared bit readers.old }
{
    if bit != 0 {
        engine_reads::mask_marks(readers, bit - 1);
    }
}

// Walks an agent's rule with the move's picks, and marks what it reads; a walk that is refused leaves no marks.
pub fn walk_move(
    image: &Image,
    contents: &[Value],
    readers: &mut [u64],
    bit: u64,
    list: &mut Work,
    agent: u32,
    picks: &[Pick],
) -> Progress
    ensures { WalkMarked (low_program image.now) contents.now bit (input agent picks.now) (outcome result list.new) readers.old readers.new }
{
    let who = book_image::agent_at(image, agent);
    let root = text::low(who.root);
    let s = Progress {
        len: 0,
        label: book_parts::permanent(image),
        refused: None,
        node: 0,
    };
    let frame = Frame {
        image,
        contents,
        bit,
        bindings: [0, 0, 0, 0, 0, 0, 0, 0, text::low(who.element)],
    };
    let mut left = Picks {
        given: picks,
        used: 0,
    };
    let w = walk(&frame, readers, list, &mut left, 32, s, root);
    let r = left.all_used(w, root);
    if r.refused.is_some() {
        clear_marks(readers, bit);
        return r;
    }
    r
}
