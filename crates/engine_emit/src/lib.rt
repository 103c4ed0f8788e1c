// The state of a walk, and its steps: an instruction given, a pick taken, a refusal.
#![tactic(auto)]

ghost use Rattle.std.specs.Prelude.{◌≡◌, ◌&&◌, List, [], ℕ, suc, ◌<◌, length, get_or, eqb, ltb, if◌then◌else◌};
ghost use Rattle.text.specs.Refusals.{number_of};
ghost use Rattle.book.specs.Book.{node_at};
ghost use Rattle.engine.specs.Term.{term_at, function_of};
ghost use Rattle.engine.specs.Rule.{◌then◌, most_instructions, emit, all_taken};
ghost use Rattle.book.specs.Image.{low_program};
ghost use Rattle.engine_emit.specs.Emit.{WalkStepped, picks_left, refused_by, setting, releasing, importing, importing_found, next_pick, picking};

use book::Image;
use book_parts::NodeKind;
use engine::{Instruction, Pick, Work};
use text::{Reason, Value};

// How far a walk is: how many instructions it has given, the label from which the next import searches,
// its refusal, if it has met one, and the refusal's node. A caller's reasons may be of a type of its own, to which this code's reasons can be
// converted; with this code's, eight bytes go from node to node in a register. The picks that it has used are counted beside it.
#[derive(Clone, Copy)]
pub struct Progress<R = Reason> {
    pub len: u16,
    pub label: Value,
    pub refused: Option<R>,
    pub node: u16,
}

// The picks that a move was given, and how many of them its walk has used.
#[derive(Drop)]
pub struct Picks<'a> {
    pub given: &'a [Pick],
    pub used: usize,
}

// The state with the refusal at node n, unless it has one already.
fn refuse_at<R: Copy + From<Reason>>(s: Progress<R>, reason: Reason, n: u16) -> Progress<R>
    ensures { (ys l : List ℕ) → WalkStepped R.from_gives (refused_by (number_of reason) n) ys s l ys result l }
{
    if s.refused.is_some() {
        return s;
    }
    Progress {
        len: s.len,
        label: s.label,
        refused: Some(R::from(reason)),
        node: n,
    }
}

// One more instruction, which node n gives; refusal 14 if it does not fit.
fn emit<R: Copy + From<Reason>>(
    list: &mut [u64],
    s: Progress<R>,
    i: Instruction,
    n: u16,
) -> Progress<R>
    requires { length list.old ≡ most_instructions }
    ensures { (ys : List ℕ) → WalkStepped R.from_gives (emit n i) ys s list.old ys result list.new }
{
    if s.refused.is_some() {
        return s;
    }
    let at = s.len as usize;
    if at < engine::MOST_INSTRUCTIONS {
        list[at] = engine_instruction::code(i);
        Progress {
            len: s.len + 1,
            label: s.label,
            refused: None,
            node: s.node,
        }
    } else {
        refuse_at(s, Reason::ListFull, n)
    }
}

// The function of the location that the term at node n names.
pub fn target_function(image: &Image, depth: usize, n: u16) -> u16
    ensures { result ≡ function_of (term_at (node_at (low_program image.now)) depth n) }
{
    if depth == 0 {
        return 0;
    }
    let node = book_parts::node(image, n);
    match book_parts::kind_of(node.kind) {
        NodeKind::Function => node.a,
        NodeKind::FunctionOfOne => node.a,
        NodeKind::FunctionOfTwo => node.a,
        _ => 0,
    }
}

// Sets location `at` of function f to x; refusal 11 if f is a relation and x is no Boolean.
pub fn emit_update<R: Copy + From<Reason>>(
    image: &Image,
    list: &mut Work,
    s: Progress<R>,
    n: u16,
    f: u16,
    at: u32,
    x: Value,
) -> Progress<R>
    ensures { (ys : List ℕ) → WalkStepped R.from_gives (setting (low_program image.now) f at x n) ys s list.old ys result list.new }
{
    if book_parts::is_relation(book_image::function_at(image, f as u32)) {
        if book_parts::is_boolean(x) {
            emit(
                list,
                s,
                Instruction::Update {
                    location: at,
                    value: x,
                },
                n,
            )
        } else {
            refuse_at(s, Reason::NonBoolean, n)
        }
    } else {
        emit(
            list,
            s,
            Instruction::Update {
                location: at,
                value: x,
            },
            n,
        )
    }
}

// The two updates by which an import at node n takes label x into a universe that has the location `at` there.
fn emit_import<R: Copy + From<Reason>>(
    list: &mut Work,
    s: Progress<R>,
    n: u16,
    at: u32,
    x: Value,
) -> Progress<R>
    requires { x < 65535 }
    ensures { (ys : List ℕ) → WalkStepped R.from_gives (importing at x n) ys s list.old ys result list.new }
{
    let r = Progress {
        len: s.len,
        label: x + 1,
        refused: s.refused,
        node: s.node,
    };
    let t = emit(
        list,
        r,
        Instruction::Update {
            location: x as u32,
            value: 1,
        },
        n,
    );
    emit(
        list,
        t,
        Instruction::Update {
            location: at,
            value: 2,
        },
        n,
    )
}

// An import at node n takes label x into a universe that has the location `at` there; refusal 13 if x is no element, since no label is left.
pub fn import_label<R: Copy + From<Reason>>(
    image: &Image,
    list: &mut Work,
    s: Progress<R>,
    n: u16,
    at: u32,
    x: Value,
) -> Progress<R>
    ensures { (ys : List ℕ) → WalkStepped R.from_gives (importing_found (low_program image.now).E at x n) ys s list.old ys result list.new }
{
    if x < book_image::elements(image) {
        emit_import(list, s, n, at, x)
    } else {
        refuse_at(s, Reason::NoLabelLeft, n)
    }
}

// Releases x, Reserve there being v; refusal 12 if x is no label or is on the roll.
pub fn emit_release<R: Copy + From<Reason>>(
    image: &Image,
    list: &mut Work,
    s: Progress<R>,
    n: u16,
    x: Value,
    v: Value,
) -> Progress<R>
    ensures { (ys : List ℕ) → WalkStepped R.from_gives (releasing (low_program image.now) x v n) ys s list.old ys result list.new }
{
    if x < book_parts::permanent(image) {
        return refuse_at(s, Reason::NotReleasable, n);
    }
    if v == 2 {
        refuse_at(s, Reason::NotReleasable, n)
    } else {
        emit(list, s, Instruction::Release { label: x }, n)
    }
}

impl Picks<'_> {
    // The pick that is next; E, which is no element, if there is none or it is no element.
    pub fn next(&self, image: &Image) -> Value
        ensures { result ≡ next_pick (low_program image.now).E (picks_left self.now) }
    {
        let e = book_image::elements(image);
        let i = self.used;
        if i < self.given.len() {
            let y = self.given[i];
            if y < e as u64 {
                return y as Value;
            }
        }
        e
    }

    // Takes the pick that is next, the universe having the value v there; refusal 19 if there is none, 18 if it is not in the universe.
    // The list that was given stays the same, and one pick more is used exactly where one is taken.
    pub fn take<R: Copy + From<Reason>>(&mut self, s: Progress<R>, n: u16, v: Value) -> Progress<R>
        ensures walked { (l : List ℕ) → WalkStepped R.from_gives (picking v n) (picks_left self.old) s l (picks_left self.new) result l }
        ensures given { self.new.given ≡ self.old.given }
        ensures used { self.new.used ≡ (if ltb self.old.used (length self.old.given.now) && eqb v 2 then suc self.old.used else self.old.used) }
    {
        let i = self.used;
        if self.given.len() <= i {
            return refuse_at(s, Reason::PickCount, n);
        }
        if v != 2 {
            return refuse_at(s, Reason::NotInUniverse, n);
        }
        self.used = i + 1;
        s
    }

    // Refusal 19 at the root if picks are left at the walk's end.
    pub fn all_used<R: Copy + From<Reason>>(&self, s: Progress<R>, root: u16) -> Progress<R>
        ensures { (l : List ℕ) → WalkStepped R.from_gives (λ w. all_taken root w.left w) (picks_left self.now) s l [] result l }
    {
        if self.used < self.given.len() {
            return refuse_at(s, Reason::PickCount, root);
        }
        s
    }
}
