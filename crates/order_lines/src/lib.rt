// The lines of a log checked: the least that is ill-formed, and the least at fault; and its choice lines.
#![tactic(auto)]

ghost use Rattle.std.specs.Prelude.{◌≡◌, false, ◌<◌, ◌≤◌, min, if◌then◌else◌};
ghost use Rattle.order.specs.Log.{bad_choice};
ghost use Rattle.order_lines.specs.Lines.{first_found, pick_put, ChoiceLinesRead};

use order::OrderTable;
use text::{Line, LineFaults};

// The first place, if there is one, or else the second.
pub fn first_found(a: Option<u32>, b: Option<u32>) -> Option<u32>
    ensures { result ≡ first_found a b }
{
    match a {
        None => b,
        Some(p) => Some(p),
    }
}

// The place found before, or else p if that is at fault.
pub fn or_here(found: Option<u32>, bad: bool, p: u32) -> Option<u32>
    ensures { result ≡ first_found found (if bad then Some p else None) }
{
    if bad {
        return first_found(found, Some(p));
    }
    first_found(found, None)
}

// Refusal 9: choice line i, of m moves, is at fault in a book of so many elements; k is the line before it.
fn bad_choice(elements: u32, m: u32, k: Line, l: Line, i: u32) -> bool
    ensures { result ≡ bad_choice elements m k l i }
{
    !((l.a < m) & (l.b < elements) & ((i == 0) | (k.a <= l.a)) & (l.c == 0) & (l.d == 0))
}

// Puts pick i into the table, unless its line is at fault: its element, and where its move's picks begin and end.
fn put_pick(order: &mut OrderTable, l: Line, i: u32, bad: bool)
    requires { (i < 256) × (bad ≡ false → l.a < 64) }
    ensures { order.new ≡ (if bad then order.old else pick_put order.old i l.a l.b) }
{
    if !bad {
        let a = l.a as usize;
        if order[order::PICK_ENDS + a] == 0 {
            order[order::FIRST_PICKS + a] = i as u64;
        }
        order[order::PICK_ENDS + a] = i as u64 + 1;
        order[order::PICKS + i as usize] = l.b as u64;
    }
}

// Reads the n choice lines of m moves, which begin after line k. They ascend by their move, so that a move's picks are one part of the table.
fn read_bounded(
    log: &[u8],
    elements: u32,
    m: u32,
    k: u32,
    n: u32,
    order: &mut OrderTable,
) -> LineFaults
    requires { (m ≤ 64) × (k ≤ 2080) × (n ≤ 256) }
    ensures { ChoiceLinesRead elements log.now m k n order.old order.new result }
{
    let mut before = Line {
        a: 0,
        b: 0,
        c: 0,
        d: 0,
    };
    let mut fault = None;
    for i in 0..n {
        let Some(l) = text::parse(log, 1 + k + i) else {
            return LineFaults {
                ill: Some(1 + k + i),
                fault,
            };
        };
        let bad = bad_choice(elements, m, before, l, i);
        fault = or_here(fault, bad, 1 + k + i);
        put_pick(order, l, i, bad);
        before = l;
    }
    LineFaults { ill: None, fault }
}

// Reads the n choice lines of m moves, which begin after line k; no more lines and moves than a log may have.
pub fn read_choices(
    log: &[u8],
    elements: u32,
    m: u32,
    k: u32,
    n: u32,
    order: &mut OrderTable,
) -> LineFaults
    ensures { ChoiceLinesRead elements log.now (min m 64) (min k 2080) (min n 256) order.old order.new result }
{
    let moves = m.min(order::MOST_MOVES);
    let most = order::MOST_MOVES + order::MOST_PAIRS;
    let after = k.min(most);
    let lines = n.min(order::MOST_PICKS);
    read_bounded(log, elements, moves, after, lines, order)
}
