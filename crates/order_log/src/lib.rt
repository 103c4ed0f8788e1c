// The log: its text read once into the table of its order and picks, with refusals 1 and 9; and refusal 10 by sets of moves.
#![tactic(auto)]

ghost use Rattle.std.specs.Prelude.{Some, IfOk, ◌≡◌, true, false, ◌-◌, ◌%◌, ◌^◌, ◌<◌, ◌≤◌, length, take, drop, if◌then◌else◌};
ghost use Rattle.text.specs.Words.{answer_of, told};
ghost use Rattle.order.specs.Log.{log_header_ok, bad_move, bad_pair};
ghost use Rattle.order.specs.Table.{agent_in, picks_in};
ghost use Rattle.order_log.specs.Read.{header_checked, lines_checked, pair_put, MovesRead, PairsRead, join_faults, LinesRead, LogIsRead};
ghost use Rattle.order_log.specs.Agents.{LeastUnordered, check_agents_in};

use order::OrderTable;
use text::{Line, LineFaults, Reason, Refusal};

// The header is within its bounds.
fn header_fits(h: Line) -> bool
    ensures { result ≡ log_header_ok h }
{
    (h.a <= order::MOST_MOVES)
        & (h.b <= order::MOST_PAIRS)
        & (h.c <= order::MOST_PICKS)
        & (h.d == 0)
}

// Refusal 9: a move line is at fault, in a book of so many agents.
fn bad_move(l: Line, agents: u32) -> bool
    ensures { result ≡ bad_move agents l }
{
    !((l.a < agents) & (l.b == 0) & (l.c == 0) & (l.d == 0))
}

// Refusal 9: pair line i, of m moves, is at fault; k is the line before it.
fn bad_pair(m: u32, k: Line, l: Line, i: u32) -> bool
    ensures { result ≡ bad_pair m k l i }
{
    let ascends = (k.a < l.a) | ((k.a == l.a) & (k.b < l.b));
    !((l.a < l.b) & (l.b < m) & ((i == 0) | ascends) & (l.c == 0) & (l.d == 0))
}

// Reads the m move lines. Each move's predecessors are cleared and its agent stored, and it has no picks yet.
fn read_moves(log: &[u8], agents: u32, m: u32, order: &mut [u64]) -> LineFaults
    requires { (m ≤ 64) × (length order.old ≡ 512) }
    ensures { MovesRead agents log.now m order.new result }
{
    let mut fault = None;
    for i in 0..m {
        let Some(l) = text::parse(log, 1 + i) else {
            return LineFaults {
                ill: Some(1 + i),
                fault,
            };
        };
        fault = order_lines::or_here(fault, bad_move(l, agents), 1 + i);
        order[i as usize] = 0;
        order[order::AGENTS + i as usize] = l.a as u64;
        order[order::FIRST_PICKS + i as usize] = 0;
        order[order::PICK_ENDS + i as usize] = 0;
    }
    LineFaults { ill: None, fault }
}

// Puts a pair into the table, unless its line is at fault: to the predecessors of its later move come those of its earlier one, and that one.
fn put_pair(order: &mut OrderTable, l: Line, bad: bool)
    requires { bad ≡ false → (l.a < 64) × (l.b < 64) }
    ensures { order.new ≡ (if bad then order.old else pair_put order.old l.a l.b) }
{
    if !bad {
        let a = l.a as usize;
        let b = l.b as usize;
        let behind = order[a] | (1u64 << a);
        order[b] |= behind;
    }
}

// Reads the n pair lines of m moves. They ascend by their earlier move, so that its predecessors are complete when they are used: one
// pass is enough.
fn read_pairs(log: &[u8], m: u32, n: u32, order: &mut OrderTable) -> LineFaults
    requires { (m ≤ 64) × (n ≤ 2016) }
    ensures { PairsRead log.now m n order.old order.new result }
{
    let mut before = Line {
        a: 0,
        b: 0,
        c: 0,
        d: 0,
    };
    let mut fault = None;
    for i in 0..n {
        let Some(l) = text::parse(log, 1 + m + i) else {
            return LineFaults {
                ill: Some(1 + m + i),
                fault,
            };
        };
        let bad = bad_pair(m, before, l, i);
        fault = order_lines::or_here(fault, bad, 1 + m + i);
        put_pair(order, l, bad);
        before = l;
    }
    LineFaults { ill: None, fault }
}

// What is found in the lines of two kinds, the first before the second.
fn join_faults(a: LineFaults, b: LineFaults) -> LineFaults
    ensures { result ≡ join_faults a b }
{
    LineFaults {
        ill: order_lines::first_found(a.ill, b.ill),
        fault: order_lines::first_found(a.fault, b.fault),
    }
}

// Reads the lines after the header h, which is within its bounds.
fn read_lines(log: &[u8], agents: u32, elements: u32, h: Line, order: &mut OrderTable) -> LineFaults
    requires { log_header_ok h ≡ true }
    ensures { LinesRead agents elements log.now h order.new result }
{
    let moves = read_moves(log, agents, h.a, order);
    let pairs = read_pairs(log, h.a, h.b, order);
    let picks = order_lines::read_choices(log, elements, h.a, h.a + h.b, h.c, order);
    join_faults(join_faults(moves, pairs), picks)
}

// Refusals 1 and 9, in this order, on the header line as it is read; the header, if it passes.
fn check_header(head: Option<Line>) -> Result<Line, Refusal>
    ensures answer { told result ≡ answer_of (header_checked head) }
    ensures header { IfOk result (λ h. head ≡ Some h) }
{
    let Some(h) = head else {
        return Err(Refusal {
            reason: Reason::IllFormed,
            p: 0,
            q: text::LOG_TEXT,
        });
    };
    text::must(header_fits(h), Reason::LogLine, 0, 0)?;
    Ok(h)
}

// Refusals 1 and 9 on a log of `size` bytes and so many lines, from what is found in its lines.
fn check_lines(size: usize, lines: u32, ill: Option<u32>, fault: Option<u32>) -> Result<(), Refusal>
    ensures { told result ≡ answer_of (lines_checked size lines ill fault) }
{
    let form = text::none_at(Reason::IllFormed, text::LOG_TEXT, ill);
    form?;
    let whole = size <= text::LINE * lines as usize;
    let surplus = text::must(whole, Reason::IllFormed, lines, text::LOG_TEXT);
    surplus?;
    text::none_at(Reason::LogLine, 0, fault)
}

// Refusals 1 and 9, for a book of so many agents and elements: how many moves the log has; its order and picks are left in the table. Each line is read once.
pub fn read_log(
    log: &[u8],
    agents: u32,
    elements: u32,
    order: &mut OrderTable,
) -> Result<u32, Refusal>
    ensures { LogIsRead agents elements log.now order.new result }
{
    let h = check_header(text::parse(log, 0))?;
    let found = read_lines(log, agents, elements, h, order);
    let ill = found.ill;
    let fault = found.fault;
    let answer = check_lines(log.len(), 1 + h.a + h.b + h.c, ill, fault);
    answer?;
    Ok(h.a)
}

// The least move of the set `own` that is not in the set of predecessors; 64 for none.
fn least_unordered(own: u64, predecessors: u64) -> u32
    ensures { LeastUnordered own predecessors result }
{
    u64::trailing_zeros(own & !predecessors)
}

// Refusal 10: the least pair of the first `moves` moves that are of one agent and unordered. The code's `own` has each agent's moves so far.
pub fn check_agents(order: &OrderTable, moves: u32) -> Result<(), Refusal>
    ensures { told result ≡ answer_of (check_agents_in order.now moves) }
{
    let m = moves.min(order::MOST_MOVES) as usize;
    let mut own: [u64; 16] = [0; 16];
    let mut first: u32 = order::MOST_MOVES;
    let mut second: usize = 0;
    for j in 0..m {
        let a = (order[order::AGENTS + j] % book::MOST_AGENTS as u64) as usize;
        let i = least_unordered(own[a], order[j]);
        if i < first {
            first = i;
            second = j;
        }
        own[a] |= 1u64 << j;
    }
    text::must(
        first >= order::MOST_MOVES,
        Reason::AgentUnordered,
        first,
        second as u32,
    )
}

// The agent of move i, 0 past the table.
pub fn agent_of_move(order: &OrderTable, i: u32) -> u32
    ensures { result ≡ agent_in order.now i % 2 ^ 32 }
{
    (text::fetch(order, order::AGENTS + i as usize) % 4294967296) as u32
}

// The part of the table that has a move's picks, from `first` up to `end`.
#[derive(Clone, Copy)]
pub struct PickPart {
    pub first: usize,
    pub end: usize,
}

// The part of the table that has the picks of move i.
pub fn picks_of_move(order: &OrderTable, i: u32) -> PickPart
    ensures { (result.first ≤ result.end) × (result.end ≤ 512) × (take (result.end - result.first) (drop result.first order.now) ≡ picks_in order.now i) }
{
    let a = text::fetch(order, order::FIRST_PICKS + i as usize);
    let b = text::fetch(order, order::PICK_ENDS + i as usize);
    let first = (a as usize).min(order::MOST_PICKS as usize);
    let end = (b as usize).min(order::MOST_PICKS as usize);
    if first < end {
        return PickPart {
            first: order::PICKS + first,
            end: order::PICKS + end,
        };
    }
    PickPart {
        first: order::PICKS,
        end: order::PICKS,
    }
}
