// The order check, refusal 17: the least pair of unordered moves that touch, from the marks alone.
#![tactic(auto)]

ghost use Rattle.std.specs.Prelude.{◌≡◌, ◌&&◌, not, ℕ, ◌<◌, ◌≤◌, length, get_or};
ghost use Rattle.order.specs.Sets.{bit};
ghost use Rattle.order.specs.Pairs.{ordered_by, least_pair};
ghost use Rattle.order_touch.specs.Marked.{unordered_marked, clipped, pair_as, TouchAdded, TouchSets, LeastTouching};

use order::{MoveSets, OrderTable};

// How many locations a step passes over, if no move writes them.
const BLOCK: usize = 64;

// A pair of moves.
#[derive(Clone, Copy)]
pub struct MovePair {
    pub first: u32,
    pub second: u32,
}

// Adds to the moves that touch each of 64 those that do so at a location with these marks: all its
// users if the move writes it, its writers if it only reads it.
fn add_touching(readers: u64, writers: u64, touching: &mut MoveSets)
    requires { length touching.old ≡ 64 }
    ensures { TouchAdded readers writers touching.old touching.new }
{
    let users = readers | writers;
    let mut left = users;
    // The users are taken from the set one by one, the least first, until none is left.
    while left != 0 {
        let j = u64::trailing_zeros(left) as usize;
        let others = if (writers >> j) & 1 == 1 {
            users
        } else {
            writers
        };
        touching[j] |= others;
        left &= left - 1;
    }
}

// Adds to the moves that touch each of 64 those that do so at a location with these marks; where no move writes, nothing touches.
fn add_if_written(readers: u64, writers: u64, touching: &mut MoveSets)
    requires { length touching.old ≡ 64 }
    ensures { TouchAdded readers writers touching.old touching.new }
{
    if writers != 0 {
        add_touching(readers, writers, touching);
    }
}

// All marks of a part in one: 0 only if each is 0.
fn all_marks(part: &[u64]) -> u64
    ensures { result ≡ 0 → (k : ℕ) → get_or part.now k 0 ≡ 0 }
{
    let mut all: u64 = 0;
    for mark in part {
        all |= *mark;
    }
    all
}

// Adds what touches at the locations from a up to b to what touches at the first a.
fn add_part(readers: &[u64], writers: &[u64], a: usize, b: usize, touching: &mut MoveSets)
    requires { (a ≤ b) × (b ≤ length readers.now) × (b ≤ length writers.now) × TouchSets readers.now writers.now a touching.old }
    ensures { TouchSets readers.now writers.now b touching.new }
{
    for l in a..b {
        add_if_written(readers[l], writers[l], touching);
    }
}

// For each move the set of those that touch it at one of the first n locations. Blocks that no move writes are passed over.
fn touching_sets(readers: &[u64], writers: &[u64], n: usize) -> MoveSets
    requires { (n ≤ length readers.now) × (n ≤ length writers.now) }
    ensures { TouchSets readers.now writers.now n result }
{
    let mut touching: MoveSets = [0; 64];
    for a in (0..n).step_by(BLOCK) {
        let b = a + (n - a).min(BLOCK);
        if all_marks(&writers[a..b]) != 0 {
            add_part(readers, writers, a, b, &mut touching);
        }
    }
    touching
}

// The least move below j that touches j and is not one of its predecessors; 64 for none. Both are sets of moves.
fn least_touching(touching: u64, predecessors: u64, j: usize) -> u32
    requires { j < 64 }
    ensures { LeastTouching touching predecessors j result }
{
    let earlier = (1u64 << j) - 1;
    u64::trailing_zeros(touching & !predecessors & earlier)
}

// The least pair of the first m moves that touch and are unordered, by its first move and then its second; `touching` has what touches each move.
fn least_pair(touching: &MoveSets, order: &OrderTable, m: usize) -> Option<MovePair>
    requires { m ≤ 64 }
    ensures { result ≡ pair_as (least_pair (λ i j. not (ordered_by order.now i j) && bit (get_or touching.now j 0) i) m) }
{
    let mut first: u32 = order::MOST_MOVES;
    let mut second: usize = 0;
    for j in 0..m {
        let i = least_touching(touching[j], order[j], j);
        if i < first {
            first = i;
            second = j;
        }
    }
    if first < order::MOST_MOVES {
        Some(MovePair {
            first,
            second: second as u32,
        })
    } else {
        None
    }
}

// Refusal 17: the least pair of the first `moves` moves that the order leaves unordered and that touch at one
// of the first `locations` locations.
pub fn least_touching_pair(
    readers: &[u64],
    writers: &[u64],
    order: &OrderTable,
    moves: u32,
    locations: usize,
) -> Option<MovePair>
    ensures { result ≡ pair_as (least_pair (unordered_marked order.now readers.now writers.now (clipped readers.now writers.now locations)) moves) }
{
    let n = locations.min(readers.len().min(writers.len()));
    let touching = touching_sets(readers, writers, n);
    least_pair(
        &touching,
        order,
        (moves as usize).min(order::MOST_MOVES as usize),
    )
}
