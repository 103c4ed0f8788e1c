// A log of moves: its bounds, and the types of the table that holds its order and picks and of the lengths of lent tables.
#![tactic(auto)]

// Bounds of a log: moves, pairs and picks.
pub const MOST_MOVES: u32 = 64;

pub const MOST_PAIRS: u32 = 2016;

pub const MOST_PICKS: u32 = 256;

// The order of a log and its picks, as specs/Table lays them out: for each of 64 moves the set of its predecessors, then its
// agent, its first pick, and the end of its picks; then 256 picks.
pub type OrderTable = [u64; 512];

// For each of 64 moves a set of moves.
pub type MoveSets = [u64; 64];

// Where in the order's table the agents begin, the first picks, the ends of the picks, and the picks themselves.
pub const AGENTS: usize = 64;

pub const FIRST_PICKS: usize = 128;

pub const PICK_ENDS: usize = 192;

pub const PICKS: usize = 256;

// How many records of each table are lent.
#[derive(Clone, Copy)]
pub struct Lengths {
    pub contents: usize,
    pub readers: usize,
    pub writers: usize,
    pub instructions: usize,
}
