// What the program `rental` prints: how much it reads, and how large its tables are. The definitions are in specs/.
#![tactic(auto)]

// The most bytes of input.
pub const MOST_INPUT: usize = 60000;

// How many records each table of `rental` has.
pub const RECORDS: usize = 2048;
