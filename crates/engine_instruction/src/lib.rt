// A move's instructions as the code holds them, each one number; and what one gives: its own location and value, and whether it clears a location.
#![tactic(auto)]

ghost use Rattle.std.specs.Prelude.{◌≡◌};
ghost use Rattle.engine_instruction.specs.Code.{decode_of};
ghost use Rattle.text.specs.Words.{has};
ghost use Rattle.book.specs.Sum.{arguments_by};
ghost use Rattle.engine_instruction.specs.Given.{own, gets, clears_by};

use book::Function;
use book_parts::Arguments;
use engine::Instruction;
use text::Value;

// From here on a number stands for a release.
pub const RELEASES: u64 = 281474976710656;

// The number that stands for an instruction.
pub fn code(what: Instruction) -> u64
    ensures { decode_of result ≡ what }
{
    match what {
        Instruction::Update { location, value } => location as u64 * 65536 + value as u64,
        Instruction::Release { label } => RELEASES + label as u64,
    }
}

// The instruction that a number stands for.
pub fn decode(c: u64) -> Instruction
    ensures { result ≡ decode_of c }
{
    if c < RELEASES {
        Instruction::Update {
            location: (c / 65536) as u32,
            value: (c % 65536) as Value,
        }
    } else {
        Instruction::Release {
            label: (c % 65536) as Value,
        }
    }
}

// The location that an instruction is about: an update's, or Reserve at a release's label.
pub fn own_location(what: Instruction) -> u32
    ensures { result ≡ own what }
{
    match what {
        Instruction::Update { location, value: _ } => location,
        Instruction::Release { label } => label as u32,
    }
}

// The value that an instruction gives its own location.
pub fn own_value(what: Instruction) -> Value
    ensures { result ≡ gets what }
{
    match what {
        Instruction::Update { location: _, value } => value,
        Instruction::Release { label: _ } => 2,
    }
}

// x is one of the two arguments, of those that a function of that arity has.
fn has_argument(arity: u32, a: Arguments, x: Value) -> bool
    ensures { result ≡ has (arguments_by arity a.first a.second) x }
{
    ((1 <= arity) & (a.first == x as usize)) | ((2 <= arity) & (a.second == x as usize))
}

// A release of x clears the location of f at these arguments, holding `held`.
pub fn clears_at(f: Function, a: Arguments, held: Value, x: Value) -> bool
    ensures { result ≡ clears_by f a.first a.second held x }
{
    book_parts::is_dynamic(f) & (has_argument(f.arity, a, x) | (held == x))
}
