// The instruction list that a caller lends: written from the numbers that a walk gives, and read into numbers again.
#![tactic(auto)]

ghost use Rattle.std.specs.Prelude.{◌≡◌, map, min, take};
ghost use Rattle.engine.specs.declared.Instruction.TheVariants.{Release};
ghost use Rattle.engine_instruction.specs.Code.{decode_of, items};
ghost use Rattle.engine_list.specs.Written.{what_of, records_written, through, PassedThrough};

use engine::{Instruction, Record};

// The record that a number stands for.
fn record_of(c: u64) -> Record
    ensures { result ≡ record { what = decode_of c } }
{
    Record {
        what: engine_instruction::decode(c),
    }
}

// A number that stands for a record.
fn number_of(r: Record) -> u64
    ensures { decode_of result ≡ r.what }
{
    let what = r.what;
    engine_instruction::code(what)
}

// The least of three numbers.
fn least(a: usize, b: usize, c: usize) -> usize
    ensures { result ≡ min a (min b c) }
{
    a.min(b.min(c))
}

// Writes the first n numbers into the first records of the list; every other record stays as it was.
fn write_records(list: &mut [Record], from: &[u64], n: usize)
    ensures { list.new ≡ records_written (items from.now n) list.old }
{
    let m = least(n, list.len(), from.len());
    for i in 0..m {
        list[i] = record_of(from[i]);
    }
}

// Reads the first n records of the list into the first n numbers, as far as both go.
fn read_records(list: &[Record], to: &mut [u64], n: usize)
    ensures { items to.new (through n list.now to.old) ≡ map what_of (take (through n list.now to.old) list.now) }
{
    let m = least(n, list.len(), to.len());
    for i in 0..m {
        to[i] = number_of(list[i]);
    }
}

// Passes the first n numbers through the list: they are written into it and read from it again.
pub fn pass(list: &mut [Record], work: &mut [u64], n: usize)
    ensures { PassedThrough n list.old work.old list.new work.new }
{
    write_records(list, work, n);
    read_records(list, work, n);
}

// A record that nothing was written to.
pub fn blank() -> Record
    ensures { result ≡ record { what = Release 0 } }
{
    Record {
        what: Instruction::Release { label: 0 },
    }
}
