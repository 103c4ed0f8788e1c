// The program `rental`: reads a book and then a log, and prints what the log's run answers.
#![tactic(auto)]

ghost use Rattle.std.specs.Prelude.{◌≡◌, ◌+◌, ◌<◌, ◌≤◌, length, take, drop, IfOk, IfSome, OnOk, IsErrOf, Some};
ghost use Rattle.std.specs.Io.{ReadsAtMost};
ghost use Rattle.std.specs.Io.KnownBytes.{Appends, Consumes, IsAtEnd, Keeps};
ghost use Rattle.report.specs.Report.{rental};
ghost use Rattle.rental.specs.Message.{message};

use std::io::{Read, Write};
use std::{fmt, io};

// Why an input has no answer, or not all of its answer was written.
#[derive(Clone, Copy)]
enum Failure {
    Unread,
    Unwritten,
}

impl fmt::Display for Failure {
    ghost output = { λ failure. Some (message failure) };

    fn fmt<W: fmt::Write>(&self, f: &mut fmt::Formatter<W>) -> fmt::Result {
        match self {
            Failure::Unread => f.write_str("rental: the input cannot be read"),
            Failure::Unwritten => f.write_str("rental: the output cannot be written"),
        }
    }
}

// One read, into the buffer from index `from` on. Gives how many bytes it put there.
fn read_on<R: Read>(input: &mut R, buf: &mut [u8], from: usize) -> io::Result<usize>
    requires { from ≤ length buf.old }
    ensures bound { IfOk result (λ more. from + more ≤ length buf.new) }
    ensures front { take from buf.new ≡ take from buf.old }
    ensures bytes { IfOk result (λ more. Consumes (R.remaining input.old) (R.remaining input.new) (take more (drop from buf.new))) }
    ensures end { IfOk result (λ more. more ≡ 0 → from < length buf.new → IsAtEnd (R.remaining input.new)) }
{
    input.read(&mut buf[from..])
}

// Reads until the buffer is full, the input ends or a read fails. A failure is reported by the read that
// meets it: a socket reports it only once.
fn read_all<R: Read>(input: &mut R, buf: &mut [u8]) -> io::Result<usize>
    ensures bound { ReadsAtMost result buf.new }
    ensures bytes { IfOk result (λ n. Consumes (R.remaining input.old) (R.remaining input.new) (take n buf.new)) }
    ensures end { IfOk result (λ n. n < length buf.new → IsAtEnd (R.remaining input.new)) }
{
    let mut n: usize = 0;
    while n < buf.len() {
        let more = read_on(input, buf, n)?;
        if more == 0 {
            return Ok(n);
        }
        n += more;
    }
    Ok(n)
}

// Writes what is printed for an input.
fn write_answer<W: Write>(input: &[u8], output: &mut W) -> io::Result<()>
    ensures { OnOk result (Appends (W.contents output.old) (W.contents output.new) (rental input.now)) }
{
    let mut printed = [0u8; 51225];
    let ran = report_print::report(input, &mut printed);
    output.write_all(&printed[..ran.bytes])
}

// Reads an input and writes what is printed for it. One byte more is read than an input may have, so that a longer one is found out. What
// cannot be read has no answer: then nothing is written.
fn run<R: Read, W: Write>(input: &mut R, output: &mut W) -> Result<(), Failure>
    ensures printed { IfSome (R.remaining input.old) (λ text. OnOk result (Appends (W.contents output.old) (W.contents output.new) (rental text))) }
    ensures unread { IsErrOf result Failure.Unread → Keeps (W.contents output.old) (W.contents output.new) }
{
    let mut text = [0u8; 60001];
    match read_all(input, &mut text) {
        Ok(n) => match write_answer(&text[..n], output) {
            Ok(()) => Ok(()),
            Err(_) => Err(Failure::Unwritten),
        },
        Err(_) => Err(Failure::Unread),
    }
}

fn main(rt: HostRuntime) {
    let mut input = rt.stdin();
    let mut output = rt.stdout();
    if let Err(failure) = run(&mut input, &mut output) {
        let _ = rt.eprintln(failure);
    }
}
