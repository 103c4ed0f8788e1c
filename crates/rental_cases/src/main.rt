// The program `rental_cases`: prints what `rental` prints for the cases (b) to (l) of SPECIFICATION 10.4, each after its letter.
#![tactic(auto)]

ghost use Rattle.std.specs.Prelude.{◌++◌, OnOk};
ghost use Rattle.std.specs.Io.KnownBytes.{Appends};
ghost use Rattle.report.specs.Report.{rental};

use std::alloc::Global;
use std::io;
use std::io::Write;

// The specification's book.
const BOOK: [u8; 575] = *b"     8     6     3    13
     2     3     0     0
     1     3     0     0
     1     3     0     0
     1     2     0     0
     2     0     0     0
     5     2     0     0
     1     3     0     0
    21     1     2     0
    26     0     1     3
     2     0     0     0
     5     2     5     0
     2     0     0     0
     5     2     7     0
     1     4     0     0
    11     8     9     0
    21     6    10     0
    25     0     1    11
     4     4     0     0
    12     5     0     0
     0     7     0     2
     1     6     0     2
     2     6     0     4
";

// A book and a log of one move, which sets f, so far the number 0, to a term over two elements. The term's kind and the elements are put in by `show_term`.
const TERM: [u8; 325] = *b"     8     6     2     5
     1     1     0     0
     1     3     0     0
     0     2     0     0
     4     1     0     0
     1     0     0     0
     1     0     0     0
     0     1     2     0
    21     0     3     0
     4     3     0     0
     1     0     0     3
     1     0     0     0
     0     0     0     0
";

// Writes a case's letter, and what `rental` prints for its input.
fn show<W: Write>(output: &mut W, name: &[u8], input: &[u8]) -> io::Result<()>
    ensures { OnOk result (Appends (W.contents output.old) (W.contents output.new) (name.now ++ rental input.now)) }
{
    output.write_all(name)?;
    let mut printed = [0u8; 51225];
    let ran = report_print::report(input, &mut printed);
    output.write_all(&printed[..ran.bytes])
}

// Writes a case's letter, and what `rental` prints for the specification's book and a log.
fn show_log<W: Write>(output: &mut W, alloc: Global, name: &[u8], log: &[u8]) -> io::Result<()> {
    let mut input = Vec::from_slice(alloc, &BOOK)?;
    input.extend_from_slice(log)?;
    show(output, name, input.as_slice())
}

// Cases (b) to (e): the specification's book with other logs.
fn show_logs<W: Write>(output: &mut W, alloc: Global) -> io::Result<()> {
    // Case (b): no pair.
    show_log(
        output,
        alloc,
        b"(b)\n",
        b"     2     0     0     0
     0     0     0     0
     1     0     0     0
",
    )?;
    // Case (c): no move.
    show_log(
        output,
        alloc,
        b"(c)\n",
        b"     0     0     0     0
",
    )?;
    // Case (d): agent 0 twice.
    show_log(
        output,
        alloc,
        b"(d)\n",
        b"     2     1     0     0
     0     0     0     0
     0     0     0     0
     0     1     0     0
",
    )?;
    // Case (e): agent 1 three times.
    show_log(
        output,
        alloc,
        b"(e)\n",
        b"     3     2     0     0
     1     0     0     0
     1     0     0     0
     1     0     0     0
     0     1     0     0
     1     2     0     0
",
    )
}

// Writes a case's letter, and what `rental` prints for a term: the two columns of its kind, and its two elements.
fn show_term<W: Write>(output: &mut W, name: &[u8], kind: [u8; 2], x: u8, y: u8) -> io::Result<()> {
    let mut input = TERM;
    input[136] = x;
    input[161] = y;
    input[179] = kind[0];
    input[180] = kind[1];
    show(output, name, &input)
}

// Cases (f) to (j): what terms give.
fn show_terms<W: Write>(output: &mut W) -> io::Result<()> {
    // Case (f): 1 plus 1.
    show_term(output, b"(f)\n", *b"11", b'4', b'4')?;
    // Case (g): 2 plus 1, P being 6.
    show_term(output, b"(g)\n", *b"11", b'5', b'4')?;
    // Case (h): 0 minus 1.
    show_term(output, b"(h)\n", *b"12", b'3', b'4')?;
    // Case (i): undef equal undef.
    show_term(output, b"(i)\n", *b" 7", b'0', b'0')?;
    // Case (j): false and undef.
    show_term(output, b"(j)\n", *b" 9", b'1', b'0')
}

// Case (k): updates are made at once.
fn show_swap<W: Write>(output: &mut W) -> io::Result<()> {
    // f := g beside g := f.
    show(
        output,
        b"(k)\n",
        b"     6     6     3     7
     1     2     0     0
     1     3     0     0
     0     2     0     0
     0     2     0     0
     4     1     0     0
     4     2     0     0
    21     0     1     0
     4     2     0     0
     4     1     0     0
    21     3     4     0
    22     2     5     0
     6     3     0     0
     1     0     0     3
     2     0     0     4
     1     0     0     0
     0     0     0     0
",
    )
}

// Case (l): a release.
fn show_release<W: Write>(output: &mut W) -> io::Result<()> {
    // The rule releases all of Pair, which has 6.
    show(
        output,
        b"(l)\n",
        b"     8     6     3     3
     1     3     0     0
     1     3     0     0
     1     3     0     0
     1     2     0     0
     2     0     0     0
    27     0     0     0
    25     0     1     1
     2     3     0     0
     0     7     0     2
     1     6     0     2
     2     6     0     4
     1     0     0     0
     0     0     0     0
",
    )
}

fn main(rt: HostRuntime) -> io::Result<()> {
    let mut output = rt.stdout();
    show_logs(&mut output, rt.alloc())?;
    show_terms(&mut output)?;
    show_swap(&mut output)?;
    show_release(&mut output)
}
