// What the program `rental` prints for any input: where the book of an input ends, the printed answer of a log, and the whole.
#![tactic(auto)]

ghost use Rattle.std.specs.Prelude.{◌≡◌, ◌+◌, ◌<◌, ◌≤◌, min, length, take};
ghost use Rattle.book.specs.Sum.{Strided};
ghost use Rattle.book.specs.Image.{program_in, word};
ghost use Rattle.report.specs.Report.{contents_lines, own_tables, first_line, print_checked, rental, tally_checked, input_tally};
ghost use Rattle.report_print.specs.Print.{triple_of, line_for, location_lines, lines_printed, Prints, most_output, FunctionPrinted};
ghost use Rattle.report_print.specs.Split.{book_length};
ghost use Rattle.text.specs.Words.{told, told_refused};
ghost use Rattle.text.specs.Text.{written};
ghost use Rattle.order.specs.Call.{check_all};
ghost use Rattle.report_print.specs.Shown.{Shown, fitting, fitting_tally};
ghost use Rattle.report_print.specs.Reported.{CallPrinted, blank_tables};
ghost use Rattle.engine.specs.Tables.{tables};

use book::{Function, Image};
use engine::Tally;
use order::{Lengths, OrderTable};
use order_run::CheckedCall;
use text::{Line, Reason, Refusal, Value};

// The line of location i of function k, which is f and holds v there. Arguments are divided out only for locations that are printed.
fn line_of(f: Function, k: u32, i: u32, v: Value) -> Line
    ensures { result ≡ line_for f k i v }
{
    let x = book_parts::take_apart(f, i as usize);
    Line {
        a: k,
        b: x.first as u32,
        c: x.second as u32,
        d: v as u32,
    }
}

// Prints the line of location i of function k after n others, unless v is the default. Gives how many lines there are then.
fn print_location(f: Function, k: u32, i: u32, v: Value, n: u32, out: &mut [u8]) -> u32
    requires { n < 4294967295 }
    ensures { (result ≡ n + length (location_lines f k i v)) × (out.new ≡ lines_printed n (location_lines f k i v) out.old) }
{
    if v == book_parts::default_of(f) {
        return n;
    }
    let l = line_of(f, k, i, v);
    text_write::write_line(out, text::LINE + text::LINE * n as usize, l);
    n + 1
}

// Prints the lines of function k after n others. Gives how many lines there are then.
fn print_function(image: &Image, contents: &[Value], k: u32, n: u32, out: &mut [u8]) -> u32
    requires { n ≤ 3100000000 }
    ensures { FunctionPrinted (program_in image.now) contents.now k n out.old result out.new }
{
    let f = book_image::function_at(image, k);
    let all = book_image::size(book_image::elements(image), f.arity);
    let first = f.first as usize;
    let mut lines = n;
    for i in 0..all {
        let v = text::fetch(contents, first + i as usize);
        lines = print_location(f, k, i, v, lines, out);
    }
    lines
}

// Prints the contents that are not at their default as lines of a book, from byte 25 on, as far as they fit. Gives how many lines there are.
fn print_contents(image: &Image, contents: &[Value], out: &mut [u8]) -> u32
    ensures { Strided (program_in image.now) → (result ≡ length (contents_lines (program_in image.now) contents.now)) × (out.new ≡ lines_printed 0 (contents_lines (program_in image.now) contents.now) out.old) }
{
    let all = book_image::functions(image) as u32;
    let mut lines: u32 = 0;
    for k in 0..all {
        lines = print_function(image, contents, k, lines, out);
    }
    lines
}

// An answer as it is printed, the triple of SPECIFICATION 8.1: a refusal's number and its place (p, q). The number is 0 when accepted.
#[derive(Clone, Copy, Debug, PartialEq, Eq)]
pub struct Answer {
    pub number: u32,
    pub p: u32,
    pub q: u32,
}

// The answer that a result tells: 0 0 0 when accepted.
impl From<Result<(), Refusal>> for Answer {
    ghost from_gives = { λ r a. triple_of a ≡ told r };

    fn from(r: Result<(), Refusal>) -> Answer {
        match r {
            Ok(()) => Answer {
                number: 0,
                p: 0,
                q: 0,
            },
            Err(refusal) => Answer {
                number: refusal.reason.number(),
                p: refusal.p,
                q: refusal.q,
            },
        }
    }
}

// The first line of an answer, with so many contents lines after it.
fn first_line(answer: Answer, count: u32) -> Line
    ensures { result ≡ first_line (triple_of answer) count }
{
    Line {
        a: answer.number,
        b: answer.p,
        c: answer.q,
        d: count,
    }
}

// Prints the whole text of an answer: its first line, and when accepted the contents. Gives how many bytes it has; those past it stay.
// Any answer is printed, with a number that no refusal of this code has too.
pub fn print_answer(image: &Image, contents: &[Value], answer: Answer, out: &mut [u8]) -> usize
    ensures { Strided (program_in image.now) → Prints (program_in image.now) (triple_of answer) contents.now out.old result out.new }
{
    let refused = answer.number != 0;
    if refused {
        text_write::write_line(out, 0, first_line(answer, 0));
        return text::LINE;
    }
    let n = print_contents(image, contents, out);
    text_write::write_line(out, 0, first_line(answer, n));
    text::LINE + text::LINE * n as usize
}

// How many bytes of an input are its book, by its header; all, if the header is refused.
pub fn book_bytes(input: &[u8]) -> usize
    ensures { result ≡ book_length input.now }
{
    let n = input.len();
    let Some(k) = text::parse(input, 0) else {
        return n;
    };
    let Some(l) = text::parse(input, 1) else {
        return n;
    };
    if book_header::bad_header(k, l).is_some() {
        return n;
    }
    let lines = 2 + k.c as usize + k.d as usize + l.a as usize + l.b as usize;
    (text::LINE * lines).min(n)
}

// ---- the whole answer to an input

// How many bytes are printed, and the label tally of the run, which is not printed.
#[derive(Clone, Copy)]
pub struct PrintedRun {
    pub bytes: usize,
    pub tally: Tally,
}

// Prints the line of a refusal; the moves before it have this tally.
fn print_refusal(refusal: Refusal, tally: Tally, output: &mut [u8]) -> PrintedRun
    requires { most_output ≤ length output.old }
    ensures { Shown (written (first_line (told_refused refusal) 0)) tally output.old result output.new }
{
    text_write::write_line(output, 0, first_line(Answer::from(Err(refusal)), 0));
    PrintedRun {
        bytes: text::LINE,
        tally,
    }
}

// Prints an answer with the contents of the image's program, which stand in front of the table.
fn print_image(
    image: &Image,
    contents: &[Value],
    answer: Result<(), Refusal>,
    output: &mut [u8],
) -> usize
    ensures { Strided (program_in image.now) → Prints (program_in image.now) (told answer) (take (min (word image.now 6) (length contents.now)) contents.now) output.old result output.new }
{
    let n = (book_image::locations(image) as usize).min(contents.len());
    print_answer(image, &contents[..n], Answer::from(answer), output)
}

// Makes the moves of a call that passed its checks, on these tables, and prints the answer.
fn report_on(
    book: &[u8],
    contents: &mut [Value],
    readers: &mut [u64],
    writers: &mut [u64],
    image: &Image,
    order: &OrderTable,
    checked: CheckedCall,
    output: &mut [u8],
) -> PrintedRun
    requires { most_output ≤ length output.old }
    ensures { CallPrinted book.now checked image.now order.now (tables contents.old readers.old writers.old) output.old result output.new }
{
    let state = order_run::start_run(book, contents, readers, writers, image, order, checked);
    let ended = order_entry::run_from_own_list(
        contents,
        readers,
        writers,
        report::RECORDS,
        image,
        order,
        state,
    );
    let tally = ended.tally;
    if let Err(refusal) = ended.answer {
        return print_refusal(refusal, tally, output);
    }
    let bytes = print_image(image, contents, Ok(()), output);
    PrintedRun { bytes, tally }
}

// Makes the moves and prints the answer on tables of N records.
fn report_with<const N: usize>(
    book: &[u8],
    image: &Image,
    order: &OrderTable,
    checked: CheckedCall,
    output: &mut [u8],
) -> PrintedRun
    requires room { most_output ≤ length output.old }
    requires few { N ≤ 2048 }
    ensures { CallPrinted book.now checked image.now order.now (blank_tables N) output.old result output.new }
{
    let mut contents = [0u16; N];
    let mut readers = [0u64; N];
    let mut writers = [0u64; N];
    report_on(
        book,
        &mut contents,
        &mut readers,
        &mut writers,
        image,
        order,
        checked,
        output,
    )
}

// Prints the answer to a book and a log, as if on tables of 2,048 records.
fn report_parts(book: &[u8], log: &[u8], output: &mut [u8]) -> PrintedRun
    requires { most_output ≤ length output.old }
    ensures { Shown (print_checked (check_all book.now log.now own_tables)) (tally_checked (check_all book.now log.now own_tables)) output.old result output.new }
{
    let mut image = [0u32; 2248];
    let mut order = [0u64; 512];
    let lent = Lengths {
        contents: report::RECORDS,
        readers: report::RECORDS,
        writers: report::RECORDS,
        instructions: report::RECORDS,
    };
    match order_run::check_all(book, log, lent, &mut image, &mut order) {
        Err(refusal) => print_refusal(refusal, engine_fire::no_labels(), output),
        Ok(checked) => {
            // Most books have few locations, and small tables are soon cleared.
            if checked.locations <= 256 {
                report_with::<256>(book, &image, &order, checked, output)
            } else {
                report_with::<{ report::RECORDS }>(book, &image, &order, checked, output)
            }
        }
    }
}

// Prints the answer to an input, split into its book and its log.
fn report_input(input: &[u8], output: &mut [u8]) -> PrintedRun
    requires { most_output ≤ length output.old }
    ensures { Shown (rental input.now) (input_tally input.now) output.old result output.new }
{
    if input.len() > report::MOST_INPUT {
        let long = Refusal {
            reason: Reason::LentShort,
            p: 60000,
            q: text::INPUT_TABLE,
        };
        return print_refusal(long, engine_fire::no_labels(), output);
    }
    let n = book_bytes(input);
    report_parts(&input[..n], &input[n..], output)
}

// What `rental` prints for any input. Gives how many bytes it writes, and the tally of the run; bytes past those written stay. An output of fewer bytes than
// an answer may need is left as it is, nothing is run, and all numbers given are 0.
pub fn report(input: &[u8], output: &mut [u8]) -> PrintedRun
    ensures { Shown (fitting (rental input.now) output.old) (fitting_tally (input_tally input.now) output.old) output.old result output.new }
{
    if output.len() < 51225 {
        return PrintedRun {
            bytes: 0,
            tally: engine_fire::no_labels(),
        };
    }
    report_input(input, output)
}
