// The text of books and logs: its lines read and checked; and small functions over lists that many crates use.
#![tactic(auto)]

ghost use Rattle.std.specs.Prelude.{◌≡◌, true, ◌&&◌, not, [], ◌∷◌, ◌+◌, ◌-◌, ◌*◌, ◌<◌, ◌≤◌, ◌%◌, Err, eqb, length, take, drop, get_or, set};
ghost use Rattle.text.specs.Words.{least, least_from, none_at, must, answer_of, told};
ghost use Rattle.text.specs.Refusals.{number_of};
ghost use Rattle.text.specs.Text.{zero_digit, digit, field_ok, value_of, well_formed, line_bytes, line, bad_line, parsed};
ghost use Rattle.text.specs.Scan.{step_of, ends_well, four_blanks, Read};

// Why something is refused, by its number (SPECIFICATION 8.1). Refusal 16 is taken and never given (SPECIFICATION 4.10).
#[derive(Clone, Copy, Debug, PartialEq, Eq)]
pub enum Reason {
    IllFormed = 1,
    LentShort = 2,
    HeaderBounds = 3,
    FunctionLine = 4,
    NodeLine = 5,
    NodeUse = 6,
    AgentLine = 7,
    ContentsRule = 8,
    LogLine = 9,
    AgentUnordered = 10,
    NonBoolean = 11,
    NotReleasable = 12,
    NoLabelLeft = 13,
    ListFull = 14,
    Clash = 15,
    UnorderedTouch = 17,
    NotInUniverse = 18,
    PickCount = 19,
}

impl Reason {
    // The number of the refusal.
    pub fn number(self) -> u32
        ensures { result ≡ number_of self }
    {
        self as u32
    }
}

// A caller may hold reasons as numbers of 16 bits, any of them.
impl From<Reason> for u16 {
    ghost from_gives = { λ r n. n ≡ number_of r };

    fn from(reason: Reason) -> u16 {
        reason as u16
    }
}

// A refusal: why, and its place (p, q). A caller's reasons may be of a type of its own.
#[derive(Clone, Copy, Debug, PartialEq, Eq)]
pub struct Refusal<R = Reason> {
    pub reason: R,
    pub p: u32,
    pub q: u32,
}

// The texts, as the q of refusal 1: the book is 0, and the log 1.
pub const LOG_TEXT: u32 = 1;

// The lent tables, as the q of refusal 2; 4 is the program's input.
pub const CONTENTS_TABLE: u32 = 0;

pub const READERS_TABLE: u32 = 1;

pub const WRITERS_TABLE: u32 = 2;

pub const INSTRUCTIONS_TABLE: u32 = 3;

pub const INPUT_TABLE: u32 = 4;

// Bytes in a line.
pub const LINE: usize = 25;

// Bytes in a field.
pub const FIELD: usize = 6;

// What is read as the number of a field that is not readable.
const NO_NUMBER: u32 = 4294967295;

// A line's four numbers.
#[derive(Clone, Copy)]
pub struct Line {
    pub a: u32,
    pub b: u32,
    pub c: u32,
    pub d: u32,
}

// What is found in lines of one kind: the least that is ill-formed, and the least at fault.
#[derive(Clone, Copy)]
pub struct LineFaults {
    pub ill: Option<u32>,
    pub fault: Option<u32>,
}

// Refused at (p, q).
pub fn refused(reason: Reason, p: u32, q: u32) -> Result<(), Refusal>
    ensures { result ≡ Err (record { reason = reason; p = p; q = q }) }
{
    Err(Refusal { reason, p, q })
}

// Refused at the place found and q; accepted if nothing was found.
pub fn none_at(reason: Reason, q: u32, found: Option<u32>) -> Result<(), Refusal>
    ensures { told result ≡ answer_of (none_at (number_of reason) 0 q found) }
{
    match found {
        None => Ok(()),
        Some(p) => refused(reason, p, q),
    }
}

// Refused at (p, q) unless the test passes.
pub fn must(test: bool, reason: Reason, p: u32, q: u32) -> Result<(), Refusal>
    ensures { told result ≡ answer_of (must test (number_of reason) p q) }
{
    if test { Ok(()) } else { refused(reason, p, q) }
}

// The state of the columns of a field that have been read: blanks, a single 0, a number, or not readable.
#[derive(Clone, Copy)]
pub enum Scan {
    Blank,
    Zero,
    Digits,
    Bad,
}

// The state after a byte that comes after blanks or none: a 0 must stand alone.
fn scan_first(b: u8) -> Scan
    ensures { result ≡ step_of Scan.Blank b }
{
    match b {
        32 => Scan::Blank,
        48 => Scan::Zero,
        49..=57 => Scan::Digits,
        _ => Scan::Bad,
    }
}

// The state after a byte that comes after digits.
fn scan_next(b: u8) -> Scan
    ensures { result ≡ step_of Scan.Digits b }
{
    match b {
        48..=57 => Scan::Digits,
        _ => Scan::Bad,
    }
}

// The state after one more byte, s being the state before it.
fn scan_byte(s: Scan, b: u8) -> Scan
    ensures { result ≡ step_of s b }
{
    match s {
        Scan::Blank => scan_first(b),
        Scan::Zero => Scan::Bad,
        Scan::Digits => scan_next(b),
        Scan::Bad => Scan::Bad,
    }
}

// Columns in the state s are a number.
fn scan_ends(s: Scan) -> bool
    ensures { result ≡ ends_well s }
{
    match s {
        Scan::Blank => false,
        Scan::Zero => true,
        Scan::Digits => true,
        Scan::Bad => false,
    }
}

// The six columns from `at` on are a readable field, read column by column.
fn scanned(text: &[u8], at: usize) -> bool
    requires { at + 6 ≤ length text.now }
    ensures { result ≡ field_ok (take 6 (drop at text.now)) }
{
    let mut s = Scan::Blank;
    for b in &text[at..at + FIELD] {
        s = scan_byte(s, *b);
    }
    scan_ends(s)
}

// Four columns are blank. They are compared as one number, which the machine loads and compares at once.
fn all_blank(a: u8, b: u8, c: u8, d: u8) -> bool
    ensures { result ≡ true → (a ≡ 32) × (b ≡ 32) × (c ≡ 32) × (d ≡ 32) }
{
    a as u32 + b as u32 * 256 + c as u32 * 65536 + d as u32 * 16777216 == 538976288
}

// The first four columns of the field at `at` are blank.
fn blanks(text: &[u8], at: usize) -> bool
    requires { at + 6 ≤ length text.now }
    ensures { result ≡ true → take 4 (drop at text.now) ≡ four_blanks }
{
    all_blank(text[at], text[at + 1], text[at + 2], text[at + 3])
}

// Three columns are blank, compared as one number.
fn three_blank(a: u8, b: u8, c: u8) -> bool
    ensures { result ≡ true → (a ≡ 32) × (b ≡ 32) × (c ≡ 32) }
{
    a as u32 + b as u32 * 256 + c as u32 * 65536 == 2105376
}

// The byte is a decimal digit.
fn is_digit(b: u8) -> bool
    ensures { result ≡ digit b }
{
    (48 <= b) & (b <= 57)
}

// The byte is the first digit of several: 1 to 9.
fn is_leading_digit(b: u8) -> bool
    ensures { result ≡ digit b && not (eqb b zero_digit) }
{
    (48 <= b) & (b <= 57) & (b != 48)
}

// The number of a field of which all columns but the last, f, are blank.
fn last_column(f: u8) -> u32
    ensures { Read (f ∷ []) result }
{
    if is_digit(f) {
        f as u32 - 48
    } else {
        NO_NUMBER
    }
}

// The number of a field of which all columns but the last two, e and f, are blank.
fn last_two(e: u8, f: u8) -> u32
    ensures { Read (e ∷ f ∷ []) result }
{
    if e == 32 {
        last_column(f)
    } else if is_leading_digit(e) & is_digit(f) {
        e as u32 * 10 + f as u32 - 528
    } else {
        NO_NUMBER
    }
}

// The number of a field of which all columns but the last three, d, e and f, are blank.
fn last_three(d: u8, e: u8, f: u8) -> u32
    ensures { Read (d ∷ e ∷ f ∷ []) result }
{
    if d == 32 {
        last_two(e, f)
    } else if is_leading_digit(d) & is_digit(e) & is_digit(f) {
        d as u32 * 100 + e as u32 * 10 + f as u32 - 5328
    } else {
        NO_NUMBER
    }
}

// The number of the six columns from `at` on, each read by itself.
fn six_columns(text: &[u8], at: usize) -> u32
    requires { (at + 6 ≤ length text.now) × (at < 1000000000000) }
    ensures { Read (take 6 (drop at text.now)) result }
{
    if scanned(text, at) {
        columns(text, at)
    } else {
        NO_NUMBER
    }
}

// The number of the six columns from `at` on. Most fields have one digit, two or three, and these are read faster.
fn field(text: &[u8], at: usize) -> u32
    requires { (at + 6 ≤ length text.now) × (at < 1000000000000) }
    ensures { Read (take 6 (drop at text.now)) result }
{
    if blanks(text, at) {
        last_two(text[at + 4], text[at + 5])
    } else if three_blank(text[at], text[at + 1], text[at + 2]) {
        last_three(text[at + 3], text[at + 4], text[at + 5])
    } else {
        six_columns(text, at)
    }
}

// Line i as it is read: its numbers, if it is in form.
pub fn parse(text: &[u8], i: u32) -> Option<Line>
    ensures { result ≡ parsed text.now i }
{
    let at = i as usize * LINE;
    if text.len() < at + LINE {
        return None;
    }
    let a = field(text, at);
    let b = field(text, at + 6);
    let c = field(text, at + 12);
    let d = field(text, at + 18);
    let end = text[at + 24];
    if !(a == NO_NUMBER) & !(b == NO_NUMBER) & !(c == NO_NUMBER) & !(d == NO_NUMBER) & (end == 10) {
        return Some(Line { a, b, c, d });
    }
    None
}

// Line i is in form.
fn is_line_in_form(text: &[u8], i: u32) -> bool
    ensures { result ≡ well_formed (line_bytes text.now i) }
{
    parse(text, i).is_some()
}

// Refusal 1: the least of the lines from `first` up to `end` that is ill-formed or missing.
pub fn bad_line_from(text: &[u8], first: u32, end: u32) -> Option<u32>
    ensures { result ≡ least_from (bad_line text.now) (end - first) first }
{
    (first..end).find(|&i| !is_line_in_form(text, i))
}

// The number n with the digit of column `at` put after it. A blank leaves n as it is, and so does the text's end.
fn push(text: &[u8], at: usize, n: u32) -> u32
    requires { n ≤ 100000000 }
    ensures { (result ≡ value_of n (take 1 (drop at text.now))) × (result ≤ 10 * n + 255) }
{
    if at < text.len() {
        let b = text[at];
        if b == 32 {
            n
        } else if b < 48 {
            n * 10
        } else {
            n * 10 + (b - 48) as u32
        }
    } else {
        n
    }
}

// The number of the six columns from `at` on, column by column; they need not be readable.
fn columns(text: &[u8], at: usize) -> u32
    requires { at < 1000000000000 }
    ensures { (result ≡ value_of 0 (take 6 (drop at text.now))) × (result ≤ 28333305) }
{
    let a = push(text, at, 0);
    let b = push(text, at + 1, a);
    let c = push(text, at + 2, b);
    let d = push(text, at + 3, c);
    let e = push(text, at + 4, d);
    push(text, at + 5, e)
}

// The field at `at` is in the text, and its first four columns are blank.
fn short(text: &[u8], at: usize) -> bool
    requires { at < 1000000000000 }
    ensures { result ≡ true → take 4 (drop at text.now) ≡ four_blanks }
{
    if at + FIELD <= text.len() {
        blanks(text, at)
    } else {
        false
    }
}

// The number of the six columns from `at` on, which need not be readable. Most fields have one digit or two, and these are read faster.
fn number(text: &[u8], at: usize) -> u32
    requires { at < 1000000000000 }
    ensures { result ≡ value_of 0 (take 6 (drop at text.now)) }
{
    if short(text, at) {
        let e = push(text, at + 4, 0);
        push(text, at + 5, e)
    } else {
        columns(text, at)
    }
}

// The numbers of line i, counted from line `first`.
pub fn read_line(text: &[u8], first: u32, i: u32) -> Line
    ensures { result ≡ line text.now (first + i) }
{
    let at = (first as usize + i as usize) * LINE;
    Line {
        a: number(text, at),
        b: number(text, at + 6),
        c: number(text, at + 12),
        d: number(text, at + 18),
    }
}

// ---- small functions over numbers and lists

// An element, as contents, instructions and labels hold it.
pub type Value = u16;

// A type of unsigned numbers, which lists hold.
pub trait Unsigned: Copy {
    const ZERO: Self;

    ghost ZERO: { Self };
}

impl Unsigned for u8 {
    const ZERO: u8 = 0;

    ghost ZERO = { 0 };
}

impl Unsigned for u16 {
    const ZERO: u16 = 0;

    ghost ZERO = { 0 };
}

impl Unsigned for u32 {
    const ZERO: u32 = 0;

    ghost ZERO = { 0 };
}

impl Unsigned for u64 {
    const ZERO: u64 = 0;

    ghost ZERO = { 0 };
}

// The number at index i of a list, 0 past its end.
pub fn fetch<T: Unsigned>(s: &[T], i: usize) -> T
    ensures { result ≡ get_or s.now i T.ZERO }
{
    if i < s.len() { s[i] } else { T::ZERO }
}

// x put at index i of a list; past its end nothing is put.
pub fn put<T: Copy>(s: &mut [T], i: usize, x: T)
    ensures { s.new ≡ set s.old i x }
{
    if i < s.len() {
        s[i] = x;
    }
}

// The low sixteen bits of a number. The remainder is taken since `as` must lose nothing.
pub fn low(x: u32) -> u16
    ensures { result ≡ x % 65536 }
{
    (x % 65536) as u16
}
