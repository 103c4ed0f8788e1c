// Lines written as bytes into a text that the caller lends.
#![tactic(auto)]

ghost use Rattle.std.specs.Prelude.{◌≡◌, ◌&&◌, not, ◌+◌, ◌/◌, ◌%◌, ◌<◌, ◌≤◌, eqb, ltb, set, if◌then◌else◌};
ghost use Rattle.text.specs.Text.{blank, zero_digit, field_bytes, written};
ghost use Rattle.text_write.specs.Bytes.{put_bytes};

use text::Line;

// The byte b put at index at + k; past the end nothing is put. A sum that is too large for its type is past the end as well.
fn put(out: &mut [u8], at: usize, k: usize, b: u8)
    ensures { out.new ≡ set out.old (at + k) b }
{
    text::put(out, at.saturating_add(k), b);
}

// The byte in the column of n that counts p, a power of ten: a digit, or a blank before the number.
fn column(n: u32, p: u32) -> u8
    requires { 0 < p }
    ensures { result ≡ (if ltb n p && not (eqb p 1) then blank else zero_digit + n / p % 10) }
{
    if (n < p) & !(p == 1) {
        32
    } else {
        48 + (n / p % 10) as u8
    }
}

// The six columns of n put at index at + k and on.
fn write_field(out: &mut [u8], at: usize, k: usize, n: u32)
    requires { k ≤ 18 }
    ensures { out.new ≡ put_bytes (at + k) (field_bytes n) out.old }
{
    put(out, at, k, column(n, 100000));
    put(out, at, k + 1, column(n, 10000));
    put(out, at, k + 2, column(n, 1000));
    put(out, at, k + 3, column(n, 100));
    put(out, at, k + 4, column(n, 10));
    put(out, at, k + 5, column(n, 1));
}

// The line's 25 bytes put from index `at` on, as far as they fit.
pub fn write_line(out: &mut [u8], at: usize, l: Line)
    ensures { out.new ≡ put_bytes at (written l) out.old }
{
    write_field(out, at, 0, l.a);
    write_field(out, at, 6, l.b);
    write_field(out, at, 12, l.c);
    write_field(out, at, 18, l.d);
    put(out, at, 24, 10);
}
