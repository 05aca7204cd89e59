// Numbers as digits. Not by std's Display: the recorder names nothing of std but its arithmetic, and no contract says which bytes
// `write!` leaves in a `&mut [u8]`.
ghost use Rattle.std.specs.Prelude.{◌≡◌, ◌≤◌, ◌<◌, length};
ghost use Rattle.lines.specs.Text.{digit, last_digits, decimal};
ghost use Rattle.lines.specs.Lines.{written};

// The character of a digit.
fn digit_char(d: u64) -> u8
    requires { d < 16 }
    ensures { result ≡ digit d }
{
    if d < 10 { 48 + d as u8 } else { 87 + d as u8 }
}

// Fills `out` with the last digits of a number.
fn fill(base: u64, v: u64, out: &mut [u8])
    requires { (0 < base) × (base ≤ 16) }
    ensures { out.new ≡ last_digits base (length out.old) v }
{
    let mut rest = v;
    for i in (0..out.len()).rev() {
        out[i] = digit_char(rest % base);
        rest /= base;
    }
}

// Fills `out` with the last decimal digits of a number, with zeros in front.
pub fn fill_decimal(v: u64, out: &mut [u8])
    ensures { out.new ≡ last_digits 10 (length out.old) v }
{
    fill(10, v, out);
}

// Fills `out` with the last hexadecimal digits of a number, with zeros in front.
pub fn fill_hex(v: u64, out: &mut [u8])
    ensures { out.new ≡ last_digits 16 (length out.old) v }
{
    fill(16, v, out);
}

// How many decimal digits a number has.
pub(crate) fn decimal_length(n: u64) -> usize
    ensures { result ≡ length (decimal n) }
{
    n.checked_ilog10().unwrap_or(0) as usize + 1
}

// Puts the decimal digits of a number first in `out`; how many they are.
pub(crate) fn put_decimal(n: u64, out: &mut [u8]) -> usize
    requires { length (decimal n) ≤ length out.old }
    ensures length { result ≡ length (decimal n) }
    ensures text { out.new ≡ written (decimal n) out.old }
{
    let length = decimal_length(n);
    fill_decimal(n, &mut out[..length]);
    length
}
