// Fields of fixed columns: reading a number out of the bytes of one, and printing a number in one.
ghost use Rattle.std.specs.Prelude.{◌≡◌, ◌+◌, ◌-◌, ◌^◌, ◌<◌, ◌≤◌, length, pos, neg_ℤ};
ghost use Rattle.std.specs.Float.{binary64};
ghost use Rattle.std.specs.Float.Ieee.{of_int};
ghost use Rattle.sheet_lines.specs.Read.{unpadded, number, read_field, read_price};
ghost use Rattle.sheet_lines.specs.inner.Adds.{Adds};
ghost use Rattle.sheet_lines.specs.Print.{column, leading, print_field};

// The columns without the blanks in front.
fn unpadded(columns: &[u8]) -> &[u8]
    ensures { result.now ≡ unpadded columns.now }
{
    let mut rest = columns;
    while let [b' ', more @ ..] = rest {
        rest = more;
    }
    rest
}

// The number of one or more digits; 18 digits fit.
fn number(digits: &[u8]) -> Option<u64>
    requires { length digits.now ≤ 18 }
    ensures { result ≡ number digits.now }
{
    if digits.is_empty() {
        return None;
    }
    let mut value: u64 = 0;
    for digit in digits {
        if !digit.is_ascii_digit() {
            return None;
        }
        value = 10 * value + u64::from(*digit - b'0');
    }
    Some(value)
}

// The number that a field's columns say; 18 columns fit.
pub fn read_field(columns: &[u8]) -> Option<u64>
    requires { length columns.now ≤ 18 }
    ensures { result ≡ read_field columns.now }
{
    number(unpadded(columns))
}

// The price that its columns say; 12 columns fit.
pub fn read_price(columns: &[u8]) -> Option<f64>
    requires { length columns.now ≤ 12 }
    ensures { result ≡ read_price columns.now }
{
    let columns = unpadded(columns);
    // As a slice pattern it was tried: its default arm keeps no fact that a proof may name.
    if !columns.is_empty() && columns[0] == b'-' {
        Some(negative(number(&columns[1..])?))
    } else {
        Some(number(columns)? as f64)
    }
}

// So many ticks below zero; there is no -0.
fn negative(ticks: u64) -> f64
    requires { ticks < 10 ^ 12 }
    ensures { result ≡ of_int binary64 (neg_ℤ (pos ticks)) }
{
    if ticks == 0 { 0.0 } else { -(ticks as f64) }
}

// The last digit of n, blank where nothing of n is left.
fn last_column(n: u64) -> u8
    ensures { result ≡ column n }
{
    if n == 0 { b' ' } else { b'0' + (n % 10) as u8 }
}

// Prints the digits of n in the columns from `from` to `to`, blank where nothing of n is left.
fn print_leading(text: &mut [u8], from: usize, to: usize, n: u64)
    requires { (from ≤ to) × (to ≤ length text.old) }
    ensures { Adds from (leading (to - from) n) to text.old text.new }
{
    let mut rest = n;
    for i in (from..to).rev() {
        text[i] = last_column(rest);
        rest /= 10;
    }
}

// Prints n right-justified in `width` columns from `at` on: `Adds` says how a whole text grows from that place.
pub fn print_field(text: &mut [u8], at: usize, width: usize, n: u64)
    requires { (0 < width) × (at + width ≤ length text.old) }
    ensures { Adds at (print_field width n) (at + width) text.old text.new }
{
    let last = at + width - 1;
    print_leading(text, at, last, n / 10);
    text[last] = b'0' + (n % 10) as u8;
}
