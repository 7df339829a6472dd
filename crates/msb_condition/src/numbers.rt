ghost use Rattle.std.specs.Prelude.{◌≡◌, ◌+◌, ◌-◌, ◌<◌, ◌≤◌, ◌*◌, ◌^◌, length, IfSome};
ghost use Rattle.std.specs.List.{position_or_len};
ghost use Rattle.msb_condition.specs.Numbers.{
  is_point,
  written,
  of_size,
  whole_number,
  parted_number,
  plain_number,
  hex_number,
  number_of,
  is_less,
  is_equal,
};

/// A number, exactly. (MSBuild conditions.)
#[derive(Clone, Copy)]
pub(crate) struct Number {
    negative: bool,
    /// In units of 10^-18.
    size: u128,
}

/// 10^18, which is one.
const ONE: u128 = 1_000_000_000_000_000_000;

impl Number {
    fn whole(negative: bool, whole: u64) -> Number
        ensures { result ≡ of_size negative (whole * 10 ^ 18) }
    {
        Number {
            negative,
            size: whole as u128 * ONE,
        }
    }

    pub(crate) fn is_less(self, other: Number) -> bool
        ensures { result ≡ is_less self other }
    {
        match (self.negative, other.negative) {
            (false, false) => self.size < other.size,
            (true, true) => other.size < self.size,
            (true, false) => self.size > 0 || other.size > 0,
            (false, true) => false,
        }
    }

    pub(crate) fn is_equal(self, other: Number) -> bool
        ensures { result ≡ is_equal self other }
    {
        if self.negative == other.negative {
            self.size == other.size
        } else {
            self.size == 0 && other.size == 0
        }
    }
}

/// The number that a text is, if it is one: an optional sign, digits, and optionally `.` and
/// digits, with at most 18 digits in all; or `0x` and 1 to 16 hexadecimal digits.
pub(crate) fn number_of(text: &[u8]) -> Option<Number>
    ensures { result ≡ number_of text.now }
{
    match text {
        [] => None,
        [b'+', rest @ ..] => plain_number(false, rest),
        [b'-', rest @ ..] => plain_number(true, rest),
        [b'0', b'x', digits @ ..] => hex_number(digits),
        _ => plain_number(false, text),
    }
}

fn hex_number(digits: &[u8]) -> Option<Number>
    ensures { result ≡ hex_number digits.now }
{
    match read_digits(digits, 16, 16) {
        Some(whole) => Some(Number::whole(false, whole)),
        None => None,
    }
}

/// The number of a text without its sign.
fn plain_number(negative: bool, text: &[u8]) -> Option<Number>
    ensures { result ≡ plain_number negative text.now }
{
    let point = point_at(text);
    if point == text.len() {
        whole_number(negative, text)
    } else {
        parted_number(negative, &text[..point], &text[point + 1..])
    }
}

/// The place of the first point, or the length where there is none.
fn point_at(text: &[u8]) -> usize
    ensures value { result ≡ position_or_len is_point text.now }
    ensures within { result ≤ length text.now }
{
    for (at, byte) in text.iter().enumerate() {
        if *byte == b'.' {
            return at;
        }
    }
    text.len()
}

fn whole_number(negative: bool, digits: &[u8]) -> Option<Number>
    ensures { result ≡ whole_number negative digits.now }
{
    match read_digits(digits, 10, 18) {
        Some(whole) => Some(Number::whole(negative, whole)),
        None => None,
    }
}

/// The number of the digits before a point and behind it.
fn parted_number(negative: bool, before: &[u8], after: &[u8]) -> Option<Number>
    ensures { result ≡ parted_number negative before.now after.now }
{
    if before.len() + after.len() > 18 {
        return None;
    }
    match (read_digits(before, 10, 18), read_digits(after, 10, 18)) {
        (Some(whole), Some(fraction)) => Some(of_parts(negative, whole, fraction, after.len())),
        _ => None,
    }
}

/// The number of a whole and so many digits behind the point.
fn of_parts(negative: bool, whole: u64, fraction: u64, digits: usize) -> Number
    requires whole { whole < 10 ^ 18 }
    requires fraction { fraction < 10 ^ 18 }
    requires digits { digits ≤ 18 }
    ensures { result ≡ of_size negative (whole * 10 ^ 18 + fraction * 10 ^ (18 - digits)) }
{
    let unit = 10_u64.pow(18 - digits as u32);
    Number {
        negative,
        size: whole as u128 * ONE + fraction as u128 * unit as u128,
    }
}

/// What the digits write, if they are from 1 to so many.
fn read_digits(digits: &[u8], radix: u32, most: usize) -> Option<u64>
    requires least_radix { 2 ≤ radix }
    requires most_radix { radix ≤ 36 }
    requires fits { radix ^ most ≤ 2 ^ 64 }
    ensures value { result ≡ written radix most digits.now }
    ensures bound { IfSome result (λ value. value < radix ^ most) }
{
    if digits.is_empty() || digits.len() > most {
        return None;
    }
    let mut value: u64 = 0;
    for byte in digits {
        match char::from(*byte).to_digit(radix) {
            Some(digit) => value = value * radix as u64 + digit as u64,
            None => return None,
        }
    }
    Some(value)
}
