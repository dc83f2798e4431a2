// Hexadecimal lines: a line's bytes to a frame, an answer to its line.
#![tactic(auto)]

ghost use Rattle.std.specs.Prelude.{◌≡◌, ◌+◌, ◌*◌, ◌≤◌, ◌<◌, leb, length, take, if◌then◌else◌};
ghost use Rattle.std.specs.Float.{binary64};
ghost use Rattle.std.specs.Float.Ieee.{of_bits, to_bits};
ghost use Rattle.hexlines.specs.Hex.{is_digit, digit_value, all_digits, value, float, digit, digits, answer_line};
ghost use Rattle.hexlines.specs.Frames.{frame_of};

use hexlines::Frame;

// Bit patterns.
const SIGN: u64 = 0x8000000000000000;

const INFINITY: u64 = 0x7FF0000000000000;

const NOT_A_NUMBER: u64 = 0x7FF8000000000000;

// A line's length: two digits of kind, and 16 for each float.
const TWO_FLOATS: usize = 2 + 16 * 2;

const THREE_FLOATS: usize = 2 + 16 * 3;

#[tactic(auto, unfolding(hexlines::specs::Hex::is_digit, hexlines::specs::Hex::between))]
pub fn is_digit(b: u8) -> bool
    ensures { result ≡ is_digit b }
{
    matches!(b, b'0'..=b'9' | b'A'..=b'F')
}

#[tactic(auto, unfolding(hexlines::specs::Hex::digit_value, hexlines::specs::Hex::between))]
pub fn digit_value(b: u8) -> u64
    ensures { result ≡ digit_value b }
{
    match b {
        b'0'..=b'9' => u64::from(b - b'0'),
        b'A'..=b'F' => 10 + u64::from(b - b'A'),
        _ => 0,
    }
}

#[tactic(auto, unfolding(hexlines::specs::Hex::all_digits))]
fn all_digits(s: &[u8]) -> bool
    ensures { result ≡ all_digits s.now }
{
    s.iter().all(|b| is_digit(*b))
}

// The number that at most 16 digits write.
#[tactic(auto, unfolding(hexlines::specs::Hex::value_after), using(hexlines::proofs::Digits::value_more, hexlines::proofs::Digits::value_fits))]
fn number_of(digits: &[u8]) -> u64
    requires { length digits.now ≤ 16 }
    ensures { result ≡ value digits.now }
{
    let mut number: u64 = 0;
    for b in digits {
        number = 16 * number + digit_value(*b);
    }
    number
}

// The number that the first 16 digits of a text write; none of a shorter one.
pub fn word_of(text: &[u8]) -> Option<u64>
    ensures { result ≡ (if leb 16 (length text.now) then Some (value (take 16 text.now)) else None) }
{
    text.get(..16).map(number_of)
}

// The float of a bit pattern: with the sign off, a pattern above infinity's is a not-a-number's.
#[tactic(auto, using(hexlines::proofs::Patterns::above_is_nan, hexlines::proofs::Patterns::below_no_nan))]
pub fn float_of(bits: u64) -> f64
    ensures { result ≡ of_bits binary64 bits }
{
    if bits % SIGN > INFINITY {
        f64::NAN
    } else {
        f64::from_bits(bits)
    }
}

// A float's bit pattern, the same one for every not-a-number.
#[tactic(auto, using(hexlines::proofs::Patterns::nan_pattern))]
pub fn bits_of(x: f64) -> u64
    ensures { result ≡ to_bits binary64 x }
{
    if x.is_nan() {
        NOT_A_NUMBER
    } else {
        x.to_bits()
    }
}

// The float at place i of a line.
#[tactic(auto, unfolding(hexlines::specs::Hex::float))]
fn float_at(line: &[u8], i: usize) -> f64
    requires { 2 + 16 * i + 16 ≤ length line.now }
    ensures { result ≡ float i line.now }
{
    float_of(number_of(&line[2 + 16 * i..][..16]))
}

// The frame of a line's bytes, its line feed not among them.
#[tactic(auto, unfolding(hexlines::specs::Frames::frame_of, hexlines::specs::Frames::is_frame))]
pub fn frame_of(line: &[u8]) -> Option<Frame>
    ensures { result ≡ frame_of line.now }
{
    if line.len() < 2 || !all_digits(line) {
        return None;
    }
    match (number_of(&line[..2]), line.len()) {
        (0x10, TWO_FLOATS) => Some(Frame::Open {
            spot: float_at(line, 0),
            rate: float_at(line, 1),
        }),
        (0x11, THREE_FLOATS) => Some(Frame::Call {
            strike: float_at(line, 0),
            expiry: float_at(line, 1),
            price: float_at(line, 2),
        }),
        (0x12, THREE_FLOATS) => Some(Frame::Put {
            strike: float_at(line, 0),
            expiry: float_at(line, 1),
            price: float_at(line, 2),
        }),
        (0x13, THREE_FLOATS) => Some(Frame::Vol {
            strike: float_at(line, 0),
            expiry: float_at(line, 1),
            volatility: float_at(line, 2),
        }),
        (0x20, TWO_FLOATS) => Some(Frame::Read {
            strike: float_at(line, 0),
            expiry: float_at(line, 1),
        }),
        _ => None,
    }
}

#[tactic(auto, unfolding(hexlines::specs::Hex::digit))]
fn digit_of(d: u64) -> u8
    requires { d < 16 }
    ensures { result ≡ digit d }
{
    if d <= 9 {
        b'0' + d as u8
    } else {
        b'A' + (d - 10) as u8
    }
}

fn decimal_of(d: u64) -> u8
    requires { d < 10 }
    ensures { result ≡ 48 + d }
{
    b'0' + d as u8
}

// The 16 digits of a number, from the last, by an index: a loop over `iter_mut().rev()` would leave open what the digits become (tried in filler).
#[tactic(auto, unfolding(hexlines::specs::Hex::digits), using(hexlines::proofs::Writing::all_written))]
pub fn digits_of(n: u64) -> [u8; 16]
    ensures { result ≡ digits 16 n }
{
    let mut digits = [b'0'; 16];
    let mut rest = n;
    for i in (0..16).rev() {
        digits[i] = digit_of(rest % 16);
        rest /= 16;
    }
    digits
}

// The line of an answer: its number, 0 for done, and its value.
#[tactic(auto, unfolding(hexlines::specs::Hex::answer_line))]
pub fn answer_line(n: u64, x: f64) -> [u8; 19]
    ensures { result ≡ answer_line n x }
{
    let mut line = [b'\n'; 19];
    line[0] = decimal_of(n / 10 % 10);
    line[1] = decimal_of(n % 10);
    line[2..18].copy_from_slice(&digits_of(bits_of(x)));
    line
}
