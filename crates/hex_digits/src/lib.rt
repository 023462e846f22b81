// Bytes as text, two hex digits each, in lower case.
#![tactic(auto)]

pub mod text;

ghost use Rattle.std.specs.Prelude.{◌≡◌, true, ◌*◌, ◌<◌, length, Some};
ghost use Rattle.decimal.specs.Print.{put};
ghost use Rattle.hex_digits.specs.Hex.{digit_of, hex_of, value_of, unhex, unhex_to, are_digits, half};

use decimal::put_bytes;

// Puts the digits of bytes into out from `at` on, as far as out has room, and answers the place behind them.
pub fn put_hex(out: &mut [u8], at: usize, bytes: &[u8]) -> usize
    ensures { (result, out.new) ≡ put out.old at (hex_of bytes.now) }
{
    let mut next = at;
    let mut i: usize = 0;
    while i < bytes.len() {
        let b = bytes[i];
        let pair = [digit(b / 16), digit(b % 16)];
        next = put_bytes(out, next, &pair);
        i += 1;
    }
    next
}

// Fills bytes with what text spells, and answers whether it spells as many. Where it does not, bytes stay.
pub fn read_hex(text: &[u8], bytes: &mut [u8]) -> bool
    ensures { (result, bytes.new) ≡ unhex_to text.now bytes.old }
{
    if text.len() % 2 != 0 {
        return false;
    }
    if text.len() / 2 != bytes.len() {
        return false;
    }
    if !are_digits(text) {
        return false;
    }
    fill(text, bytes);
    true
}

// The digit of a value.
fn digit(n: u8) -> u8
    requires { n < 16 }
    ensures { result ≡ digit_of n }
{
    if n < 10 { b'0' + n } else { b'a' + (n - 10) }
}

// The value of a digit.
fn value(digit: u8) -> Option<u8>
    ensures { result ≡ value_of digit }
{
    match digit {
        b'0'..=b'9' => Some(digit - b'0'),
        b'a'..=b'f' => Some(digit - b'a' + 10),
        _ => None,
    }
}

// The value of a digit, 16 where it is none.
fn half(digit: u8) -> u8
    ensures { half result ≡ value_of digit }
{
    value(digit).unwrap_or(16)
}

fn are_digits(text: &[u8]) -> bool
    ensures { result ≡ are_digits text.now }
{
    let mut i: usize = 0;
    while i < text.len() {
        if 15 < half(text[i]) {
            return false;
        }
        i += 1;
    }
    true
}

// Fills bytes, from the last, with what the digits of text spell.
fn fill(text: &[u8], bytes: &mut [u8])
    requires text_len { length text.now ≡ 2 * length bytes.old }
    requires text_value { are_digits text.now ≡ true }
    ensures { unhex text.now ≡ Some bytes.new }
{
    let mut i = bytes.len();
    while 0 < i {
        i -= 1;
        bytes[i] = half(text[2 * i]) * 16 + half(text[2 * i + 1]);
    }
}
