// Decimal numbers, read from text and printed.
#![tactic(auto)]

pub mod text;

ghost use Rattle.std.specs.Prelude.{◌≡◌, ◌+◌, ◌-◌, ◌*◌, ◌^◌, ◌≤◌, drop, Some};
ghost use Rattle.decimal.specs.Read.{plain, at_most, plus, minus, read_unsigned, read_signed, unsigned_len, signed_len, unsigned_front, signed_front};
ghost use Rattle.decimal.specs.Print.{digits_of, signed_digits, put};

use itoa::Buffer;

// The number that all of s spells: digits, with no zero before others.
pub fn read_unsigned(s: &[u8]) -> Option<u64>
    ensures { result ≡ read_unsigned s.now }
{
    let (number, behind) = split_unsigned(s);
    if behind.is_empty() { number } else { None }
}

// The same, with a minus sign in front where the number is negative.
pub fn read_signed(s: &[u8]) -> Option<i64>
    ensures { result ≡ read_signed s.now }
{
    let (number, behind) = split_signed(s);
    if behind.is_empty() { number } else { None }
}

// The number that the digits at s's front spell, with no zero before others, and what stands behind them.
pub fn split_unsigned(s: &[u8]) -> (Option<u64>, &[u8])
    ensures number { result.0 ≡ read_unsigned (unsigned_front s.now) }
    ensures behind { result.1.now ≡ drop (unsigned_len s.now) s.now }
{
    let mut number = 0;
    for (i, byte) in s.iter().enumerate() {
        if !byte.is_ascii_digit() {
            return (is_plain(&s[..i]).then_some(number), &s[i..]);
        }
        match with_digit(number, byte - b'0') {
            Some(n) => number = n,
            None => return (None, behind_digits(&s[i..])),
        }
    }
    (is_plain(s).then_some(number), &s[s.len()..])
}

// The same, with a minus sign in front or without.
pub fn split_signed(s: &[u8]) -> (Option<i64>, &[u8])
    ensures number { result.0 ≡ read_signed (signed_front s.now) }
    ensures behind { result.1.now ≡ drop (signed_len s.now) s.now }
{
    if !s.is_empty() && s[0] == b'-' {
        let (size, behind) = split_unsigned(&s[1..]);
        (size.and_then(negative), behind)
    } else {
        let (size, behind) = split_unsigned(s);
        (size.and_then(positive), behind)
    }
}

fn positive(size: u64) -> Option<i64>
    ensures { result ≡ plus (at_most (2 ^ 63 - 1) (Some size)) }
{
    i64::try_from(size).ok()
}

fn negative(size: u64) -> Option<i64>
    ensures { result ≡ minus (at_most (2 ^ 63) (Some size)) }
{
    0i64.checked_sub_unsigned(size)
}

// What stands behind the digits at s's front.
#[cold]
fn behind_digits(s: &[u8]) -> &[u8]
    ensures { result.now ≡ drop (unsigned_len s.now) s.now }
{
    let mut behind = s;
    while let Some((first, rest)) = behind.split_first() {
        if !first.is_ascii_digit() {
            break;
        }
        behind = rest;
    }
    behind
}

// One digit, or several with no zero in front.
fn is_plain(digits: &[u8]) -> bool
    ensures { result ≡ plain digits.now }
{
    match digits {
        [] => false,
        [_] => true,
        [first, ..] => *first != b'0',
    }
}

// n with one digit more.
fn with_digit(n: u64, digit: u8) -> Option<u64>
    ensures { result ≡ at_most (2 ^ 64 - 1) (Some (n * 10 + digit)) }
{
    n.checked_mul(10)?.checked_add(u64::from(digit))
}

// Puts s into out from `at` on, as far as out has room, and answers the place behind it.
pub fn put_bytes(out: &mut [u8], at: usize, s: &[u8]) -> usize
    ensures { (result, out.new) ≡ put out.old at s.now }
{
    let mut next = at;
    let mut i: usize = 0;
    while i < s.len() {
        if out.len() <= next {
            return next; // no room for the rest
        }
        out[next] = s[i];
        next += 1;
        i += 1;
    }
    next
}

// Puts n's decimal digits.
pub fn put_unsigned(out: &mut [u8], at: usize, n: u64) -> usize
    ensures { (result, out.new) ≡ put out.old at (digits_of n) }
{
    if n < 10 {
        return put_bytes(out, at, &[b'0' + n as u8]);
    }
    let mut digits = Buffer::new();
    put_bytes(out, at, digits.format(n).as_bytes())
}

// Puts x's, with a minus sign in front where it is negative.
pub fn put_signed(out: &mut [u8], at: usize, x: i64) -> usize
    ensures { (result, out.new) ≡ put out.old at (signed_digits x) }
{
    if x < 0 {
        let next = put_bytes(out, at, b"-");
        return put_unsigned(out, next, x.unsigned_abs());
    }
    put_unsigned(out, at, x.unsigned_abs())
}
