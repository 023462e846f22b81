// Text put behind what a list holds already, as far as the list has room: what doesn't fit is left out, and nothing fails.
ghost use Rattle.std.specs.Prelude.{◌≡◌, [], ◌∷◌, ◌++◌, take};
ghost use Rattle.decimal.specs.Print.{digits_of, signed_digits};

use arrayvec::ArrayVec;
use itoa::Buffer;

pub fn put_bytes<const N: usize>(out: &mut ArrayVec<u8, N>, s: &[u8])
    ensures { out.new.items ≡ take N (out.old.items ++ s.now) }
{
    let fitting = s.len().min(out.remaining_capacity());
    let _ = out.try_extend_from_slice(&s[..fitting]);
}

pub fn put_byte<const N: usize>(out: &mut ArrayVec<u8, N>, byte: u8)
    ensures { out.new.items ≡ take N (out.old.items ++ byte ∷ []) }
{
    let _ = out.try_push(byte);
}

// n's decimal digits.
pub fn put_unsigned<const N: usize>(out: &mut ArrayVec<u8, N>, n: u64)
    ensures { out.new.items ≡ take N (out.old.items ++ digits_of n) }
{
    if n < 10 {
        return put_byte(out, b'0' + n as u8); // most are one digit: readers, counts
    }
    let mut digits = Buffer::new();
    put_bytes(out, digits.format(n).as_bytes());
}

// x's, with a minus sign in front where it is negative.
pub fn put_signed<const N: usize>(out: &mut ArrayVec<u8, N>, x: i64)
    ensures { out.new.items ≡ take N (out.old.items ++ signed_digits x) }
{
    let mut digits = Buffer::new();
    put_bytes(out, digits.format(x).as_bytes());
}
