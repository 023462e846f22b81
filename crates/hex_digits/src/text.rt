// Bytes as text, two hex digits each, in lower case. The kit's crate `hex` reads digits of upper case too, which are bad here.
ghost use Rattle.std.specs.Prelude.{◌≡◌, ◌++◌, take, option_map};
ghost use Rattle.hex_digits.specs.Hex.{hex_of, unhex, within};

use crate::{digit, value};
use arrayvec::ArrayVec;
use decimal::text::put_bytes;

// Puts the digits of bytes behind what out holds, as far as it has room.
pub fn put_hex<const N: usize>(out: &mut ArrayVec<u8, N>, bytes: &[u8])
    ensures { out.new.items ≡ take N (out.old.items ++ hex_of bytes.now) }
{
    if out.is_full() {
        return;
    }
    for byte in bytes {
        put_bytes(out, &[digit(byte / 16), digit(byte % 16)]);
    }
}

// The bytes that text spells; none where a byte is no digit, a digit stands alone, or there are more than N bytes.
pub fn read_hex<const N: usize>(text: &[u8]) -> Option<ArrayVec<u8, N>>
    ensures { option_map (λ v. v.items) result ≡ within N (unhex text.now) }
{
    let mut bytes = ArrayVec::new();
    let mut rest = text;
    while let [high, low, behind @ ..] = rest {
        let byte = value(*high)? * 16 + value(*low)?;
        if bytes.is_full() {
            return None;
        }
        bytes.push(byte);
        rest = behind;
    }
    if rest.is_empty() { Some(bytes) } else { None }
}
