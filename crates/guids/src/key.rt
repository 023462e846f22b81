// A GUID as two words, big-endian.
ghost use Rattle.std.specs.Prelude.{◌≡◌};
ghost use Rattle.guids.specs.Keys.{key_as};

#[derive(Clone, Copy, PartialEq, Eq, Debug)]
pub struct Key {
    pub hi: u64,
    pub lo: u64,
}

pub fn pack(g: [u8; 16]) -> Key
    ensures { key_as result ≡ g }
{
    let [a, b, c, d, e, f, g, h, i, j, k, l, m, n, o, p] = g;
    Key {
        hi: u64::from_be_bytes([a, b, c, d, e, f, g, h]),
        lo: u64::from_be_bytes([i, j, k, l, m, n, o, p]),
    }
}

pub fn unpack(k: Key) -> [u8; 16]
    ensures { result ≡ key_as k }
{
    let [a, b, c, d, e, f, g, h] = k.hi.to_be_bytes();
    let [i, j, k, l, m, n, o, p] = k.lo.to_be_bytes();
    [a, b, c, d, e, f, g, h, i, j, k, l, m, n, o, p]
}
