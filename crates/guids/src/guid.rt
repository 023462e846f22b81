// GUIDs: sixteen bytes, and their one order.
ghost use Rattle.std.specs.Prelude.{◌≡◌};
ghost use Rattle.guids.specs.Guid.{compare_guid, same_guid, before};

use std::cmp::Ordering;

// Byte by byte from the first, which is the order of the numbers that they make.
pub fn compare(a: [u8; 16], b: [u8; 16]) -> Ordering
    ensures { result ≡ compare_guid a b }
{
    u128::from_be_bytes(a).cmp(&u128::from_be_bytes(b))
}

// As one number of 128 bits, which is faster than byte by byte, as `==` compares.
pub fn same(a: [u8; 16], b: [u8; 16]) -> bool
    ensures { result ≡ same_guid a b }
{
    u128::from_be_bytes(a) == u128::from_be_bytes(b)
}

#[tactic(auto, unfolding(crate::specs::Guid::before))]
pub fn before(a: [u8; 16], b: [u8; 16]) -> bool
    ensures { result ≡ before a b }
{
    compare(a, b).is_lt()
}
