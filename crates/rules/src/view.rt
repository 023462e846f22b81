// The rows of a release.

// A counted row: a writer of a group and a reader that it is matched with.
#[derive(Clone, Copy, PartialEq, Eq, Debug, Default)]
pub struct Pair {
    pub group: [u8; 16],
    pub writer: [u8; 16],
    pub reader: u8,
}

// The digest of a group's discovered writers.
#[derive(Clone, Copy, PartialEq, Eq, Debug, Default)]
pub struct DigestRow {
    pub group: [u8; 16],
    pub digest: u32,
}
