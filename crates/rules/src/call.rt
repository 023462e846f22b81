// What an offer, a heartbeat and a gap bring, and what becomes of an offer.
use crate::entry::What;

#[derive(Clone, Copy, PartialEq, Eq, Debug)]
pub struct Offer<T> {
    pub group: [u8; 16],
    pub writer: [u8; 16],
    pub reader: u8,
    pub number: i64,
    pub set: Option<i64>,
    pub digest: u32,
    pub what: What<T>,
    // nanoseconds
    pub time: u64,
}

// What becomes of an offer that is not refused.
#[derive(Clone, Copy, PartialEq, Eq, Debug)]
pub enum Fate {
    Stored,
    Joined,
    Late,
}

// The writer's range of group numbers, first to last, and its current one; 0 or less counts as 0.
#[derive(Clone, Copy, PartialEq, Eq, Debug)]
pub struct Heartbeat {
    pub group: [u8; 16],
    pub writer: [u8; 16],
    pub first: i64,
    pub last: i64,
    pub current: i64,
    pub digest: Option<u32>,
    pub secure: Option<u32>,
}

// The group numbers up to this one don't come to the reader; 0 or less counts as 0.
#[derive(Clone, Copy, PartialEq, Eq, Debug)]
pub struct Gap {
    pub group: [u8; 16],
    pub writer: [u8; 16],
    pub reader: u8,
    pub number: i64,
}
