// What was read of an input and not yet taken.
ghost use Rattle.std.specs.Prelude.{◌≡◌, ◌≤◌, ◌+◌, false, length, take};

use memchr::memchr;
use std::io::Read;

// The bytes of the chunk from `at` to `count`. It is an array, since an `ArrayVec` lends no room to read into.
#[derive(Drop)]
pub(crate) struct Ahead {
    chunk: [u8; 65536],
    at: usize,
    count: usize,
    ghost ordered: { at ≤ count },
    ghost within: { count ≤ 65536 },
}

impl Ahead {
    ghost use Rattle.std.specs.Io.KnownBytes.{Consumes};
    ghost use Rattle.line_input.specs.Input.{IsUnread, IsEnd, left};

    pub(crate) fn new() -> Self
        ensures { IsUnread result }
    {
        Ahead {
            chunk: [0; 65536],
            at: 0,
            count: 0,
        }
    }

    pub(crate) fn left(&self) -> &[u8]
        ensures { result.now ≡ left self.now }
    {
        &self.chunk[self.at..self.count]
    }

    // Where the newline of the line that is left stands, if it was read.
    pub(crate) fn line_end(&self) -> Option<usize>
        ensures { IsEnd (left self.now) result }
    {
        memchr(b'\n', self.left())
    }

    // Takes the next n bytes.
    pub(crate) fn take(&mut self, n: usize)
        requires { n ≤ length (left self.old) }
        ensures chunk { self.new.chunk ≡ self.old.chunk }
        ensures at { self.new.at ≡ self.old.at + n }
        ensures count { self.new.count ≡ self.old.count }
    {
        self.at += n;
    }

    // Takes all that is left.
    pub(crate) fn clear(&mut self)
        ensures { IsUnread self.new }
    {
        self.at = 0;
        self.count = 0;
    }

    // Reads once where nothing is left, and answers whether a byte came: none does at the input's end, or where the read fails.
    pub(crate) fn fill<R: Read>(&mut self, reader: &mut R) -> bool
        ensures all { left self.new ≡ take self.new.count self.new.chunk }
        ensures end { result ≡ false → IsUnread self.new }
        ensures bytes { Consumes (R.remaining reader.old) (R.remaining reader.new) (left self.new) }
    {
        self.clear();
        self.count = reader.read(&mut self.chunk).unwrap_or(0);
        self.count != 0
    }
}
