// The entries of a number, and which readers they are for.
ghost use Rattle.std.specs.Prelude.{◌≡◌, eqb};
ghost use Rattle.laws.specs.Lists.{list_any};
ghost use Rattle.guids.specs.Guid.{same_guid};
ghost use Rattle.ready.specs.Places.{entries_at, passes_at, bit_of, bit_at_place, readers_of};

use guids::guid::same;
use rules::entry::Entry;

// The bit of a reader below 8; none of one above.
fn bit_of(reader: u8) -> u8
    ensures { result ≡ bit_of reader }
{
    1u8.checked_shl(u32::from(reader)).unwrap_or(0)
}

// The bit of the reader of the entry at that place; past the last there is none.
fn bit_at(pending: &[Entry<u32>], i: usize) -> u8
    ensures { result ≡ bit_at_place pending.now i }
{
    pending.get(i).map_or(0, |e| bit_of(e.reader))
}

// The entry at that place is of the writer. This test and the next stand by themselves: as closures in the walks' closures they did not prove.
fn is_of(pending: &[Entry<u32>], i: usize, writer: [u8; 16]) -> bool
    ensures { result ≡ passes_at (λ e. same_guid e.writer writer) pending.now i }
{
    pending.get(i).is_some_and(|e| same(e.writer, writer))
}

// The entry at that place is for the reader.
fn is_for(pending: &[Entry<u32>], i: usize, reader: u8) -> bool
    ensures { result ≡ passes_at (λ e. eqb reader e.reader) pending.now i }
{
    pending.get(i).is_some_and(|e| reader == e.reader)
}

// The entries are those of `pending` at the places; `readers` has the bits of their readers below 8.
#[derive(Clone, Copy)]
pub(crate) struct Heads<'a> {
    pub pending: &'a [Entry<u32>],
    pub places: &'a [usize],
    readers: u8,
    ghost marked: { readers ≡ readers_of (entries_at pending.now places.now) },
}

impl<'a> Heads<'a> {
    pub fn new(pending: &'a [Entry<u32>], places: &'a [usize]) -> Heads<'a>
        ensures { entries_at result.pending.now result.places.now ≡ entries_at pending.now places.now }
    {
        let readers = places
            .iter()
            .fold(0, |readers, &i| readers | bit_at(pending, i));
        Heads {
            pending,
            places,
            readers,
        }
    }

    // One of the entries is of the writer.
    pub fn has_writer(&self, writer: [u8; 16]) -> bool
        ensures { result ≡ list_any (λ e. same_guid e.writer writer) (entries_at self.now.pending.now self.now.places.now) }
    {
        self.places.iter().any(|&i| is_of(self.pending, i, writer))
    }

    // One of the entries is for the reader: of one above 7 the entries are asked.
    #[tactic(auto, using(crate::proofs::Readers::reader_marked))]
    pub fn has_reader(&self, reader: u8) -> bool
        ensures { result ≡ list_any (λ e. eqb reader e.reader) (entries_at self.now.pending.now self.now.places.now) }
    {
        if reader < 8 {
            return self.readers & bit_of(reader) != 0;
        }
        self.places.iter().any(|&i| is_for(self.pending, i, reader))
    }
}
