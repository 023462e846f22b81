// What a line prints, put behind what a text holds already.
ghost use Rattle.std.specs.Prelude.{◌∷◌, ◌++◌};
ghost use Rattle.decimal.specs.Print.{digits_of};
ghost use Rattle.refusals.specs.Refusal.{answer_as, number_of};
ghost use Rattle.calls.specs.Run.{refused_text, counts_text, offer_text, done_text};
ghost use Rattle.calls.specs.Said.{Said, place_text, places_text};

use arrayvec::ArrayVec;
use decimal::text::{put_byte, put_bytes, put_unsigned};
use refusals::Refusal;
use rules::call::Fate;
use rules::state::ReleaseCounts;

// A space and the number.
fn put_spaced<const N: usize>(text: &mut ArrayVec<u8, N>, n: u64)
    ensures { Said N (32 ∷ digits_of n) text.old.items text.new.items }
{
    put_byte(text, b' ');
    put_unsigned(text, n);
}

pub fn put_refusal<const N: usize>(text: &mut ArrayVec<u8, N>, refusal: Refusal)
    ensures { Said N (refused_text (number_of refusal)) text.old.items text.new.items }
{
    put_bytes(text, b"refused");
    put_spaced(text, refusal.number());
}

pub fn put_offered<const N: usize>(text: &mut ArrayVec<u8, N>, answer: Result<Fate, Refusal>)
    ensures { Said N (offer_text (answer_as answer)) text.old.items text.new.items }
{
    match answer {
        Ok(Fate::Stored) => put_bytes(text, b"stored"),
        Ok(Fate::Joined) => put_bytes(text, b"joined"),
        Ok(Fate::Late) => put_bytes(text, b"late"),
        Err(refusal) => put_refusal(text, refusal),
    }
}

pub fn put_done<const N: usize>(text: &mut ArrayVec<u8, N>, answer: Result<(), Refusal>)
    ensures { Said N (done_text (answer_as answer)) text.old.items text.new.items }
{
    match answer {
        Ok(()) => put_bytes(text, b"ok"),
        Err(refusal) => put_refusal(text, refusal),
    }
}

pub fn put_counts<const N: usize>(text: &mut ArrayVec<u8, N>, counts: ReleaseCounts)
    ensures { Said N (counts_text counts) text.old.items text.new.items }
{
    put_bytes(text, b" |");
    put_spaced(text, counts.skipped_after_timeout);
    put_spaced(text, counts.incomplete_sets);
    put_spaced(text, counts.discarded_samples);
    put_spaced(text, counts.late_samples);
}

// The sample of a place, reader · 2^32 + item.
fn put_sample<const N: usize>(text: &mut ArrayVec<u8, N>, place: u64)
    ensures { Said N (place_text place) text.old.items text.new.items }
{
    put_spaced(text, place / 4294967296);
    put_byte(text, b':');
    put_unsigned(text, place % 4294967296);
}

// `out`, and the samples of the places.
fn put_samples<const N: usize>(text: &mut ArrayVec<u8, N>, places: &[u64])
    ensures { Said N (111 ∷ 117 ∷ 116 ∷ places_text places.now) text.old.items text.new.items }
{
    put_bytes(text, b"out");
    for place in places {
        put_sample(text, *place);
    }
}

// The answer of a release: the places written, and the counts.
pub fn put_released<const N: usize>(
    text: &mut ArrayVec<u8, N>,
    places: &[u64],
    counts: ReleaseCounts,
)
    ensures { Said N (111 ∷ 117 ∷ 116 ∷ places_text places.now ++ counts_text counts) text.old.items text.new.items }
{
    put_samples(text, places);
    put_counts(text, counts);
}
