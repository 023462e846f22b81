// What is read of a history without changing it.
#![tactic(auto)]

ghost use Rattle.std.specs.Prelude.{◌≡◌, ◌≤◌, ◌&&◌, eqb, length};
ghost use Rattle.laws.specs.Lists.{count, list_any};
ghost use Rattle.rules.specs.Run.{waiting, nothing_waits};
ghost use Rattle.rules.specs.Release.{samples};
ghost use Rattle.rules.specs.Entry.{is_sample};
ghost use Rattle.store.specs.Store.{state_of};

use rules::entry::Entry;
use store::Store;

// The samples of a reader among the entries.
#[tactic(auto, unfolding(laws::specs::Lists::count))]
fn samples_for(entries: &[Entry<u32>], reader: u8) -> usize
    ensures all { result ≡ count (λ e. is_sample e && eqb reader e.reader) entries.now }
    ensures few { result ≤ length entries.now }
{
    entries
        .iter()
        .filter(|e| e.is_sample() && reader == e.reader)
        .count()
}

// The samples among the entries. Beside `samples_for`, since one function that takes the test is no plainer.
#[tactic(auto, unfolding(laws::specs::Lists::count))]
fn samples_in(entries: &[Entry<u32>]) -> usize
    ensures all { result ≡ count (λ e. is_sample e) entries.now }
    ensures few { result ≤ length entries.now }
{
    entries.iter().filter(|e| e.is_sample()).count()
}

// One of the entries is a sample.
fn has_sample(entries: &[Entry<u32>]) -> bool
    ensures { result ≡ list_any (λ e. is_sample e) entries.now }
{
    entries.iter().any(|e| e.is_sample())
}

// The samples of a reader that are pending or held; 0 of a reader above 7.
#[tactic(auto, unfolding(rules::specs::Run::waiting))]
pub fn held_for(store: &Store, reader: u8) -> usize
    ensures { result ≡ waiting (state_of store.now) reader }
{
    if 7 < reader {
        return 0;
    }
    samples_for(&store.pending, reader) + samples_for(&store.sets.held, reader)
}

// No entry is pending and no member held.
#[tactic(auto, unfolding(rules::specs::Run::nothing_waits))]
pub fn is_empty(store: &Store) -> bool
    ensures { result ≡ nothing_waits (state_of store.now) }
{
    store.pending.is_empty() && !has_sample(&store.sets.held)
}

// The stored samples.
#[tactic(auto, unfolding(rules::specs::Release::samples))]
pub fn sample_count(store: &Store) -> usize
    ensures { result ≡ samples (state_of store.now) }
{
    samples_in(&store.pending) + samples_in(&store.sets.held)
}
