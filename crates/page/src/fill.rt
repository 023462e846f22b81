// The page: one walk over the stored entries.
ghost use Rattle.std.specs.Prelude.{◌≡◌, ◌+◌, ◌*◌, ◌≤◌, [], ◌∷◌, length, drop, slice_get};
ghost use Rattle.std.specs.Option.{option_flatten};
ghost use Rattle.refusals.specs.Refusal.{answer_as};
ghost use Rattle.laws.specs.Lists.{index_of};
ghost use Rattle.rules.specs.State.{is_group};
ghost use Rattle.rules.specs.Page.{row_of, start_rows, page_of};
ghost use Rattle.store.specs.Store.{state_of};
ghost use Rattle.page.specs.Rows.{rows_as, Few, ReadRows, ReadCount};
ghost use Rattle.page.specs.Words.{listed, page_to};

use crate::row::{Row, words_of};
use refusals::Refusal;
use rules::entry::Entry;
use store::Store;

// Eight rows for each of eight groups, in the order of the GUIDs, readers ascending.
type Page = [Option<Row>; 64];

// Eight rows without samples for each known group, and absent ones behind.
fn start_page(store: &Store) -> Page
    ensures { rows_as result ≡ start_rows 8 (state_of store.now).groups }
{
    let mut page = [None; 64];
    page[..8 * store.groups.len()].fill(Some(Row::default()));
    page
}

// The group's place among the known ones; that behind the last for an unknown group.
fn place_of(store: &Store, group: [u8; 16]) -> usize
    ensures place { result ≡ index_of (λ g. is_group group g) store.now.groups.items }
    ensures within { result ≤ 8 }
{
    let known = store.groups.iter().position(|g| g.is(group));
    known.unwrap_or(store.groups.len())
}

// The place of the row of the entry's group and reader. An unknown group's rows lie behind those of the known ones.
#[tactic(auto, unfolding(rules::specs::Page::row_of))]
fn row_of(store: &Store, e: &Entry<u32>) -> usize
    ensures { result ≡ row_of (state_of store.now).groups e.now }
{
    let reader = e.reader;
    8 * place_of(store, e.group) + usize::from(reader)
}

// The row at that place; none if it is absent, or past the last.
fn row_at(page: &Page, k: usize) -> Option<Row>
    ensures { result ≡ option_flatten (slice_get page.now k) }
{
    page.get(k).copied().flatten()
}

// A sample is counted in its row, an end nowhere.
fn read_entry(page: &mut Page, store: &Store, e: &Entry<u32>, pending: bool)
    requires { Few 512 (rows_as page.old) }
    ensures { ReadRows pending (state_of store.now).groups (e.now ∷ []) page.old page.new }
{
    if e.is_sample() {
        let k = row_of(store, e);
        if let Some(row) = row_at(page, k) {
            page[k] = Some(row.counted(pending, e.time));
        }
    }
}

// Answers how many entries it read.
fn read_all(page: &mut Page, store: &Store, entries: &[Entry<u32>], pending: bool) -> usize
    requires few { Few 256 (rows_as page.old) }
    requires count { length entries.now ≤ 256 }
    ensures rows { ReadRows pending (state_of store.now).groups entries.now page.old page.new }
    ensures read { ReadCount pending (state_of store.now).groups entries.now result }
    ensures few { result ≤ 256 }
{
    let mut read = 0;
    for e in entries {
        read_entry(page, store, e, pending);
        read += 1;
    }
    read
}

// The pending entries are read, then the held ones: the rows, and how many entries were read.
fn page_of(store: &Store) -> (Page, usize)
    ensures rows { rows_as result.0 ≡ (page_of (state_of store.now)).rows }
    ensures read { result.1 ≡ (page_of (state_of store.now)).read }
{
    let mut page = start_page(store);
    let pending = read_all(&mut page, store, &store.pending, true);
    let held = read_all(&mut page, store, &store.sets.held, false);
    (page, pending + held)
}

// The rows' words stand at the list's beginning.
fn write(page: &[Option<Row>], list: &mut [u64])
    requires { 4 * length page.now ≤ length list.old }
    ensures { list.new ≡ listed (rows_as page.now) (drop (4 * length page.now) list.old) }
{
    // by place: what goes through `chunks_exact_mut` is lost to the proof
    for (k, row) in page.iter().enumerate() {
        list[4 * k..4 * k + 4].copy_from_slice(&words_of(*row));
    }
}

// Fills the first 64 rows of four words (specs/Words.antt): for each group, in the order of the GUIDs, and each of its eight
// readers the samples pending, those held in sets, and their oldest offer time in nanoseconds. Answers the number of entries read.
pub fn fill_page(store: &Store, rows: &mut [u64]) -> Result<usize, Refusal>
    ensures { (answer_as result, rows.new) ≡ page_to (state_of store.now) rows.old }
{
    let short = rows.len() < 256;
    if short {
        return Err(Refusal::ListTooShort);
    }
    let (page, read) = page_of(store);
    write(&page, rows);
    Ok(read)
}
