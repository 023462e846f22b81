// The list: its items in the first places, blanks in the others.
ghost use Rattle.std.specs.Prelude.{◌≡◌, ◌+◌, ◌-◌, ◌<◌, ◌≤◌, ◌==◌, ◌↔◌, Bool, true, false, List, [], ◌∷◌, ◌++◌, length, take, insert, leb, slice_set, IsOk, OnOk, OnErr, IfErr};
ghost use Rattle.std.specs.List.{filter};
ghost use Rattle.fixed_list.specs.FixedList.{len_of};

use std::marker::Model;

// A type with a value for the free places. One value for all of them, so that two lists of the same items are the same in memory, and a
// copy is the list.
pub trait Blank: Copy {
    ghost blank: { Self };

    fn blank() -> Self
        ensures { result ≡ blank };
}

impl Blank for u8 {
    ghost blank = { 0 };

    fn blank() -> u8 {
        0
    }
}

impl Blank for usize {
    ghost blank = { 0 };

    fn blank() -> usize {
        0
    }
}

// Which items `retain` keeps. Not a closure, of which it would have to be asked that it may be called with any item.
pub trait Keep<T> {
    ghost keeps: { Self → T → Bool };

    fn keeps(&self, item: &T) -> bool
        ensures { result ≡ keeps self.now item.now };
}

// At most N items, in the value itself: it is copied whole.
pub struct FixedList<T: Blank, const N: usize> {
    places: [T; N],
    len: usize,
}

impl<T: Blank, const N: usize> Copy for FixedList<T, N> {}

impl<T: Blank, const N: usize> Model for FixedList<T, N> {
    ghost use Rattle.std.specs.Prelude.{◌≡◌, ◌≤◌, ◌-◌, ◌++◌, length, take, drop, replicate};
    ghost use Rattle.fixed_list.specs.FixedList.{FixedList as Items, fixed_list_code};
    ghost use Rattle.fixed_list.specs.Places.{places_back, len_back};

    ghost Value = { Items T };

    ghost coded = { fixed_list_code T.code };

    ghost view = { λ l. record { items = take l.len l.places } };

    ghost invariant = { λ l. (l.len ≤ N) × (length l.places ≡ N) × (drop l.len l.places ≡ replicate (N - l.len) T.blank) };

    ghost inverse = { λ v. record { places = v.items ++ replicate (N - length v.items) T.blank; len = length v.items } };

    ghost inverse_ok = { λ l h i. record {
      places = places_back l.places l.len N T.blank h.0 h.1 h.2 i;
      len = len_back l.places l.len N h.0 h.1 i;
    } };
}

impl<T: Blank, const N: usize> FixedList<T, N> {
    // No item.
    pub fn new() -> Self
        ensures { result.items ≡ [] }
    {
        FixedList {
            places: [T::blank(); N],
            len: 0,
        }
    }

    // No place free: these items.
    pub(crate) fn full(items: [T; N]) -> Self
        ensures items { result.items ≡ items }
        ensures len { len_of result ≡ N }
    {
        FixedList {
            places: items,
            len: N,
        }
    }

    // The number of items.
    pub const fn len(&self) -> usize
        ensures value { result ≡ len_of self.now }
        ensures fits { result ≤ N }
    {
        self.len
    }

    // Whether there is no item.
    pub const fn is_empty(&self) -> bool
        ensures { result ≡ (len_of self.now == 0) }
    {
        self.len == 0
    }

    // Whether no place is free.
    pub const fn is_full(&self) -> bool
        ensures value { result ≡ (len_of self.now == N) }
        ensures fits { len_of self.now ≤ N }
    {
        self.len == N
    }

    // How many places are free.
    pub const fn remaining_capacity(&self) -> usize
        ensures { result + len_of self.now ≡ N }
    {
        N - self.len
    }

    // The items, in order.
    pub fn as_slice(&self) -> &[T]
        ensures value { result.now ≡ self.now.items }
        ensures fits { length result.now ≤ N }
    {
        &self.places[..self.len]
    }

    // Puts an item behind the others; where no place is free the list stays as it is.
    pub fn push(&mut self, item: T)
        ensures items { len_of self.old < N → self.new.items ≡ self.old.items ++ item ∷ [] }
        ensures len { len_of self.old < N → len_of self.new ≡ len_of self.old + 1 }
        ensures full { len_of self.old ≡ N → self.new ≡ self.old }
    {
        let _ = self.try_push(item);
    }

    // Puts an item behind the others, or hands it back where no place is free.
    pub fn try_push(&mut self, item: T) -> Result<(), T>
        ensures variant { IsOk result ↔ (len_of self.old < N) }
        ensures ok { OnOk result (self.new.items ≡ self.old.items ++ item ∷ []) }
        ensures len { OnOk result (len_of self.new ≡ len_of self.old + 1) }
        ensures err { OnErr result (self.new ≡ self.old) }
        ensures full { OnErr result (len_of self.old ≡ N) }
        ensures item_returned { IfErr result (λ e. e ≡ item) }
    {
        let end = self.len;
        if N <= end {
            return Err(item);
        }
        self.places[end] = item;
        self.len = end + 1;
        Ok(())
    }

    // Puts all behind the others, or none where they have no place: whether they had.
    pub fn extend_from_slice(&mut self, items: &[T]) -> bool
        ensures fits { result ≡ leb (len_of self.old + length items.now) N }
        ensures put { result ≡ true → self.new.items ≡ self.old.items ++ items.now }
        ensures stays { result ≡ false → self.new ≡ self.old }
    {
        let len = self.len;
        let fits = items.len() <= N - len;
        if fits {
            let end = len + items.len();
            copy_to(&mut self.places[..end], len, items);
            self.len = end;
        }
        fits
    }

    // Puts an item at a place, past the end behind the others, and moves those from there on up; where no place is free the list stays.
    pub fn insert(&mut self, at: usize, item: T)
        ensures items { len_of self.old < N → self.new.items ≡ insert self.old.items at item }
        ensures len { len_of self.old < N → len_of self.new ≡ len_of self.old + 1 }
        ensures full { len_of self.old ≡ N → self.new ≡ self.old }
    {
        let len = self.len;
        if len < N {
            self.places[len] = item;
            last_to(&mut self.places[..len + 1], at);
            self.len = len + 1;
        }
    }

    // Another item at a place; past the end the list stays as it is.
    pub fn set(&mut self, at: usize, item: T)
        ensures items { self.new.items ≡ slice_set self.old.items at item }
        ensures len { len_of self.new ≡ len_of self.old }
    {
        if at < self.len {
            self.places[at] = item;
        }
    }

    // Keeps the first `len` items.
    pub fn truncate(&mut self, len: usize)
        ensures items { self.new.items ≡ take len self.old.items }
        ensures len { len_of self.new + (len_of self.old - len) ≡ len_of self.old }
    {
        let mut end = self.len;
        if len < end {
            while len < end {
                end -= 1;
                self.places[end] = T::blank();
            }
            self.len = len;
        }
    }

    // Keeps no item.
    pub fn clear(&mut self)
        ensures { self.new.items ≡ [] }
    {
        self.truncate(0);
    }

    // Keeps some items, in their order.
    pub fn retain<K: Keep<T>>(&mut self, kept: &K)
        ensures items { self.new.items ≡ filter (K.keeps kept.now) self.old.items }
        ensures bound { len_of self.new ≤ len_of self.old }
    {
        let len = self.len;
        let kept = to_front(&mut self.places[..len], kept);
        self.truncate(kept);
    }
}

// The items from a place on become those of another list.
fn copy_to<T: Copy>(items: &mut [T], at: usize, source: &[T])
    requires { at + length source.now ≡ length items.old }
    ensures items { items.new ≡ take at items.old ++ source.now }
{
    items[at..].copy_from_slice(source);
}

// The last item goes to a place, and those from there on one up; past the end nothing moves. Each is carried to the next place, since not
// every C library has `memmove`.
fn last_to<T: Copy>(items: &mut [T], at: usize)
    requires { 0 < length items.old }
    ensures items { (rest : List T) (x : T) → items.old ≡ rest ++ x ∷ [] → items.new ≡ insert rest at x }
    ensures len { length items.new ≡ length items.old }
{
    let mut carried = items[items.len() - 1];
    for i in at..items.len() {
        let next = items[i];
        items[i] = carried;
        carried = next;
    }
}

// The items kept moved to the front, in their order: how many they are.
fn to_front<T: Copy, K: Keep<T>>(items: &mut [T], test: &K) -> usize
    ensures items { take result items.new ≡ filter (K.keeps test.now) items.old }
    ensures bound { result ≤ length items.old }
    ensures len { length items.new ≡ length items.old }
{
    let mut kept = 0;
    for i in 0..items.len() {
        let item = items[i];
        if test.keeps(&item) {
            items[kept] = item;
            kept += 1;
        }
    }
    kept
}
