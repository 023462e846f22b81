// The standard traits at a `FixedList`.
ghost use Rattle.std.specs.Prelude.{⊤, ◌≡◌, ◌≤◌, [], length};
ghost use Rattle.std.specs.Cmp.{on_equiv, on_per};
ghost use Rattle.std.specs.Cmp.Lexicographic.{pointwise, lists_per, lists_equiv};
ghost use Rattle.fixed_list.specs.FixedList.{len_of};

use crate::list::{Blank, FixedList};
use std::alloc::AllocError;
use std::fmt;
use std::ops::DerefSlice;

// By hand, so that its clause says that a clone is the list.
impl<T: Blank, const N: usize> Clone for FixedList<T, N> {
    ghost is_clone = { λ v w. w ≡ v };

    ghost is_infallible = { λ _. ⊤ };

    fn clone(&self) -> Result<Self, AllocError> {
        Ok(*self)
    }
}

impl<T: Blank, const N: usize> Default for FixedList<T, N> {
    ghost is_default = { λ v. v.items ≡ [] };

    fn default() -> Self {
        Self::new()
    }
}

impl<T: Blank, const N: usize> From<[T; N]> for FixedList<T, N> {
    ghost from_gives = { λ items v. (v.items ≡ items) × (len_of v ≡ N) };

    fn from(items: [T; N]) -> Self {
        FixedList::full(items)
    }
}

impl<T: Blank, const N: usize> DerefSlice for FixedList<T, N> {
    type Elem = T;

    ghost deref_gives = { λ v items. (items ≡ v.items) × (length items ≤ N) };

    fn deref(&self) -> &[T] {
        FixedList::as_slice(self)
    }
}

// Two lists are compared by their items.
impl<T: Blank + PartialEq, const N: usize> PartialEq for FixedList<T, N> {
    ghost eq = { λ v w. pointwise T.eq v.items w.items };

    ghost laws = { on_per (λ v. v.items) (lists_per T.PartialEq.laws) };

    fn eq(&self, other: &Self) -> bool {
        self.as_slice() == other.as_slice()
    }
}

impl<T: Blank + Eq, const N: usize> Eq for FixedList<T, N> {
    ghost laws = { on_equiv (λ v. v.items) (lists_equiv T.Eq.laws) };
}

impl<T: Blank + fmt::Debug, const N: usize> fmt::Debug for FixedList<T, N> {
    fn fmt<W: fmt::Write>(&self, f: &mut fmt::Formatter<W>) -> fmt::Result {
        f.debug_list().entries(self.as_slice()).finish()
    }
}
