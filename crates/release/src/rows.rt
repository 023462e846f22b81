// The counted rows of a group.
ghost use Rattle.std.specs.Prelude.{◌≡◌, ◌≤◌, true, length};
ghost use Rattle.laws.specs.Lists.{filter, list_all, list_any};
ghost use Rattle.guids.specs.Guid.{same_guid};
ghost use Rattle.release.specs.Rows.{SameRows, same_row};

use arrayvec::ArrayVec;
use guids::guid::same;
use rules::view::Pair;

#[tactic(auto, unfolding(crate::specs::Rows::same_row))]
fn is_same_row(a: &Pair, b: &Pair) -> bool
    ensures { result ≡ same_row a.now b.now }
{
    a.reader == b.reader && same(a.writer, b.writer) && same(a.group, b.group)
}

// The first two are the same, as where one row is given over and over.
pub(crate) fn begin_twice(rows: &[Pair]) -> bool {
    match rows {
        [a, b, ..] => is_same_row(a, b),
        _ => false,
    }
}

// All are the group's.
pub(crate) fn are_of(rows: &[Pair], group: [u8; 16]) -> bool
    ensures { result ≡ list_all (λ p. same_guid group p.group) rows.now }
{
    rows.iter().all(|p| same(group, p.group))
}

// The last one is the same.
fn ends_with(rows: &[Pair], p: &Pair) -> bool
    ensures { result ≡ true → list_any (λ r. same_row r p.now) rows.now ≡ true }
{
    rows.last().is_some_and(|r| is_same_row(r, p))
}

// Each once of those that stand one behind the other, so that a row given over and over costs nothing where each row is asked, and gathering
// the rows no more than a walk.
pub(crate) fn rows_of(counted: &[Pair], group: [u8; 16]) -> ArrayVec<Pair, 256>
    requires { length counted.now ≤ 256 }
    ensures { SameRows (filter (λ p. same_guid group p.group) counted.now) result.items }
{
    let mut rows = ArrayVec::new();
    for p in counted {
        if same(group, p.group) && !ends_with(rows.as_slice(), p) {
            rows.push(*p);
        }
    }
    rows
}
