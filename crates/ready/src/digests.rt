// Which digests of writers are accepted.
ghost use Rattle.std.specs.Prelude.{◌≡◌, ◌&&◌, eqb, drop};
ghost use Rattle.laws.specs.Lists.{list_all, list_any};
ghost use Rattle.guids.specs.Guid.{same_guid};
ghost use Rattle.rules.specs.Commit.{accepted, secure_accepted, digests_accepted};
ghost use Rattle.rules.specs.GroupTurn.{turn_as};

use guids::guid::same;
use rules::turn::GroupTurn;

// The last four bytes are zero.
fn ends_in_zeros(guid: [u8; 16]) -> bool
    ensures { result ≡ list_all (λ b. eqb b 0) (drop 12 guid) }
{
    guid.iter().skip(12).all(|b| *b == 0)
}

// A digest row of the group has the digest.
fn has_digest(turn: &GroupTurn<'_>, digest: u32) -> bool
    ensures { result ≡ list_any (λ x. same_guid turn.now.group.guid x.group && eqb x.digest digest) turn.now.digests.now }
{
    let guid = turn.group.guid;
    turn.digests
        .iter()
        .any(|row| same(guid, row.group) && row.digest == digest)
}

// The group's last four GUID bytes are zero, or a digest row of the group has the digest.
#[tactic(auto, unfolding(rules::specs::Commit::accepted))]
fn is_accepted(turn: &GroupTurn<'_>, digest: Option<u32>) -> bool
    ensures { result ≡ accepted turn.now.group.guid turn.now.digests.now digest }
{
    match digest {
        Some(digest) => ends_in_zeros(turn.group.guid) || has_digest(turn, digest),
        None => true,
    }
}

// A secure digest is accepted if it is 0.
#[tactic(auto, unfolding(rules::specs::Commit::secure_accepted))]
fn is_secure_accepted(digest: Option<u32>) -> bool
    ensures { result ≡ secure_accepted digest }
{
    digest.is_none_or(|d| d == 0)
}

// Every digest present at a known writer of the group is accepted.
#[tactic(auto, unfolding(rules::specs::Commit::digests_accepted))]
pub(crate) fn digests_accepted(turn: &GroupTurn<'_>) -> bool
    ensures { result ≡ digests_accepted (turn_as turn.now) }
{
    let guid = turn.group.guid;
    turn.writers.iter().all(|w| !same(guid, w.group)
        || (is_accepted(turn, w.digest) && is_secure_accepted(w.secure)))
}
