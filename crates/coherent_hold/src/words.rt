// The words of the lent list. An item takes five: the kind, the writer in two, the set mark, the item.
ghost use Rattle.std.specs.Prelude.{◌≡◌, ◌+◌, ◌*◌, ◌≤◌, length, map};
ghost use Rattle.std.proofs.Math.Seq.{paste};
ghost use Rattle.coherent_hold.specs.Gate.{kind_word, mark_word, mark_bits, words_of, written, kind_as, item_as, member_as};

use crate::items::{Change, Item, Kind, Member};
use guids::key::pack;

// The members become the first items of the list.
pub(crate) fn write_members(out: &mut [u64], members: &[Member])
    requires { length members.now * 5 ≤ length out.old }
    ensures { out.new ≡ written (map (λ m. member_as m) members.now) out.old }
{
    // by place: what goes through `chunks_exact_mut` is lost to the proof
    for (k, member) in members.iter().enumerate() {
        write_item(out, k, Item::from(*member));
    }
}

// The item becomes item k of the list.
pub(crate) fn write_item(out: &mut [u64], k: usize, item: Item)
    requires { k * 5 + 5 ≤ length out.old }
    ensures { out.new ≡ paste out.old (k * 5) (words_of (item_as item)) 5 }
{
    out[k * 5..k * 5 + 5].copy_from_slice(&words_of(item));
}

fn words_of(item: Item) -> [u64; 5]
    ensures { result ≡ words_of (item_as item) }
{
    let key = pack(item.writer);
    [
        tag_of(item.kind, item.set),
        key.hi,
        key.lo,
        bits_of_mark(item.set),
        item.item as u64,
    ]
}

fn tag_of(kind: Kind, set: Option<i64>) -> u64
    ensures { result ≡ kind_word (kind_as kind) + mark_word set }
{
    let mark = if set.is_some() { 2 } else { 0 };
    match kind {
        Kind::Change(Change::Lifecycle) => mark + 1,
        _ => mark,
    }
}

fn bits_of_mark(set: Option<i64>) -> u64
    ensures { result ≡ mark_bits set }
{
    set.map_or(0, i64::cast_unsigned)
}
