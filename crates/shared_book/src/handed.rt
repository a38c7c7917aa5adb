//! What lies in the slot of a group.

ghost use Rattle.std.specs.Prelude.{◌≡◌, ◌<◌, ◌≤◌, ◌+◌, [], false, Some, length, vec_len, vec_capacity, slice_index_or, All, is_some, IsTrue, ℕ};
ghost use Rattle.std.specs.Mem.Slots.{slots_items, slots_filled, slots_len, IsFull};
ghost use Rattle.shared_book.specs.Slots.{pages_in, HavePages, AreNew};

use atomic_table::Closed;
use group_book::GroupPages;
use std::alloc::Global;
use std::snapshot::Snapshot;
use transcript_log::Lines;

/// The pages of a group, and the lines that were handed back with them: those of a list from a place on. Where a pass has handed them
/// back, they have the number of the last one that did.
#[derive(Drop)]
pub struct Handed {
    pub pages: GroupPages,
    pub lines: Snapshot<Lines>,
    pub from: usize,
    pub last: Option<u32>,
}

/// The pages in a slot that has some.
fn pages_in(slot: Option<Handed>) -> GroupPages
    requires { IsTrue (is_some slot) }
    ensures { pages_in slot ≡ Some result }
{
    let Some(handed) = slot else { unreachable!() };
    let Handed { pages, .. } = handed;
    pages
}

/// Puts the pages of groups into slots, with no line.
pub(crate) fn put_in(groups: Vec<GroupPages>, slots: &mut Vec<Option<Handed>>, none: &Lines)
    requires empty { (slots.old.items ≡ []) × (vec_len slots.old ≡ 0) }
    requires room { length groups.items ≤ vec_capacity slots.old }
    ensures pages { HavePages slots.new.items groups.items }
    ensures new { AreNew slots.new.items }
{
    for pages in groups {
        slots.push_reserved(Some(Handed {
            pages,
            lines: Snapshot::of(none),
            from: 0,
            last: None,
        }));
    }
}

/// Takes the pages of groups out of slots.
pub(crate) fn take_out(slots: Vec<Option<Handed>>, groups: &mut Vec<GroupPages>)
    requires full { All (λ slot. IsTrue (is_some slot)) slots.items }
    requires empty { (groups.old.items ≡ []) × (vec_len groups.old ≡ 0) }
    requires room { length slots.items ≤ vec_capacity groups.old }
    ensures { HavePages slots.items groups.new.items }
{
    for slot in slots {
        groups.push_reserved(pages_in(slot));
    }
}

/// Takes the pages of all groups out of a table that no thread shares any more.
pub(crate) fn take_all(closed: &mut Closed<Option<Handed>, Global>, groups: &mut Vec<GroupPages>)
    requires full { IsFull closed.old.slots }
    requires some { All (λ slot. IsTrue (is_some slot)) (slots_items closed.old.slots) }
    requires empty { (groups.old.items ≡ []) × (vec_len groups.old ≡ 0) }
    requires room { slots_len closed.old.slots ≤ vec_capacity groups.old }
    ensures pages { HavePages (slots_items closed.old.slots) groups.new.items }
    ensures taken { (k : ℕ) → k < slots_len closed.new.slots → slice_index_or (slots_filled closed.new.slots) k false ≡ false }
{
    let mut slot = 0;
    while slot < closed.slot_count() {
        let handed = closed.take(slot);
        groups.push_reserved(pages_in(handed));
        slot += 1;
    }
}
