//! Pages that are taken out of the table and put back.

ghost use Rattle.std.specs.Prelude.{◌≡◌, ◌<◌, ◌∷◌, [], true, Some, None};
ghost use Rattle.shared_book.specs.declared.handed.Handed.{Handed as HandedView};
ghost use Rattle.shared_book.specs.Law.{Takes, IsOwn, NextIs, added};
ghost use Rattle.shared_book.specs.Rests.{Rests, PutsBack};
ghost use Rattle.shared_book.specs.Passes.{known, ChecksOut, ChecksIn, IsUnchanged};

use crate::handed::Handed;
use crate::law::{HandBack, Key, Law, TakeOut};
use crate::turn::View;
use atomic_table::{Seat, Shared};
use group_book::GroupPages;
use std::sync::Wait;
use std::sync::atomic::AtomicU64;
use std::time::Duration;

/// The word and the slot of each group.
pub type Shelf = Shared<Option<Handed>, View, Key, Law>;

/// The word of a group whose pages are at home.
const HOME: u64 = 0;

/// The word of a group whose pages are out with a pass.
const OUT: u64 = 1;

/// Slept by a pass that finds the pages out.
const NAP_MICROSECONDS: u64 = 50;

/// Sleeps for a while. Nobody wakes it.
fn nap<R: Wait>(rt: &R) {
    AtomicU64::new(0).park_timeout(rt, 0, Duration::from_micros(NAP_MICROSECONDS));
}

/// Waits until the pages of a group are at home, and takes their slot.
fn take_slot<R: Wait>(rt: &R, shelf: &Shelf, seat: &mut Seat<Option<Handed>, View>, group: usize)
    requires table { seat.old.table_id ≡ shelf.now.table_id }
    requires group { (group < shelf.now.table_id.words) × (group < shelf.now.table_id.slots) }
    requires rests { Rests seat.old.me × (seat.old.me.0.held ≡ None) }
    ensures seat { (seat.new.table_id ≡ seat.old.table_id) × (seat.new.id ≡ seat.old.id) }
    ensures taken { Takes seat.old.me group seat.new.me }
{
    'home: for _ in rt.forever() {
        let found = shelf.compare_exchange::<TakeOut>(seat, group, HOME, OUT);
        if found == HOME {
            return;
        }
        nap(rt);
    }
    unreachable!()
}

/// What lies in the slot that was taken.
fn handed_in(shelf: &Shelf, seat: &mut Seat<Option<Handed>, View>, group: usize) -> Handed
    requires table { seat.old.table_id ≡ shelf.now.table_id }
    requires slot { (h : HandedView) × (seat.old.me.1 ≡ (group, Some h) ∷ []) }
    ensures seat { (seat.new.table_id ≡ seat.old.table_id) × (seat.new.id ≡ seat.old.id) }
    ensures handed { (h : HandedView) → seat.old.me.1 ≡ (group, Some h) ∷ [] → (result ≡ h) × (seat.new.me ≡ (seat.old.me.0, (group, None) ∷ [])) }
{
    let Some(handed) = shelf.exchange(seat, group, None) else {
        unreachable!()
    };
    handed
}

/// Whether what was handed back last was so by the pass with this number, or by none.
fn is_own(last: Option<u32>, number: u32) -> bool
    ensures { result ≡ true → IsOwn number last }
{
    match last {
        Some(by) => by == number,
        None => true,
    }
}

/// Puts the pages of a group back into their slot, with their lines, and gives the slot back.
fn put_back(shelf: &Shelf, seat: &mut Seat<Option<Handed>, View>, group: usize, handed: Handed)
    requires table { seat.old.table_id ≡ shelf.now.table_id }
    requires group { (group < shelf.now.table_id.words) × (group < shelf.now.table_id.slots) }
    requires slot { (seat.old.me.1 ≡ (group, None) ∷ []) × (seat.old.me.0.held ≡ Some group) × (seat.old.me.0.live ≡ true) }
    requires next { NextIs seat.old.me.0 group handed }
    ensures seat { (seat.new.table_id ≡ seat.old.table_id) × (seat.new.id ≡ seat.old.id) }
    ensures given { PutsBack seat.old.me.0 group (added handed) seat.new.me }
{
    shelf.exchange(seat, group, Some(handed));
    shelf.store::<HandBack>(seat, group, HOME);
}

/// Waits until the pages of a group are at home, and takes them out. Says whether no other pass than that with this number has handed
/// them back last.
pub(crate) fn take_pages<R: Wait>(
    rt: &R,
    shelf: &Shelf,
    seat: &mut Seat<Option<Handed>, View>,
    group: usize,
    number: u32,
) -> (GroupPages, bool)
    requires table { seat.old.table_id ≡ shelf.now.table_id }
    requires group { (group < shelf.now.table_id.words) × (group < shelf.now.table_id.slots) }
    requires rests { Rests seat.old.me × (seat.old.me.0.held ≡ None) }
    requires number { seat.old.me.0.number ≡ number }
    ensures seat { (seat.new.table_id ≡ seat.old.table_id) × (seat.new.id ≡ seat.old.id) }
    ensures rests { Rests seat.new.me }
    ensures opening { seat.new.me.0.opening ≡ seat.old.me.0.opening }
    ensures ends { ChecksOut seat.old.me.0.opening (known seat.old.me.0) group result.0 (known seat.new.me.0) }
    ensures own { result.1 ≡ true → IsUnchanged seat.old.me.0.opening (known seat.old.me.0) group (known seat.new.me.0) }
{
    take_slot(rt, shelf, seat, group);
    let Handed { pages, last, .. } = handed_in(shelf, seat, group);
    (pages, is_own(last, number))
}

/// Puts the pages of a group back, which the pass has.
pub(crate) fn put_pages(
    shelf: &Shelf,
    seat: &mut Seat<Option<Handed>, View>,
    group: usize,
    handed: Handed,
)
    requires table { seat.old.table_id ≡ shelf.now.table_id }
    requires group { (group < shelf.now.table_id.words) × (group < shelf.now.table_id.slots) }
    requires rests { Rests seat.old.me × (seat.old.me.0.held ≡ Some group) }
    requires next { NextIs seat.old.me.0 group handed }
    ensures seat { (seat.new.table_id ≡ seat.old.table_id) × (seat.new.id ≡ seat.old.id) }
    ensures rests { Rests seat.new.me }
    ensures opening { seat.new.me.0.opening ≡ seat.old.me.0.opening }
    ensures ends { ChecksIn seat.old.me.0.opening (known seat.old.me.0) group (added handed) (known seat.new.me.0) }
{
    put_back(shelf, seat, group, handed);
}
