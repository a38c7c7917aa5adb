//! Commits on a shared book: the pages of a group are checked out, events are made on them, and they are checked in with the
//! lines of these.

ghost use Rattle.std.specs.Prelude.{◌≡◌, ◌<◌, ◌≤◌, ◌+◌, ◌++◌, All, Some, None, Ok, true, drop, length};
ghost use Rattle.event_schedule.specs.Events.{event_of};
ghost use Rattle.event_schedule.specs.ByGroup.{group_of};
ghost use Rattle.shared_book.specs.Parcels.{group_in, request_of, IsOutside};
ghost use Rattle.shared_book.specs.Turns.{turns_of};
ghost use Rattle.shared_book.specs.Law.{Stands};
ghost use Rattle.shared_book.specs.Passes.{ChecksOut, ChecksIn, CommitEnds, IsUnchanged};
ghost use Rattle.shared_book.specs.Ends.{opening, view, IsPassOf};

use crate::handed::Handed;
use crate::parcel::{CommitError, Parcel, Reply, Request};
use crate::parts::{Pass, SharedBook};
use crate::shared::{put_pages, take_pages};
use crate::writes::write;
use group_book::{GroupPages, TakeError};
use std::snapshot::Snapshot;
use std::sync::Wait;
use transcript_log::Lines;

impl SharedBook {
    /// Checks the pages of a group out: waits until no other pass has them. Then the pass alone makes commits in the group,
    /// until it checks them in.
    pub fn check_out<R: Wait>(&self, rt: &R, pass: &mut Pass, group: u16) -> GroupPages
        requires pass { IsPassOf self.now pass.old }
        requires free { (view pass.old).held ≡ None }
        requires group { group < length (opening self.now).presence.plan.groups }
        ensures pass { IsPassOf self.now pass.new }
        ensures ends { ChecksOut (opening self.now) (view pass.old) group result (view pass.new) }
    {
        let (pages, _own) = self.check_out_own(rt, pass, group);
        pages
    }

    /// Checks the pages of a group out, as `check_out` does, and says whether no pass but this one has ever checked them in, or has last:
    /// then there is no more of the group than the pass had seen.
    pub fn check_out_own<R: Wait>(&self, rt: &R, pass: &mut Pass, group: u16) -> (GroupPages, bool)
        requires pass { IsPassOf self.now pass.old }
        requires free { (view pass.old).held ≡ None }
        requires group { group < length (opening self.now).presence.plan.groups }
        ensures pass { IsPassOf self.now pass.new }
        ensures ends { ChecksOut (opening self.now) (view pass.old) group result.0 (view pass.new) }
        ensures own { result.1 ≡ true → IsUnchanged (opening self.now) (view pass.old) group (view pass.new) }
    {
        let number = pass.number;
        take_pages(
            rt,
            &self.table.shared,
            &mut pass.seat,
            group as usize,
            number,
        )
    }

    /// Checks the pages of a group in, with the lines of the commits that the pass made on them: those of a list from a place on.
    pub fn check_in(&self, pass: &mut Pass, pages: GroupPages, lines: &Lines, from: usize)
        requires pass { IsPassOf self.now pass.old }
        requires held { (view pass.old).held ≡ Some pages.group }
        requires own { All (λ l. group_of (event_of l) ≡ pages.group) (drop from lines.now.items) }
        requires pages { Stands (opening self.now) ((view pass.old).seen ++ turns_of (view pass.old).number (drop from lines.now.items)) pages.group pages }
        ensures pass { IsPassOf self.now pass.new }
        ensures ends { ChecksIn (opening self.now) (view pass.old) pages.group (drop from lines.now.items) (view pass.new) }
    {
        let group = pages.group() as usize;
        let handed = Handed {
            pages,
            lines: Snapshot::of(lines),
            from,
            last: Some(pass.number),
        };
        put_pages(&self.table.shared, &mut pass.seat, group, handed);
    }

    /// Commits a parcel: checks the pages of its group out, makes one event, and checks them in. Its line is added to these lines.
    pub fn commit<R: Wait>(
        &self,
        rt: &R,
        pass: &mut Pass,
        parcel: &Parcel,
        lines: &mut Lines,
    ) -> Result<Reply, CommitError>
        requires pass { IsPassOf self.now pass.old }
        requires free { (view pass.old).held ≡ None }
        requires spare { 1 ≤ lines.old.spare }
        ensures pass { IsPassOf self.now pass.new }
        ensures ends { CommitEnds (opening self.now) (view pass.old) (request_of parcel.now) lines.old.items result lines.new.items (view pass.new) }
        ensures spare { lines.old.spare ≤ lines.new.spare + 1 }
    {
        let request = match parcel.request() {
            Ok(request) => request,
            Err(e) => return Err(CommitError::Frame(e)),
        };
        if request.group() as usize >= self.presence.plan().groups().len() {
            return Err(outside(&request));
        }
        self.make(rt, pass, &request, lines)
    }

    /// Makes one event on the pages of a group of the plan.
    fn make<R: Wait>(
        &self,
        rt: &R,
        pass: &mut Pass,
        request: &Request,
        lines: &mut Lines,
    ) -> Result<Reply, CommitError>
        requires pass { IsPassOf self.now pass.old }
        requires free { (view pass.old).held ≡ None }
        requires group { group_in request.now < length (opening self.now).presence.plan.groups }
        requires spare { 1 ≤ lines.old.spare }
        ensures pass { IsPassOf self.now pass.new }
        ensures ends { CommitEnds (opening self.now) (view pass.old) (Ok request.now) lines.old.items result lines.new.items (view pass.new) }
        ensures spare { lines.old.spare ≤ lines.new.spare + 1 }
    {
        let rounds = self.presence.plan().rounds();
        let from = lines.len();
        let mut pages = self.check_out(rt, pass, request.group());
        let came = write(&mut pages, rounds, request, lines);
        self.check_in(pass, pages, lines, from);
        came
    }
}

/// Why a request of no group of the plan is refused.
fn outside(request: &Request) -> CommitError
    ensures { IsOutside request.now result }
{
    match request {
        Request::Take(_) => CommitError::Take(TakeError::Unknown),
        Request::Close { .. } | Request::End { .. } => CommitError::Place,
    }
}
