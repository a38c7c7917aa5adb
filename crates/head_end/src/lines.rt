//! What a head end says for a tick, when it is asked again, and in its report.

ghost use Rattle.std.specs.Prelude.{◌≡◌, ◌<◌, ◌++◌, List, Some, length, map, IfOk, OnOk, IsTrue};
ghost use Rattle.group_book.specs.Places.{is_round};
ghost use Rattle.totals_report.specs.Reports.{report_row, row_outcome, group_rows};
ghost use Rattle.head_end.specs.declared.answers.Logged.{Logged};
ghost use Rattle.head_end.specs.Head.{IsAfter};
ghost use Rattle.head_end.specs.Lines.{row_in, rows, outcome_of, lacking_by, round_before, announcement, lacking_lines, end_lines, closed_line, announced_lines, close_lines, by_groups, ended_in, closed_in, tick_lines, again_of, again_lines};

use crate::answers::{Logged, TickLine};
use crate::head::HeadEnd;
use event_schedule::members;
use group_plan::{Kind, Tag};
use meter_frames::Frame;
use missing_round::MeterSet;
use mod_word::Word;
use round_machine::Ending;
use std::alloc::{AllocError, Global};
use totals_report::{ReportRow, RowOutcome};

/// The round, of so many, that began so many ticks before a tick, where there is one.
fn round_before(rounds: u32, ago: u32, tick: u32) -> Option<u32>
    ensures { result ≡ round_before rounds ago tick }
{
    if ago <= tick && tick - ago < rounds {
        Some(tick - ago)
    } else {
        None
    }
}

/// How a round that has ended so stands in the report.
fn outcome_of(ending: Ending) -> RowOutcome
    ensures { result ≡ outcome_of ending }
{
    match ending {
        Ending::Total(total) => RowOutcome::Total(total),
        Ending::Lacking(_) => RowOutcome::Lacking,
        Ending::Thin => RowOutcome::Thin,
        Ending::Already | Ending::NotClosed => RowOutcome::Running,
    }
}

/// The survivors whose answer lacks, by what an end of the round would say.
fn lacking_by(ending: Ending) -> MeterSet
    ensures { result ≡ lacking_by ending }
{
    match ending {
        Ending::Lacking(lacking) => lacking,
        Ending::Total(_) | Ending::Thin | Ending::Already | Ending::NotClosed => MeterSet::empty(),
    }
}

/// Adds the announcement of a missing set to each of these meters.
fn add_announcements(
    lines: &mut Vec<TickLine>,
    group: u16,
    round: u32,
    missing: MeterSet,
    to: MeterSet,
) -> Result<(), AllocError>
    ensures { OnOk result (lines.new.items ≡ lines.old.items ++ map (announcement group round missing) to) }
{
    for meter in to.members() {
        let tag = Tag {
            round,
            group,
            meter,
            kind: Kind::Announcement,
        };
        let word = Word(0);
        lines.push(TickLine::Announce(Frame { tag, missing, word }))?;
    }
    Ok(())
}

/// Adds the line of the survivors whose answer lacks, where there are such.
fn add_lacking(
    lines: &mut Vec<TickLine>,
    group: u16,
    round: u32,
    lacking: MeterSet,
) -> Result<(), AllocError>
    ensures { OnOk result (lines.new.items ≡ lines.old.items ++ lacking_lines group round lacking) }
{
    if lacking.len() == 0 {
        return Ok(());
    }
    lines.push(TickLine::Lacking {
        group,
        round,
        lacking,
    })?;
    Ok(())
}

impl HeadEnd {
    // How the round stands in the report.
    fn outcome(&self, group: u16, round: u32) -> RowOutcome
        requires { IsTrue (is_round self.now.plan group round) }
        ensures { (journal : List Logged) → IsAfter journal self.now → result ≡ row_outcome (row_in self.now.plan journal group round) }
    {
        if self.is_ended(round) {
            outcome_of(self.ending(group, round))
        } else {
            RowOutcome::Running
        }
    }

    // The row of a round.
    fn row(&self, group: u16, round: u32) -> ReportRow
        requires { IsTrue (is_round self.now.plan group round) }
        ensures { (journal : List Logged) → IsAfter journal self.now → result ≡ report_row self.now.plan group round (row_in self.now.plan journal group round) }
    {
        let plan = self.plan();
        let survivors = self.survivors(group, round);
        ReportRow {
            name: plan.groups()[group as usize].name,
            round,
            survivors: survivors.len(),
            missing: members(plan, group, round).minus(survivors),
            outcome: self.outcome(group, round),
        }
    }

    // Adds the rows of a group, by round.
    fn add_rows(&self, rows: &mut Vec<ReportRow>, group: u16) -> Result<(), AllocError>
        requires { group < length self.now.plan.groups }
        ensures { (journal : List Logged) → IsAfter journal self.now → OnOk result (rows.new.items ≡ rows.old.items ++ group_rows self.now.plan (row_in self.now.plan journal) group) }
    {
        for round in 0..self.plan().rounds() {
            rows.push(self.row(group, round))?;
        }
        Ok(())
    }

    /// The rows of the report, by group and then by round. A round that has not ended is open.
    pub fn rows(&self, alloc: Global) -> Result<Vec<ReportRow>, AllocError>
        ensures { (journal : List Logged) → IsAfter journal self.now → IfOk result (λ made. made.items ≡ rows self.now.plan journal) }
    {
        let mut rows = Vec::new(alloc);
        for group in 0..self.plan().groups().len() {
            self.add_rows(&mut rows, group as u16)?;
        }
        Ok(rows)
    }

    // Adds the lines of a round that ends, of one group.
    fn add_end(&self, lines: &mut Vec<TickLine>, group: u16, round: u32) -> Result<(), AllocError>
        requires { IsTrue (is_round self.now.plan group round) }
        ensures { (journal : List Logged) → IsAfter journal self.now → OnOk result (lines.new.items ≡ lines.old.items ++ end_lines self.now.plan journal round group) }
    {
        add_lacking(lines, group, round, lacking_by(self.ending(group, round)))?;
        lines.push(TickLine::Row(self.row(group, round)))?;
        Ok(())
    }

    // Adds the lines of a round that ends, by group.
    fn add_ended(&self, lines: &mut Vec<TickLine>, round: u32) -> Result<(), AllocError>
        requires { round < self.now.plan.rounds }
        ensures { (journal : List Logged) → IsAfter journal self.now → OnOk result (lines.new.items ≡ lines.old.items ++ by_groups self.now.plan (end_lines self.now.plan journal) (Some round)) }
    {
        for group in 0..self.plan().groups().len() {
            self.add_end(lines, group as u16, round)?;
        }
        Ok(())
    }

    // Adds the announcements of a missing set to the survivors of a round, where it is announced.
    fn add_announced(
        &self,
        lines: &mut Vec<TickLine>,
        group: u16,
        round: u32,
    ) -> Result<(), AllocError>
        requires { IsTrue (is_round self.now.plan group round) }
        ensures { (journal : List Logged) → IsAfter journal self.now → OnOk result (lines.new.items ≡ lines.old.items ++ announced_lines self.now.plan journal round group) }
    {
        match self.announced(group, round) {
            Some(missing) => {
                add_announcements(lines, group, round, missing, self.survivors(group, round))
            }
            None => Ok(()),
        }
    }

    // How the round has closed.
    fn closing(&self, group: u16, round: u32) -> TickLine
        requires { IsTrue (is_round self.now.plan group round) }
        ensures { (journal : List Logged) → IsAfter journal self.now → result ≡ closed_line self.now.plan journal round group }
    {
        let survivors = self.survivors(group, round);
        TickLine::Closed {
            group,
            round,
            survivors: survivors.len(),
            missing: members(self.plan(), group, round).minus(survivors),
            announced: self.announced(group, round).is_some(),
        }
    }

    // Adds the lines of a round that closes, of one group.
    fn add_close(&self, lines: &mut Vec<TickLine>, group: u16, round: u32) -> Result<(), AllocError>
        requires { IsTrue (is_round self.now.plan group round) }
        ensures { (journal : List Logged) → IsAfter journal self.now → OnOk result (lines.new.items ≡ lines.old.items ++ close_lines self.now.plan journal round group) }
    {
        lines.push(self.closing(group, round))?;
        self.add_announced(lines, group, round)
    }

    // Adds the lines of a round that closes, by group.
    fn add_closed(&self, lines: &mut Vec<TickLine>, round: u32) -> Result<(), AllocError>
        requires { round < self.now.plan.rounds }
        ensures { (journal : List Logged) → IsAfter journal self.now → OnOk result (lines.new.items ≡ lines.old.items ++ by_groups self.now.plan (close_lines self.now.plan journal) (Some round)) }
    {
        for group in 0..self.plan().groups().len() {
            self.add_close(lines, group as u16, round)?;
        }
        Ok(())
    }

    // Adds the lines of the rounds that end in a tick.
    fn add_ended_in(&self, lines: &mut Vec<TickLine>, tick: u32) -> Result<(), AllocError>
        ensures { (journal : List Logged) → IsAfter journal self.now → OnOk result (lines.new.items ≡ lines.old.items ++ ended_in self.now.plan journal tick) }
    {
        let plan = self.plan();
        match round_before(plan.rounds(), plan.w1() + plan.w2(), tick) {
            Some(round) => self.add_ended(lines, round),
            None => Ok(()),
        }
    }

    // Adds the lines of the rounds that close in a tick.
    fn add_closed_in(&self, lines: &mut Vec<TickLine>, tick: u32) -> Result<(), AllocError>
        ensures { (journal : List Logged) → IsAfter journal self.now → OnOk result (lines.new.items ≡ lines.old.items ++ closed_in self.now.plan journal tick) }
    {
        let plan = self.plan();
        match round_before(plan.rounds(), plan.w1(), tick) {
            Some(round) => self.add_closed(lines, round),
            None => Ok(()),
        }
    }

    /// The lines of a tick that has passed: of the rounds that end in it, by group, and then of those that close. They are the
    /// same however often they are asked for.
    pub fn tick_lines(&self, alloc: Global, tick: u32) -> Result<Vec<TickLine>, AllocError>
        ensures { (journal : List Logged) → IsAfter journal self.now → IfOk result (λ lines. lines.items ≡ tick_lines self.now.plan journal tick) }
    {
        let mut lines = Vec::new(alloc);
        self.add_ended_in(&mut lines, tick)?;
        self.add_closed_in(&mut lines, tick)?;
        Ok(lines)
    }

    // Adds the announcements of a round to the survivors whose answer lacks, unless it has ended.
    fn add_again(&self, lines: &mut Vec<TickLine>, group: u16, round: u32) -> Result<(), AllocError>
        requires { IsTrue (is_round self.now.plan group round) }
        ensures { (journal : List Logged) → IsAfter journal self.now → OnOk result (lines.new.items ≡ lines.old.items ++ again_of self.now.plan journal round group) }
    {
        if self.is_ended(round) {
            return Ok(());
        }
        match self.announced(group, round) {
            Some(missing) => {
                let lacking = lacking_by(self.ending(group, round));
                add_announcements(lines, group, round, missing, lacking)
            }
            None => Ok(()),
        }
    }

    // Adds the same by group.
    fn add_again_in(&self, lines: &mut Vec<TickLine>, round: u32) -> Result<(), AllocError>
        requires { round < self.now.plan.rounds }
        ensures { (journal : List Logged) → IsAfter journal self.now → OnOk result (lines.new.items ≡ lines.old.items ++ by_groups self.now.plan (again_of self.now.plan journal) (Some round)) }
    {
        for group in 0..self.plan().groups().len() {
            self.add_again(lines, group as u16, round)?;
        }
        Ok(())
    }

    /// The announcements to the survivors whose answer lacks, of the announced rounds that have not ended: by round, group and meter.
    pub fn again(&self, alloc: Global) -> Result<Vec<TickLine>, AllocError>
        ensures { (journal : List Logged) → IsAfter journal self.now → IfOk result (λ lines. lines.items ≡ again_lines self.now.plan journal) }
    {
        let mut lines = Vec::new(alloc);
        for round in 0..self.plan().rounds() {
            self.add_again_in(&mut lines, round)?;
        }
        Ok(lines)
    }
}
