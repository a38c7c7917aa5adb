//! What the rows of a meter file say.

ghost use Rattle.std.specs.Prelude.{◌≡◌};
ghost use Rattle.plan_files.specs.declared.fault.FileCause.{FileCause};
ghost use Rattle.plan_files.specs.KeptRows.{IsKept, fields_in};
ghost use Rattle.plan_files.specs.PlanForms.{first_due};
ghost use Rattle.plan_files.specs.PlanRows.{rounds_row};
ghost use Rattle.plan_files.specs.RowsLeft.{IsSound, rows_left};
ghost use Rattle.meter_files.specs.PartRows.{title_in, home_in, self_in, own_in, pair_in, member_in, entry_in};

use group_plan::{GroupPlan, Span};
use plan_files::rows::{
    FileRow, RowReader, check_fields, is_long, is_word, key_field, name_field, number_field,
    read_rounds,
};
use plan_files::{FileCause, FileFault};

/// The meter's group, and the number by which frames name it.
#[derive(Clone, Copy)]
pub struct HomeGroup {
    pub number: u32,
    pub group: GroupPlan,
}

/// What a row after the first four says.
#[derive(Clone, Copy)]
pub enum PartEntry {
    /// The meter's own key.
    Own([u8; 32]),
    /// The key of its pair with another meter.
    Pair { other: u32, key: [u8; 32] },
    /// The rounds in which a meter of the group is a member.
    Member(Span),
}

/// Row 1 is `meter` and `1`.
#[tactic(auto, unfolding(crate::specs::PartRows::title_in))]
fn check_title(row: &FileRow<'_>) -> Result<(), FileCause>
    requires kept { IsKept row.now }
    ensures { result ≡ title_in (fields_in row.now) }
{
    if is_long(row, 2) && is_word(row, 0, b"meter") && is_word(row, 1, b"1") {
        Ok(())
    } else {
        Err(FileCause::Row)
    }
}

/// The group of a row `group,NUMBER,NAME,METERS,FLOOR`.
#[tactic(auto, unfolding(crate::specs::PartRows::home_in))]
fn read_home(row: &FileRow<'_>) -> Result<HomeGroup, FileCause>
    requires kept { IsKept row.now }
    ensures { result ≡ home_in (fields_in row.now) }
{
    if !is_word(row, 0, b"group") {
        return Err(FileCause::Row);
    }
    check_fields(row, 5)?;
    let number = number_field(row, 1)?;
    let name = name_field(row, 2)?;
    let meters = number_field(row, 3)?;
    let floor = number_field(row, 4)?;
    Ok(HomeGroup {
        number,
        group: GroupPlan {
            name,
            meters,
            floor,
        },
    })
}

/// The meter of a row `self,METER`.
#[tactic(auto, unfolding(crate::specs::PartRows::self_in))]
fn read_self(row: &FileRow<'_>) -> Result<u32, FileCause>
    requires kept { IsKept row.now }
    ensures { result ≡ self_in (fields_in row.now) }
{
    if !is_word(row, 0, b"self") {
        return Err(FileCause::Row);
    }
    check_fields(row, 2)?;
    number_field(row, 1)
}

/// The key of a row `own,KEY`.
#[tactic(auto, unfolding(crate::specs::PartRows::own_in))]
fn read_own(row: &FileRow<'_>) -> Result<PartEntry, FileCause>
    requires kept { IsKept row.now }
    ensures { result ≡ own_in (fields_in row.now) }
{
    check_fields(row, 2)?;
    let key = key_field(row, 1)?;
    Ok(PartEntry::Own(key))
}

/// The key of a row `pair,METER,KEY`.
#[tactic(auto, unfolding(crate::specs::PartRows::pair_in))]
fn read_pair(row: &FileRow<'_>) -> Result<PartEntry, FileCause>
    requires kept { IsKept row.now }
    ensures { result ≡ pair_in (fields_in row.now) }
{
    check_fields(row, 3)?;
    let other = number_field(row, 1)?;
    let key = key_field(row, 2)?;
    Ok(PartEntry::Pair { other, key })
}

/// The span of a row `member,METER,FROM,UNTIL`.
#[tactic(auto, unfolding(crate::specs::PartRows::member_in))]
fn read_member(row: &FileRow<'_>) -> Result<PartEntry, FileCause>
    requires kept { IsKept row.now }
    ensures { result ≡ member_in (fields_in row.now) }
{
    check_fields(row, 4)?;
    let meter = number_field(row, 1)?;
    let from = number_field(row, 2)?;
    let until = number_field(row, 3)?;
    Ok(PartEntry::Member(Span {
        group: 0,
        meter,
        from,
        until,
    }))
}

/// What a row after the first four says.
#[tactic(auto, unfolding(crate::specs::PartRows::entry_in))]
pub(crate) fn read_entry(row: &FileRow<'_>) -> Result<PartEntry, FileCause>
    requires kept { IsKept row.now }
    ensures { result ≡ entry_in (fields_in row.now) }
{
    if is_word(row, 0, b"own") {
        read_own(row)
    } else if is_word(row, 0, b"pair") {
        read_pair(row)
    } else if is_word(row, 0, b"member") {
        read_member(row)
    } else {
        Err(FileCause::Row)
    }
}

// The row that is due with this number, where there is none.
fn short(row: u32) -> FileFault
    ensures { result ≡ record { row = row; cause = FileCause.Short } }
{
    FileFault {
        row,
        cause: FileCause::Short,
    }
}

/// Whether the file starts with its title.
pub(crate) fn due_title(rows: &RowReader<'_>) -> Result<(), FileFault>
    requires { IsSound rows.now }
    ensures { result ≡ first_due title_in 1 (rows_left rows.now) }
{
    let Some(row) = rows.current() else {
        return Err(short(1));
    };
    match check_title(row) {
        Ok(()) => Ok(()),
        Err(cause) => Err(FileFault { row: 1, cause }),
    }
}

/// The rounds, in the second row.
pub(crate) fn due_rounds(rows: &RowReader<'_>) -> Result<u32, FileFault>
    requires { IsSound rows.now }
    ensures { result ≡ first_due rounds_row 2 (rows_left rows.now) }
{
    let Some(row) = rows.current() else {
        return Err(short(2));
    };
    match read_rounds(row) {
        Ok(rounds) => Ok(rounds),
        Err(cause) => Err(FileFault { row: 2, cause }),
    }
}

/// The meter's group, in the third row.
pub(crate) fn due_home(rows: &RowReader<'_>) -> Result<HomeGroup, FileFault>
    requires { IsSound rows.now }
    ensures { result ≡ first_due home_in 3 (rows_left rows.now) }
{
    let Some(row) = rows.current() else {
        return Err(short(3));
    };
    match read_home(row) {
        Ok(home) => Ok(home),
        Err(cause) => Err(FileFault { row: 3, cause }),
    }
}

/// The meter itself, in the fourth row.
pub(crate) fn due_self(rows: &RowReader<'_>) -> Result<u32, FileFault>
    requires { IsSound rows.now }
    ensures { result ≡ first_due self_in 4 (rows_left rows.now) }
{
    let Some(row) = rows.current() else {
        return Err(short(4));
    };
    match read_self(row) {
        Ok(meter) => Ok(meter),
        Err(cause) => Err(FileFault { row: 4, cause }),
    }
}
