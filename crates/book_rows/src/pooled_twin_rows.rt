//! Twins for a pool of meters, where the announcement to meter 1 is lost: meters 0 and 2 answered, so the round is open to meter 1.

use crate::fixtures::check;
use crate::twin_worlds_rows::{DEAF, DEAF_MASKS};
use ideal_masks::Differ;
use missing_round::MeterSet;
use row_fixtures::{keys_of_north, plan_of_north, table};
use std::alloc::Global;
use std::test::Fail;
use std::thread::Threads;
use twin_worlds::{MovedWords, PoolTwinError, ReadingTables, TwinError, moved_text, pooled_twin};

// What `pooled_twin` answers for a pool, from 10, 20 and 30 to the second table.
fn judged<R: Threads + Sync>(
    rt: &R,
    alloc: Global,
    known: &[MeterSet],
    second: &[u64],
) -> Result<Result<MovedWords, PoolTwinError>, Fail> {
    let plan = plan_of_north(alloc, 1)?;
    let keys = keys_of_north(alloc, &plan, [0; 6])?;
    let first = table(alloc, &plan, &[10, 20, 30])?;
    let second = table(alloc, &plan, second)?;
    let tables = ReadingTables {
        first: &first,
        second: &second,
    };
    Ok(pooled_twin(rt, alloc, &keys, known, &tables, DEAF.as_bytes()))
}

// Whether these are the moved words for the pool.
fn moves<R: Threads + Sync>(
    rt: &R,
    alloc: Global,
    known: &[MeterSet],
    second: &[u64],
    masks: &str,
) -> Result<bool, Fail> {
    match judged(rt, alloc, known, second)? {
        Ok(moved) => Ok(moved_text(alloc, &moved)?.as_slice() == masks.as_bytes()),
        Err(_) => Ok(false),
    }
}

// Whether the tables are refused with this cause.
fn refuses<R: Threads + Sync>(
    rt: &R,
    alloc: Global,
    known: &[MeterSet],
    second: &[u64],
    error: PoolTwinError,
) -> Result<bool, Fail> {
    match judged(rt, alloc, known, second)?.err() {
        Some(answered) => Ok(answered == error),
        None => Ok(false),
    }
}

/// Meters 0 and 2 exchanged 5 watt-hours, and only the word of their pair moves.
static EXCHANGED_MASKS: &str = "\
meteragg masks 1\n\
pair,0,0,0,2,903df1a0ade0b876,903df1a0ade0b871\n\
end,1\n";

#[test]
fn pooled_masks(rt: HostRuntime) -> Result<(), Fail> {
    let meter_1 = [MeterSet::empty().with(1)];
    let exchanged = moves(&rt, rt.alloc(), &meter_1, &[15, 20, 25], EXCHANGED_MASKS)?;
    check(&rt, exchanged, "exchanged");
    let nobody = moves(&rt, rt.alloc(), &[], &[1, 2, 3], DEAF_MASKS)?;
    check(&rt, nobody, "nobody");
    Ok(())
}

#[test]
fn pooled_causes(rt: HostRuntime) -> Result<(), Fail> {
    let meter_1 = [MeterSet::empty().with(1)];
    let known = PoolTwinError::Known {
        group: 0,
        round: 0,
        meter: 1,
    };
    let reading = refuses(&rt, rt.alloc(), &meter_1, &[11, 21, 30], known)?;
    check(&rt, reading, "a reading of the pool before a total");
    let total = PoolTwinError::Other(TwinError::Differ(Differ::Total {
        group: 0,
        round: 0,
        first: 40,
        second: 41,
    }));
    let others = refuses(&rt, rt.alloc(), &meter_1, &[11, 20, 30], total)?;
    check(&rt, others, "the total of the others");
    Ok(())
}
