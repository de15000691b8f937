//! Tables of tests: of each row what is told is compared with the text beside it.

use mdf_num::Stop;
use std::alloc::Global;
use std::fmt::Debug;
use std::test::Fail;

/// A row of a table, which tells as text what comes of it.
pub trait Told {
    fn told(&self, alloc: Global) -> Result<String, Fail>;
}

/// What is read over a span that stops.
pub trait Stopped {
    /// What is told if the span stops after this number of calls.
    fn told(&self, alloc: Global, calls: u64, stop: Stop) -> Result<String, Fail>;
}

/// A value as text.
pub fn shown<A: Debug>(alloc: Global, value: &A) -> Result<String, Fail> {
    Ok(format!(in alloc; "{value:?}")?)
}

/// Two values as text.
pub fn both_shown<A: Debug, B: Debug>(
    alloc: Global,
    first: &A,
    second: &B,
) -> Result<String, Fail> {
    Ok(format!(in alloc; "{first:?} {second:?}")?)
}

/// Three values as text.
pub fn three_shown<A: Debug, B: Debug, C: Debug>(
    alloc: Global,
    first: &A,
    second: &B,
    third: &C,
) -> Result<String, Fail> {
    Ok(format!(in alloc; "{first:?} {second:?} {third:?}")?)
}

/// Fails if another text is told.
pub fn is_told(told: Result<String, Fail>, want: &str) -> Result<(), Fail> {
    let told = told?;
    if told.as_str() == want {
        Ok(())
    } else {
        Err(Fail::new(told))
    }
}

// Fails, with the number of the row, if it tells another text.
fn row_is_told(alloc: Global, i: usize, told: &str, want: &str) -> Result<(), Fail> {
    if told == want {
        Ok(())
    } else {
        Err(Fail::new(format!(in alloc; "row {i}: {told}")?))
    }
}

/// Fails if one of the rows tells another text than the one beside it.
pub fn all_are_told<R: AllocGlobal, T: Told>(rt: &R, rows: &[(T, &str)]) -> Result<(), Fail> {
    for (i, (row, want)) in rows.iter().enumerate() {
        let told = row.told(rt.alloc())?;
        row_is_told(rt.alloc(), i, told.as_str(), *want)?;
    }
    Ok(())
}

/// Fails if a row tells something else where its span fails, or wants memory, after each number of calls below this.
pub fn stops_are_told<R: AllocGlobal, T: Stopped>(
    rt: &R,
    row: &T,
    calls: u64,
    failed: &str,
    memory: &str,
) -> Result<(), Fail> {
    for call in 0..calls {
        is_told(row.told(rt.alloc(), call, Stop::Failed), failed)?;
        is_told(row.told(rt.alloc(), call, Stop::Memory), memory)?;
    }
    Ok(())
}
