// The texts of refusals that no command formats: of tables, pools and schedules. Those of the lexer, the parser and the checker stand
// with their tests.

use hx_marks::Full;
use hx_pool::PoolError;
use hx_trace::TraceError;
use std::alloc::AllocError;
use std::test::Fail;

#[test]
fn tells_of_tables_and_pools(rt: HostRuntime) -> Result<(), Fail> {
    let full = format!(in rt.alloc(); "{}", Full)?;
    assert_eq!(rt; full.as_str(), "full");
    let pool = format!(in rt.alloc(); "{}", PoolError::from(AllocError))?;
    assert_eq!(rt; pool.as_str(), "no memory for the region");
    Ok(())
}

#[test]
fn tells_of_schedules(rt: HostRuntime) -> Result<(), Fail> {
    let no_worker = TraceError::NoSuchWorker;
    let shown = format!(in rt.alloc(); "{no_worker}")?;
    assert_eq!(rt; shown.as_str(), "an entry of the schedule names no worker");
    assert_eq!(rt; no_worker.number(), 40);
    let memory = TraceError::Memory;
    let shown = format!(in rt.alloc(); "{memory}")?;
    assert_eq!(rt; shown.as_str(), "out of memory");
    assert_eq!(rt; memory.number(), 41);
    Ok(())
}
