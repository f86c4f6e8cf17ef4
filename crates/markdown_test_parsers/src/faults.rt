//! Errors of calls as errors of tests.
use markdown_base::fault::Fault;
use std::test::Fail;

/// Returns the result of a call, with an error of a test for its error. `or_fail(call)?` is proved in a fraction of the
/// time of `call?`, which turns the error where the clauses of the call are at hand.
pub fn or_fail<T: Drop>(found: Result<T, Fault>) -> Result<T, Fail> {
    Ok(found?)
}
