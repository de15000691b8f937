//! What tests want of what a run tells.

use std::test::Fail;

/// Fails where the status is another one.
pub fn is_status(status: Result<u8, Fail>, want: u8) -> Result<(), Fail> {
    let status = status?;
    if status == want {
        Ok(())
    } else {
        Err(Fail::new(status))
    }
}
