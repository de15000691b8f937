ghost use Rattle.std.specs.Prelude.{◌≡◌, ◌-◌, ◌^◌, min};
ghost use Rattle.std.specs.Time.{system_time_nanos};

use std::rt::Clock;
use std::time::{SystemTime, UNIX_EPOCH};

/// A time in nanoseconds since 1970, up to the last u64.
fn nanoseconds(time: SystemTime) -> u64
    ensures { result ≡ min (system_time_nanos time) (2 ^ 64 - 1) }
{
    match time.duration_since(UNIX_EPOCH) {
        Ok(since) => u64::try_from(since.as_nanos()).unwrap_or(u64::MAX),
        Err(_) => 0,
    }
}

/// The time in nanoseconds since 1970, up to the last u64: 0 where the clock cannot be read.
pub fn now_ns<R: Clock>(rt: &R) -> u64 {
    match SystemTime::now(rt) {
        Ok(now) => nanoseconds(now),
        Err(_) => 0,
    }
}
