//! The moment of the clock.

ghost use Rattle.std.specs.Prelude.{◌≡◌, IfSome};
ghost use Rattle.std.specs.Time.{system_time_nanos};
ghost use Rattle.mm_program.specs.Clock.{IsNow};

use mm_definitions::moments::Moment;
use std::io;
use std::time::SystemTime;

/// What the clock says.
#[derive(Clone, Copy, Debug)]
pub enum Now {
    At(Moment),
    /// A moment outside the limits.
    Outside,
    /// The clock can't be read.
    Unread,
}

/// The moment of a time, in whole milliseconds.
fn moment_at(time: SystemTime) -> Now
    ensures { IsNow (system_time_nanos time) result }
{
    let Ok(since) = time.duration_since(SystemTime::UNIX_EPOCH) else {
        return Now::Outside;
    };
    let Ok(milliseconds) = i64::try_from(since.as_millis()) else {
        return Now::Outside;
    };
    match Moment::new(milliseconds) {
        Some(moment) => Now::At(moment),
        None => Now::Outside,
    }
}

/// The moment of the clock, asked once; one before 1970 is invalid data to the library. What a clock shows is no matter
/// of a contract.
fn time_now(rt: &HostRuntime) -> Now {
    match SystemTime::now(rt) {
        Ok(time) => moment_at(time),
        Err(error) if error.kind() == io::ErrorKind::InvalidData => Now::Outside,
        Err(_) => Now::Unread,
    }
}

/// The moment that the words give, or else the clock's.
pub fn moment_or_now(rt: &HostRuntime, at: Option<Moment>) -> Now
    ensures given { IfSome at (λ moment. result ≡ Now.At moment) }
{
    match at {
        Some(moment) => Now::At(moment),
        None => time_now(rt),
    }
}
