//! A reader and a writer of which a call fails.

use mm_definitions::ends::UntilEnd;
use mm_definitions::streams::Io;
use std::io;
use std::io::{ErrorKind, Read, Write};

/// A reader and writer of which each call fails but the first.
#[derive(Drop)]
struct Once {
    called: bool,
}

impl Read for Once {
    fn read(&mut self, _buf: &mut [u8]) -> io::Result<usize> {
        if self.called {
            return Err(io::Error::from(ErrorKind::Other));
        }
        self.called = true;
        Ok(0)
    }
}

impl Write for Once {
    fn write(&mut self, _buf: &[u8]) -> io::Result<usize> {
        Ok(0)
    }

    fn flush(&mut self) -> io::Result<()> {
        if self.called {
            return Err(io::Error::from(ErrorKind::Other));
        }
        self.called = true;
        Ok(())
    }
}

#[test]
fn remembers_a_failed_call(rt: HostRuntime) {
    let mut reader = Io::new(Once { called: false });
    let mut one = [0u8; 1];
    assert!(&rt; reader.read(&mut one).is_ok());
    assert!(&rt; !reader.failed());
    assert!(&rt; reader.read(&mut one).is_err());
    assert!(&rt; reader.failed());
    let mut writer = Io::new(Once { called: false });
    assert!(&rt; writer.flush().is_ok());
    assert!(&rt; !writer.failed());
    assert!(&rt; writer.flush().is_err());
    assert!(&rt; writer.failed());
    // A writer that takes nothing has failed.
    let mut stuck = Io::new(Once { called: false });
    assert!(&rt; stuck.write(b"a").is_err());
    assert!(&rt; stuck.failed());
    assert!(&rt; stuck.into_inner().flush().is_ok());
}

#[test]
fn is_not_asked_behind_its_end(rt: HostRuntime) {
    // Its first call tells the end, and the next one would fail.
    let mut reader = UntilEnd::new(Once { called: false });
    let mut one = [0u8; 1];
    assert!(&rt; matches!(reader.read(&mut one), Ok(0)));
    assert!(&rt; matches!(reader.read(&mut one), Ok(0)));
    // No room in the buffer is no end.
    let mut roomless = UntilEnd::new(Once { called: false });
    let mut none = [0u8; 0];
    assert!(&rt; matches!(roomless.read(&mut none), Ok(0)));
    assert!(&rt; roomless.read(&mut one).is_err());
}
