//! Connections over sockets, and how long a client is waited for.

use std::io;
use std::io::{Read, Write};
use std::net::{Shutdown, TcpListener, TcpStream};
use std::time::{Duration, Instant};

/// How many seconds the first byte of a request may be waited for: a browser opens a connection to spare, and the next
/// one waits behind it.
const FIRST_PATIENCE: u64 = 1;

/// How many times the rest of a request is read off behind a response, and how many bytes each time.
const LAST_READS: usize = 16;

const LAST_BYTES: usize = 65_536;

/// The next connection, once its first byte is there, or its end. Its later reads and its writes wait for so many
/// seconds at most.
pub(crate) fn next_stream(listener: &TcpListener, patience: u64) -> io::Result<TcpStream> {
    let (stream, _address) = listener.accept()?;
    stream.set_read_timeout(Some(Duration::from_secs(FIRST_PATIENCE)))?;
    let _first = stream.peek(&mut [0])?;
    let patience = Some(Duration::from_secs(patience));
    stream.set_read_timeout(patience)?;
    stream.set_write_timeout(patience)?;
    Ok(stream)
}

/// Ends the response, and reads off what is left of the request, up to 1 MiB: with bytes unread the system would reset
/// the connection, and the client could lose the response.
pub(crate) fn read_off(stream: &TcpStream) -> io::Result<()> {
    stream.shutdown(Shutdown::Write)?;
    stream.set_read_timeout(Some(Duration::from_secs(FIRST_PATIENCE)))?;
    let mut rest = [0u8; LAST_BYTES];
    let mut reader = stream;
    for _ in 0..LAST_READS {
        if reader.read(&mut rest)? == 0 {
            break;
        }
    }
    Ok(())
}

/// A client that is written to, and has to read. A write that waited for it so many seconds is an error, also where the
/// system took a part of the bytes: each part would have the time anew.
#[derive(Drop)]
pub(crate) struct Reading<'a> {
    pub(crate) rt: &'a HostRuntime,
    pub(crate) stream: &'a TcpStream,
    pub(crate) patience: u64,
}

impl<'a> Write for Reading<'a> {
    fn write(&mut self, buf: &[u8]) -> io::Result<usize> {
        let begun = Instant::now(self.rt)?;
        let mut stream = self.stream;
        let count = stream.write(buf)?;
        if begun.elapsed(self.rt)? < Duration::from_secs(self.patience) {
            return Ok(count);
        }
        Err(io::Error::from(io::ErrorKind::TimedOut))
    }

    fn flush(&mut self) -> io::Result<()> {
        let mut stream = self.stream;
        stream.flush()
    }
}
