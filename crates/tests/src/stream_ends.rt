//! Streams that move a few bytes at a call, and stop in mid-stream.
ghost use Rattle.std.specs.Prelude.{◌≤◌, IfOk};

use std::io;
use std::io::{ErrorKind, Read, Write};
use std::test::Fail;
use streams::{InputFault, OutputFault, read_all, write_out};

const BYTES: &[u8] = b"0123456789";

/// How a stream ends: its next call moves no byte, or fails.
#[derive(Clone, Copy)]
enum Stop {
    Nothing,
    Fails,
}

/// How a stream moves bytes: at most `most` at a call, and `room` in all before it stops. With `signals` every other call is
/// interrupted, the first one too.
#[derive(Clone, Copy)]
struct Manner {
    most: usize,
    room: usize,
    stop: Stop,
    signals: bool,
}

impl Manner {
    /// How many bytes a call moves, of those that there are.
    fn count(&self, call: usize, moved: usize, there: usize) -> io::Result<usize>
        ensures { IfOk result (λ count. count ≤ there) }
    {
        if self.signals && call % 2 == 0 {
            return Err(io::Error::from(ErrorKind::Interrupted));
        }
        if moved < self.room {
            return Ok(there.min(self.most).min(self.room - moved));
        }
        match self.stop {
            Stop::Nothing => Ok(0),
            Stop::Fails => Err(io::Error::from(ErrorKind::BrokenPipe)),
        }
    }
}

/// A writer that keeps what it took.
#[derive(Drop)]
struct SlowWriter {
    manner: Manner,
    calls: usize,
    taken: Vec<u8>,
}

impl Write for SlowWriter {
    fn write(&mut self, buf: &[u8]) -> io::Result<usize> {
        let call = self.calls;
        self.calls = call.saturating_add(1);
        let count = self.manner.count(call, self.taken.len(), buf.len())?;
        self.taken.extend_from_slice(&buf[..count])?;
        Ok(count)
    }

    fn flush(&mut self) -> io::Result<()> {
        Ok(())
    }
}

/// A reader of `BYTES`.
#[derive(Drop)]
struct SlowReader {
    manner: Manner,
    calls: usize,
    given: usize,
}

impl Read for SlowReader {
    fn read(&mut self, buf: &mut [u8]) -> io::Result<usize> {
        let call = self.calls;
        self.calls = call.saturating_add(1);
        let rest = &BYTES[self.given.min(BYTES.len())..];
        let there = rest.len().min(buf.len());
        let count = self.manner.count(call, self.given, there)?;
        buf[..count].copy_from_slice(&rest[..count]);
        self.given = self.given.saturating_add(count);
        Ok(count)
    }
}

/// A writer that has taken nothing yet.
fn sink_of(rt: &HostRuntime, manner: Manner) -> SlowWriter {
    SlowWriter {
        manner,
        calls: 0,
        taken: Vec::new(rt.alloc()),
    }
}

/// A reader that has given nothing yet.
fn source_of(manner: Manner) -> SlowReader {
    SlowReader {
        manner,
        calls: 0,
        given: 0,
    }
}

/// Streams with room for all of `BYTES`.
fn whole(most: usize, signals: bool) -> Manner {
    Manner {
        most,
        room: 10,
        stop: Stop::Nothing,
        signals,
    }
}

/// Streams that stop after `room` bytes.
fn cut(most: usize, room: usize, stop: Stop) -> Manner {
    Manner {
        most,
        room,
        stop,
        signals: false,
    }
}

#[test]
fn a_short_write_goes_on_with_the_rest(rt: HostRuntime) -> Result<(), Fail> {
    for (most, signals, calls) in [
        (1, false, 10),
        (3, false, 4),
        (10, false, 1),
        (64, false, 1),
        (1, true, 20),
        (4, true, 6),
    ] {
        let mut out = sink_of(&rt, whole(most, signals));
        assert!(rt; write_out(&mut out, BYTES).is_ok(), "{most} at a time");
        assert_eq!(rt; out.taken.as_slice(), BYTES, "{most} at a time");
        assert_eq!(rt; out.calls, calls, "{most} at a time");
    }
    let mut out = sink_of(&rt, cut(1, 0, Stop::Fails));
    assert!(rt; write_out(&mut out, b"").is_ok());
    assert_eq!(rt; out.calls, 0);
    Ok(())
}

#[test]
fn a_writer_that_stops_has_the_bytes_before(rt: HostRuntime) -> Result<(), Fail> {
    for room in 0..10 {
        for most in [1, 4] {
            let mut out = sink_of(&rt, cut(most, room, Stop::Fails));
            match write_out(&mut out, BYTES) {
                Err(OutputFault::Output(error)) => {
                    assert_eq!(rt; error.kind(), ErrorKind::BrokenPipe);
                }
                _ => assert!(rt; false, "a write after {room} bytes fails"),
            }
            assert_eq!(rt; out.taken.as_slice(), &BYTES[..room]);
            let mut out = sink_of(&rt, cut(most, room, Stop::Nothing));
            let result = write_out(&mut out, BYTES);
            assert!(rt;
                matches!(result, Err(OutputFault::WriteZero)),
                "after {room} bytes"
            );
            assert_eq!(rt; out.taken.as_slice(), &BYTES[..room]);
        }
    }
    Ok(())
}

#[test]
fn a_short_read_goes_on_to_the_end(rt: HostRuntime) -> Result<(), Fail> {
    for (most, signals, calls) in [
        (1, false, 11),
        (3, false, 5),
        (64, false, 2),
        (1, true, 22),
        (4, true, 8),
    ] {
        let mut reader = source_of(whole(most, signals));
        let bytes = read_all(rt.alloc(), &mut reader)?;
        assert_eq!(rt; bytes.as_slice(), BYTES, "{most} at a time");
        assert_eq!(rt; reader.calls, calls, "{most} at a time");
    }
    let mut empty = source_of(cut(1, 0, Stop::Nothing));
    assert!(rt; read_all(rt.alloc(), &mut empty)?.is_empty());
    Ok(())
}

#[test]
fn a_read_that_fails_gives_no_bytes(rt: HostRuntime) -> Result<(), Fail> {
    for room in 0..=10 {
        let mut reader = source_of(cut(3, room, Stop::Fails));
        match read_all(rt.alloc(), &mut reader) {
            Err(InputFault::Input(error)) => {
                assert_eq!(rt; error.kind(), ErrorKind::BrokenPipe);
            }
            _ => assert!(rt; false, "a read after {room} bytes fails"),
        }
        assert_eq!(rt; reader.given, room);
    }
    Ok(())
}

#[test]
fn long_texts_go_through_std_streams(rt: HostRuntime) -> Result<(), Fail> {
    let mut long = Vec::new(rt.alloc());
    for _ in 0..5000 {
        long.extend_from_slice(BYTES)?;
    }
    let mut out = Vec::new(rt.alloc());
    assert!(rt; write_out(&mut out, &long).is_ok());
    assert_eq!(rt; out, long);
    let mut reader: &[u8] = &long;
    assert_eq!(rt; read_all(rt.alloc(), &mut reader)?, long);
    assert!(rt; reader.is_empty());
    Ok(())
}
