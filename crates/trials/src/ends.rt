//! Ends that are read and written whole: each is made in a helper, and lent to one that writes down what comes of it.
ghost use Rattle.std.specs.Prelude.{◌≡◌};

use hs_io::{
    Failed, InputErr, MemSink, MemSource, Sink, SinkErr, Source, StdSink, StdSource, read_all,
    write_all,
};
use hs_types::List;
use std::alloc::{AllocError, Global};
use std::io;
use std::io::Read;
use std::test::Fail;

// Eleven bytes: four calls of three bytes at most.
const TEXT: &[u8] = b"s mkdir /a\n";

/// An end that is asked for at most three bytes a call.
#[derive(Drop)]
struct Slow<E: Drop> {
    end: E,
}

impl<S: Source> Source for Slow<S> {
    ghost rest = { λ s. S.rest s.end };

    ghost faults = { λ s. S.faults s.end };

    fn read(&mut self, out: &mut [u8]) -> Result<usize, Failed> {
        let most = out.len().min(3);
        self.end.read(&mut out[..most])
    }
}

impl<O: Sink> Sink for Slow<O> {
    ghost written = { λ s. O.written s.end };

    ghost faults = { λ s. O.faults s.end };

    fn write(&mut self, bytes: &[u8]) -> Result<usize, SinkErr> {
        let most = bytes.len().min(3);
        self.end.write(&bytes[..most])
    }
}

// ---- sources

/// The calls that fail: their order doesn't count, and one may stand twice.
fn failing(alloc: Global, call: u64) -> Result<List<u64>, AllocError> {
    Ok(List::of(Vec::from_slice(alloc, &[90, call, call])?))
}

fn bytes_of(alloc: Global, text: &[u8]) -> Result<List<u8>, AllocError> {
    Ok(List::of(Vec::from_slice(alloc, text)?))
}

fn source_of(alloc: Global, bytes: List<u8>, fails: u64) -> Result<MemSource, AllocError> {
    Ok(MemSource::new(alloc, bytes, failing(alloc, fails)?))
}

/// How many bytes were read, and whether they are the text; or why not.
fn write_read(out: &mut String, read: &Result<List<u8>, InputErr>) -> Result<(), AllocError> {
    match read {
        Ok(bytes) if bytes.items() == TEXT => out.push_str("all; "),
        Ok(bytes) => write!(out, "{}; ", bytes.len()),
        Err(error) => write!(out, "{error:?}; "),
    }
}

fn read_slowly(alloc: Global, fails: u64, out: &mut String) -> Result<(), AllocError> {
    let end = source_of(alloc, bytes_of(alloc, TEXT)?, fails)?;
    write_read(out, &read_all(alloc, &mut Slow { end }, 100))
}

#[test]
fn a_source_may_fail_at_any_call(rt: HostRuntime) -> Result<(), Fail> {
    let mut out = String::new(rt.alloc());
    for fails in 1..=6 {
        read_slowly(rt.alloc(), fails, &mut out)?;
    }
    let text = "Failed; Failed; Failed; Failed; Failed; all; ";
    assert_eq!(rt; out.as_str(), text);
    Ok(())
}

fn read_many(
    alloc: Global,
    length: usize,
    limit: usize,
    out: &mut String,
) -> Result<(), AllocError> {
    let bytes = List::of(Vec::from_elem(alloc, b'\n', length)?);
    let mut source = source_of(alloc, bytes, 0)?;
    write_read(out, &read_all(alloc, &mut source, limit))
}

#[test]
fn a_byte_past_the_limit_is_too_large(rt: HostRuntime) -> Result<(), Fail> {
    let mut out = String::new(rt.alloc());
    for limit in [0, 11, 300_000, 16_777_216] {
        read_many(rt.alloc(), limit, limit, &mut out)?;
        read_many(rt.alloc(), limit.saturating_add(1), limit, &mut out)?;
    }
    let text = "0; TooLarge; 11; TooLarge; 300000; TooLarge; 16777216; TooLarge; ";
    assert_eq!(rt; out.as_str(), text);
    Ok(())
}

// ---- sinks

/// How a write ended, and what was written.
fn write_written(
    out: &mut String,
    ended: Result<(), SinkErr>,
    written: &[u8],
) -> Result<(), AllocError> {
    let text = str::from_utf8(written).unwrap_or("?");
    write!(out, "{ended:?} {text}; ")
}

fn write_slowly(alloc: Global, fails: u64, out: &mut String) -> Result<(), AllocError> {
    let end = MemSink::new(alloc, failing(alloc, fails)?);
    let mut slow = Slow { end };
    let ended = write_all(&mut slow, TEXT);
    write_written(out, ended, slow.end.written().items())
}

#[test]
fn a_sink_may_fail_at_any_call(rt: HostRuntime) -> Result<(), Fail> {
    let mut out = String::new(rt.alloc());
    for fails in 1..=5 {
        write_slowly(rt.alloc(), fails, &mut out)?;
    }
    let text =
        "Err(Failed) ; Err(Failed) s m; Err(Failed) s mkdi; Err(Failed) s mkdir /; Ok(()) s mkdir /a\n; ";
    assert_eq!(rt; out.as_str(), text);
    Ok(())
}

// ---- readers and writers of std

/// A reader that fails, and a writer that does after some bytes.
#[derive(Drop)]
struct Broken {
    room: usize,
}

impl io::Read for Broken {
    fn read(&mut self, _buf: &mut [u8]) -> io::Result<usize> {
        Err(io::Error::from(io::ErrorKind::TimedOut))
    }
}

impl io::Write for Broken {
    fn write(&mut self, buf: &[u8]) -> io::Result<usize> {
        if self.room == 0 {
            return Err(io::Error::from(io::ErrorKind::BrokenPipe));
        }
        let taken = self.room.min(buf.len()).min(2);
        self.room -= taken;
        Ok(taken)
    }

    fn flush(&mut self) -> io::Result<()> {
        Ok(())
    }
}

fn read_std(alloc: Global, out: &mut String) -> Result<(), AllocError> {
    write_read(out, &read_all(alloc, &mut StdSource::new(TEXT), 100))
}

fn read_broken(alloc: Global, out: &mut String) -> Result<(), AllocError> {
    let mut broken = StdSource::new(TEXT.chain(Broken { room: 0 }));
    write_read(out, &read_all(alloc, &mut broken, 100))?;
    write!(out, "{:?}", broken.read(&mut [0; 4]))
}

#[test]
fn a_reader_is_a_source(rt: HostRuntime) -> Result<(), Fail> {
    let mut out = String::new(rt.alloc());
    read_std(rt.alloc(), &mut out)?;
    read_broken(rt.alloc(), &mut out)?;
    assert_eq!(rt; out.as_str(), "all; Failed; Err(Failed)");
    Ok(())
}

fn write_std(alloc: Global, out: &mut String) -> Result<(), AllocError> {
    let mut bytes = Vec::new(alloc);
    let ended = write_all(&mut StdSink::new(&mut bytes), TEXT);
    write_written(out, ended, bytes.as_slice())
}

fn write_broken(out: &mut String) -> Result<(), AllocError> {
    let mut broken = Broken { room: 5 };
    let ended = write_all(&mut StdSink::new(&mut broken), TEXT);
    write!(out, "{ended:?} {}; ", broken.room)
}

/// A writer that takes nothing and tells no error.
fn write_full(out: &mut String) -> Result<(), AllocError> {
    let mut full: &mut [u8] = &mut [];
    let ended = write_all(&mut StdSink::new(&mut full), TEXT);
    write!(out, "{ended:?}")
}

#[test]
fn a_writer_is_a_sink(rt: HostRuntime) -> Result<(), Fail> {
    let mut out = String::new(rt.alloc());
    write_std(rt.alloc(), &mut out)?;
    write_broken(&mut out)?;
    write_full(&mut out)?;
    let text = "Ok(()) s mkdir /a\n; Err(Failed) 0; Err(Failed)";
    assert_eq!(rt; out.as_str(), text);
    Ok(())
}
