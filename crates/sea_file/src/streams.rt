//! A reader as a source, and a writer as a sink. As a source and a sink they tell no bytes; what they do
//! with those of the reader or the writer, their own clauses say.
ghost use Rattle.std.specs.Prelude.{◌≡◌, ◌≤◌, ◌<◌, None, length, IfOk};
ghost use Rattle.std.specs.Io.{ReadsAtMost, WritesAtMost};
ghost use Rattle.std.specs.Io.KnownBytes.{ReadConsumes, WriteAppends};
ghost use Rattle.sea_device.specs.Device.{HasCause};
ghost use Rattle.sea_base.specs.Failures.{CountsFault};

use crate::faults::counted;
use sea_device::{Failed, Sink, Source};
use std::io;
use std::io::{ErrorKind, Read, Write};

/// A reader as a source.
#[derive(Drop)]
pub struct StdSource<R: Read + Drop> {
    reader: R,
    faults: u64,
}

impl<R: Read + Drop> StdSource<R> {
    /// A source of what the reader has left.
    pub fn new(reader: R) -> StdSource<R>
        ensures reader { result.reader ≡ reader }
        ensures faults { result.faults ≡ 0 }
    {
        StdSource { reader, faults: 0 }
    }
}

impl<R: Read + Drop> Source for StdSource<R> {
    ghost remaining = { λ _. None };

    ghost faults = { λ s. s.faults };

    /// Hands over what the reader gives, and fails where it fails.
    fn take(&mut self, into: &mut [u8]) -> Result<usize, Failed>
        requires { 0 < length into.old }
        ensures count { IfOk result (λ n. n ≤ length into.old) }
        ensures reader { ReadConsumes (R.remaining self.old.reader) (R.remaining self.new.reader)
            result into.new }
        ensures faults { CountsFault self.old.faults self.new.faults result }
        ensures cause { HasCause self.old.faults self.new.faults result }
    {
        let done = read_again(&mut self.reader, into);
        counted(&mut self.faults, done)
    }
}

/// A writer as a sink. A write that takes nothing has failed.
#[derive(Drop)]
pub struct StdSink<W: Write + Drop> {
    writer: W,
    faults: u64,
}

impl<W: Write + Drop> StdSink<W> {
    /// A sink into this writer.
    pub fn new(writer: W) -> StdSink<W>
        ensures writer { result.writer ≡ writer }
        ensures faults { result.faults ≡ 0 }
    {
        StdSink { writer, faults: 0 }
    }
}

impl<W: Write + Drop> Sink for StdSink<W> {
    ghost taken = { λ _. None };

    ghost faults = { λ s. s.faults };

    /// Hands on to the writer, and fails where it fails or takes nothing.
    fn put(&mut self, bytes: &[u8]) -> Result<usize, Failed>
        requires { 0 < length bytes.now }
        ensures count { IfOk result (λ n. (1 ≤ n) × (n ≤ length bytes.now)) }
        ensures writer { WriteAppends (W.contents self.old.writer) (W.contents self.new.writer)
            result bytes.now }
        ensures faults { CountsFault self.old.faults self.new.faults result }
        ensures cause { HasCause self.old.faults self.new.faults result }
    {
        let done = match write_again(&mut self.writer, bytes) {
            Ok(0) => Err(io::Error::from(ErrorKind::WriteZero)),
            done => done,
        };
        counted(&mut self.faults, done)
    }
}

// One read, made again where a signal interrupts it.
fn read_again<R: Read>(reader: &mut R, into: &mut [u8]) -> io::Result<usize>
    ensures bound { ReadsAtMost result into.new }
    ensures bytes { ReadConsumes (R.remaining reader.old) (R.remaining reader.new) result into.new }
{
    for _ in 0..u64::MAX {
        match reader.read(into) {
            Err(e) if e.kind() == ErrorKind::Interrupted => {}
            done => return done,
        }
    }
    Err(io::Error::from(ErrorKind::Interrupted))
}

// One write, made again where a signal interrupts it.
fn write_again<W: Write>(writer: &mut W, bytes: &[u8]) -> io::Result<usize>
    ensures bound { WritesAtMost result bytes.now }
    ensures bytes { WriteAppends (W.contents writer.old) (W.contents writer.new) result bytes.now }
{
    for _ in 0..u64::MAX {
        match writer.write(bytes) {
            Err(e) if e.kind() == ErrorKind::Interrupted => {}
            done => return done,
        }
    }
    Err(io::Error::from(ErrorKind::Interrupted))
}
