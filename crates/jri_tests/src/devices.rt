//! Inputs and outputs that move few bytes a call and fail at one call, through `run`; and the lines of `finish`.

ghost use Rattle.std.specs.Prelude.{◌≤◌};
ghost use Rattle.jr_base.specs.declared.limits.TheConstants.{MAX_WORKERS};

use crate::decoding::{HoldingGate, outcome_of};
use jr_base::limits::MAX_WORKERS;
use jr_head::Refusal;
use jr_paint::Tally;
use jr_scan::ScanEnd;
use jr_wall::OpenGate;
use jri_engine::{Fault, Report, finish};
use std::alloc::Global;
use std::io::{Error, ErrorKind, Read, Result as IoResult, Write};
use std::sync::Wait;
use std::test::Fail;
use std::thread::Threads;
use test_files::files::{file, front};

/// Moves at most `most` bytes a call. The call of that number fails, and those after it continue.
#[derive(Drop)]
struct Device<'a> {
    /// What is to be read.
    rest: &'a [u8],
    /// What was written.
    bytes: Vec<u8>,
    most: usize,
    calls: u32,
    /// The number of the call that fails; 0: none does.
    failing: u32,
    /// How it fails; `None`: it moves no byte.
    error: Option<ErrorKind>,
}

impl<'a> Device<'a> {
    fn new(alloc: Global, rest: &'a [u8], most: usize) -> Device<'a> {
        Device {
            rest,
            bytes: Vec::new(alloc),
            most,
            calls: 0,
            failing: 0,
            error: None,
        }
    }
}

impl Read for Device<'_> {
    fn read(&mut self, buf: &mut [u8]) -> IoResult<usize> {
        self.calls = self.calls.wrapping_add(1);
        if self.calls == self.failing {
            return Err(Error::from(self.error.unwrap_or(ErrorKind::Other)));
        }
        let count = buf.len().min(self.most).min(self.rest.len());
        let (part, rest) = self.rest.split_at(count);
        buf[..count].copy_from_slice(part);
        self.rest = rest;
        Ok(count)
    }
}

impl Write for Device<'_> {
    fn write(&mut self, buf: &[u8]) -> IoResult<usize> {
        self.calls = self.calls.wrapping_add(1);
        if self.calls == self.failing {
            return match self.error {
                Some(kind) => Err(Error::from(kind)),
                None => Ok(0),
            };
        }
        let most = buf.len().min(self.most);
        self.bytes.extend_from_slice(&buf[..most])?;
        Ok(most)
    }

    fn flush(&mut self) -> IoResult<()> {
        Ok(())
    }
}

/// Returns whether a run with one worker and this input cannot read it, and writes nothing.
fn is_unread<R: Threads + Wait + Sync + AllocGlobal>(rt: &R, input: Device<'_>) -> bool {
    let out = Vec::new(rt.alloc());
    let (outcome, out) = outcome_of(rt, input, out, 1, None, &OpenGate);
    outcome.err() == Some(Fault::Read) && out.into_inner().is_empty()
}

/// The smallest file has 143 bytes, so call 144 reports its end.
#[test]
fn reports_an_input_that_fails_at_one_call(rt: HostRuntime) -> Result<(), Fail> {
    let bytes = file(rt.alloc(), "G 63 E")?;
    for kind in [ErrorKind::Other, ErrorKind::Interrupted] {
        for failing in 1..=144 {
            let mut input = Device::new(rt.alloc(), bytes.as_slice(), 1);
            input.failing = failing;
            input.error = Some(kind);
            if !is_unread(&rt, input) {
                return Err(Fail::from(failing));
            }
        }
    }
    Ok(())
}

/// A larger file is not read at once, and its call 2 or 3 fails.
#[test]
fn reports_a_large_input_that_fails(rt: HostRuntime) -> Result<(), Fail> {
    let bytes = file(rt.alloc(), "G 63 70000*FF E")?;
    for (count, failing) in [(65_536, 2), (65_537, 3), (70_000, 3)] {
        let mut input = Device::new(rt.alloc(), front(bytes.as_slice(), count), 65_536);
        input.failing = failing;
        if !is_unread(&rt, input) {
            return Err(Fail::from(count));
        }
    }
    Ok(())
}

/// Returns the fault of a run with this output, whose input has a byte a call, and the output.
fn written<R: Threads + Wait + Sync + AllocGlobal>(
    rt: &R,
    bytes: &[u8],
    workers: u32,
    out: Device<'static>,
) -> (Option<Fault>, Device<'static>)
    requires some { 1 ≤ workers }
    requires few { workers ≤ MAX_WORKERS }
{
    let input = Device::new(rt.alloc(), bytes, 1);
    let (outcome, out) = outcome_of(rt, input, out, workers, None, &HoldingGate);
    (outcome.err(), out.into_inner())
}

/// A file, the number of workers, the most bytes of a call, and how it fails.
type Output = (&'static str, u32, usize, Option<ErrorKind>);

/// Returns whether this is written before a call of that number fails, by the calls up to it.
fn is_front<R: Threads + Wait + Sync + AllocGlobal>(
    rt: &R,
    bytes: &[u8],
    (_words, workers, most, error): &Output,
    failing: u32,
    whole: &[u8],
) -> bool {
    let mut out = Device::new(rt.alloc(), &[], *most);
    out.failing = failing;
    out.error = *error;
    let (fault, out) = written(rt, bytes, (*workers).clamp(1, MAX_WORKERS), out);
    fault == Some(Fault::Write) && out.calls == failing && whole.starts_with(out.bytes.as_slice())
}

/// Returns the number of calls that write a whole image, which is that of two workers; 0 if it is another.
fn calls_of<R: Threads + Wait + Sync + AllocGlobal>(
    rt: &R,
    bytes: &[u8],
    (_words, workers, most, _error): &Output,
    whole: &[u8],
) -> u32 {
    let out = Device::new(rt.alloc(), &[], *most);
    let (fault, all) = written(rt, bytes, (*workers).clamp(1, MAX_WORKERS), out);
    if fault.is_none() && all.bytes.as_slice() == whole {
        all.calls
    } else {
        0
    }
}

/// Returns whether the whole image is written if no call fails; otherwise what precedes that call, and none is made after it.
fn is_written<R: Threads + Wait + Sync + AllocGlobal>(
    rt: &R,
    output: &Output,
) -> Result<bool, Fail> {
    let bytes = file(rt.alloc(), output.0)?;
    let (_fault, all) = written(rt, &bytes, 2, Device::new(rt.alloc(), &[], 100_000));
    let whole = all.bytes.as_slice();
    let calls = calls_of(rt, &bytes, output, whole);
    let mut is_written = calls > 0;
    for failing in 1..=calls {
        is_written = is_written && is_front(rt, &bytes, output, failing, whole);
    }
    Ok(is_written)
}

const FULL: Option<ErrorKind> = Some(ErrorKind::StorageFull);

/// Some rows of MCUs, by a byte a call.
const SMALL: [Output; 6] = [
    ("G 63 E", 1, 1, FULL),
    ("G 63 E", 1, 1, Some(ErrorKind::Interrupted)),
    ("G 63 E", 1, 1, None),
    (
        "S Q F:0011:0009 D A2:00:01 I:0005 C M:0005:0006:0001 E",
        1,
        1,
        FULL,
    ),
    (
        "S Q F3:0011:0005:12 D A2:00:01 I:0005 C3 M:0005:0002:0004 E",
        1,
        1,
        FULL,
    ),
    (
        "S Q F:0001:00F9 D A2:00:01 I:0005 C M:0005:0020:0001 E",
        3,
        1,
        FULL,
    ),
];

/// 11 rows of 129 MCUs.
const LARGE: &str = "S Q F:0051:0401 D A2:00:01 I:0005 C M:0005:058B:0001 E";

/// 5 rows of 33 MCUs.
const LARGE_COLOURED: &str = "S Q F3:0041:0201:22 D A2:00:01 I:0005 C3 M:0005:00A5:0006 E";

/// More rows of MCUs than fit into one write.
const LARGER: [Output; 4] = [
    (LARGE, 1, 10_000, FULL),
    (LARGE_COLOURED, 1, 73_728, FULL),
    (LARGE, 3, 10_000, FULL),
    (LARGE_COLOURED, 3, 73_728, FULL),
];

#[test]
fn reports_an_output_that_fails_at_one_call(rt: HostRuntime) -> Result<(), Fail> {
    for outputs in [SMALL.as_slice(), LARGER.as_slice()] {
        for output in outputs {
            if !is_written(&rt, output)? {
                return Err(Fail::from(output.0));
            }
        }
    }
    Ok(())
}

/// An image of 33 rows of MCUs and 98 KB needs few writes: a write has the lines of many rows.
#[test]
fn writes_many_rows_by_a_call(rt: HostRuntime) -> Result<(), Fail> {
    let bytes = file(rt.alloc(), LARGE_COLOURED)?;
    for workers in 1..=3 {
        let out = Device::new(rt.alloc(), &[], 100_000);
        let (fault, all) = written(&rt, &bytes, workers, out);
        if fault.is_some() || all.calls > 4 {
            return Err(Fail::from(workers));
        }
    }
    Ok(())
}

/// A pipe of packets: a call returns one packet, and drops what of it has no space.
#[derive(Drop)]
struct Packets<'a> {
    rest: &'a [u8],
    size: usize,
}

impl Read for Packets<'_> {
    fn read(&mut self, buf: &mut [u8]) -> IoResult<usize> {
        let (packet, rest) = self.rest.split_at(self.size.min(self.rest.len()));
        let count = packet.len().min(buf.len());
        buf[..count].copy_from_slice(&packet[..count]);
        self.rest = rest;
        Ok(count)
    }
}

#[test]
fn loses_nothing_of_packets(rt: HostRuntime) -> Result<(), Fail> {
    let bytes = file(rt.alloc(), "G 63 70000*FF E")?;
    for size in [3000, 4096, 65_530, 65_536] {
        let rest = bytes.as_slice();
        let out = Vec::new(rt.alloc());
        let (outcome, _) = outcome_of(&rt, Packets { rest, size }, out, 1, None, &OpenGate);
        if !outcome.is_ok_and(|report| report.ended == ScanEnd::EndOfImage) {
            return Err(Fail::from(size));
        }
    }
    Ok(())
}

/// Takes all of each call and appends a bar, but cannot be flushed.
#[derive(Drop)]
struct Barred {
    bytes: Vec<u8>,
}

impl Write for Barred {
    fn write(&mut self, buf: &[u8]) -> IoResult<usize> {
        self.bytes.extend_from_slice(buf)?;
        self.bytes.push(b'|')?;
        Ok(buf.len())
    }

    fn flush(&mut self) -> IoResult<()> {
        Err(Error::from(ErrorKind::StorageFull))
    }
}

/// Returns whether exactly these lines are written, each by one call.
fn is_reported<O: Write + Drop>(
    alloc: Global,
    out: O,
    outcome: Result<Report, Fault>,
    lines: &str,
) -> bool {
    let mut errors = Barred {
        bytes: Vec::new(alloc),
    };
    finish(outcome, &mut Tally::of(out), &mut errors);
    errors.bytes.as_slice() == lines.as_bytes()
}

fn report(ended: ScanEnd) -> Report {
    Report {
        intervals: 4_294_967_295,
        sound: 1_234_567_890,
        damaged: 9,
        blank: 0,
        ended,
    }
}

/// Ends of a scan, and their lines.
const ENDS: [(ScanEnd, &str); 5] = [
    (ScanEnd::EndOfImage, "scan ended at EOI\n|"),
    (ScanEnd::EndOfFile, "scan ended at the end of the file\n|"),
    (
        ScanEnd::OtherMarker(10, 7),
        "scan ended at marker 0A, byte 7\n|",
    ),
    (
        ScanEnd::OutOfStep {
            found: 1,
            expected: 2,
            at: 18_446_744_073_709_551_615,
        },
        "scan ended at RST1 where RST2 was due, byte 18446744073709551615\n|",
    ),
    (
        ScanEnd::ExtraRestart(18_446_744_073_709_551_615),
        "scan ended at a restart marker past the last interval, byte 18446744073709551615\n|",
    ),
];

/// Faults, and their lines.
const FAULTS: [(Fault, &str); 5] = [
    (Fault::Memory, "out of memory\n|"),
    (Fault::NoFile, "cannot open the file\n|"),
    (Fault::Read, "cannot read the input\n|"),
    (Fault::Write, "cannot write the picture\n|"),
    (
        Fault::Refused(Refusal::ExpectedMarker(18_446_744_073_709_551_615)),
        "refused 3: expected a marker at byte 18446744073709551615\n|",
    ),
];

/// The line of the counts in `report`.
const COUNTS: &str = "intervals 4294967295 sound 1234567890 damaged 9 blank 0\n|";

/// Each line by one call, the longest among them; and the line of an output that cannot be flushed.
#[test]
fn reports_each_line_at_once(rt: HostRuntime) -> Result<(), Fail> {
    let alloc = rt.alloc();
    for (ended, line) in &ENDS {
        let lines = format!(in alloc; "{COUNTS}{line}")?;
        if !is_reported(alloc, Vec::new(alloc), Ok(report(*ended)), lines.as_str()) {
            return Err(Fail::from(*line));
        }
    }
    for (fault, line) in &FAULTS {
        if !is_reported(alloc, Vec::new(alloc), Err(*fault), line) {
            return Err(Fail::from(*line));
        }
    }
    let bytes = Vec::new(alloc);
    let outcome = Ok(report(ScanEnd::EndOfImage));
    assert!(rt;
        is_reported(
            alloc,
            Barred { bytes },
            outcome,
            "cannot write the picture\n|"
        )
    );
    Ok(())
}
