//! The lines of a file's damaged and doubtful intervals.

ghost use Rattle.std.specs.Prelude.{◌<◌, length, IfOk, IfSome};
ghost use Rattle.jr_cut.specs.Coded.{IsSpelledAt};
ghost use Rattle.jr_scan.specs.ScanValue.{intervals_of};
ghost use Rattle.jr_damage.specs.Fronts.{IsDecodableEnd};
ghost use Rattle.jr_damage.specs.Verdicts.{IsFileScan};
ghost use Rattle.jri_archive.specs.Doubts.{IsDoubtIn};

use crate::answers::LineForm;
use crate::checking::Checked;
use crate::damaged_run::DamagedRun;
use crate::rows::{append_break, append_doubtful, append_run, append_sound};
use jr_cut::{Break, CodedSpan, FileSegment, segment_at};
use jr_damage::{DoubtfulMcu, damaged_interval, decodable_end, first_doubtful};
use jr_head::Head;
use jr_scan::IntervalRef;
use std::alloc::AllocError;
use std::io::{Error, Write};

/// Why a line is not written.
#[derive(Drop)]
pub enum ReportError {
    /// The output failed.
    Write,
    /// Memory ran out.
    Memory,
}

impl From<AllocError> for ReportError {
    fn from(_refused: AllocError) -> Self {
        ReportError::Memory
    }
}

impl From<Error> for ReportError {
    fn from(_failed: Error) -> Self {
        ReportError::Write
    }
}

/// Writes a line that was made, by one write.
pub(crate) fn write_line<O: Write>(
    out: &mut O,
    made: Result<(), AllocError>,
    line: &str,
) -> Result<(), ReportError> {
    made?;
    match out.write_all(line.as_bytes()) {
        Ok(()) => Ok(()),
        Err(_) => Err(ReportError::Write),
    }
}

/// Writes the lines of a file's intervals, each by one write.
#[derive(Drop)]
struct MapWriter<'a, O> {
    /// The line that is made.
    line: &'a mut String,
    out: &'a mut O,
    /// The name of the file.
    name: &'a [u8],
    is_json: bool,
    /// The damaged intervals whose line is not written.
    run: Option<DamagedRun>,
}

impl<O: Write> MapWriter<'_, O> {
    /// Writes the line of the run of damaged intervals, if there is one.
    fn write_run(&mut self) -> Result<(), ReportError> {
        let Some(run) = self.run.take() else {
            return Ok(());
        };
        self.line.clear();
        let made = append_run(self.line, self.name, &run, self.is_json);
        write_line(self.out, made, self.line.as_str())
    }

    /// Adds a damaged interval. If it begins another run, writes the line of the one before it.
    fn add(&mut self, damaged: DamagedRun) -> Result<(), ReportError> {
        if let Some(longer) = self.run.and_then(|run| run.with(damaged)) {
            self.run = Some(longer);
            return Ok(());
        }
        self.write_run()?;
        self.run = Some(damaged);
        Ok(())
    }

    /// Writes the line of a sound interval.
    fn write_sound(&mut self, head: &Head, number: u32, bytes: CodedSpan) -> Result<(), ReportError>
        requires { number < intervals_of head.now }
    {
        self.write_run()?;
        self.line.clear();
        let made = append_sound(self.line, self.name, head, number, bytes, self.is_json);
        write_line(self.out, made, self.line.as_str())
    }

    /// Writes the line of a doubtful MCU.
    fn write_doubtful(&mut self, doubtful: &DoubtfulMcu) -> Result<(), ReportError> {
        self.write_run()?;
        self.line.clear();
        let made = append_doubtful(self.line, self.name, doubtful, self.is_json);
        write_line(self.out, made, self.line.as_str())
    }
}

/// Writes a line for each marker that was out of step, each by one write.
pub(crate) fn write_breaks<O: Write>(
    line: &mut String,
    out: &mut O,
    name: &[u8],
    breaks: &[Break],
    is_json: bool,
) -> Result<(), ReportError> {
    for found in breaks {
        line.clear();
        let made = append_break(line, name, *found, is_json);
        write_line(out, made, line.as_str())?;
    }
    Ok(())
}

/// Returns the run of one interval, whose segment is at `span`; `None` if it has a decoding.
fn damaged_run(file: &[u8], span: CodedSpan, interval: IntervalRef<'_>) -> Option<DamagedRun>
    requires there { interval.number < intervals_of interval.head }
    requires spelled { IsSpelledAt file.now span interval.bytes }
    ensures { IfSome result (λ run. IsDecodableEnd interval.entry file.now span run.decodable_to) }
{
    let damaged = damaged_interval(interval.fork(), span)?;
    let decodable_to = decodable_end(file, span, interval, damaged.decodable);
    Some(DamagedRun::of(damaged, decodable_to))
}

/// Writes a line for each damaged interval, and one for consecutive ones without bytes; if the form asks for them also one for
/// each sound interval; and a line for the first doubtful MCU of each interval, damaged or not. Each is one write. Returns whether
/// there is a doubtful MCU.
pub(crate) fn write_map<'a, O: Write>(
    line: &'a mut String,
    out: &'a mut O,
    name: &'a [u8],
    file: &[u8],
    checked: &Checked,
    form: LineForm,
) -> Result<bool, ReportError>
    requires { IsFileScan file.now checked.now.scan }
    ensures { IfOk result (IsDoubtIn file.now checked.now.scan (length checked.now.scan.intervals)) }
{
    let scan = &checked.scan;
    let intervals = scan.intervals();
    let mut at = scan.head().scan_at() as usize;
    let mut lines = MapWriter {
        line,
        out,
        name,
        is_json: form.is_json,
        run: None,
    };
    let mut is_doubtful = false;
    for i in 0..intervals {
        let FileSegment { bytes, next } = segment_at(file, at, i, intervals);
        at = next;
        if checked.verdict.damaged > 0
            && let Some(damaged) = damaged_run(file, bytes, scan.interval_ref(i))
        {
            lines.add(damaged)?;
        } else if form.has_sound {
            lines.write_sound(scan.head(), i, bytes)?;
        }
        if let Some(doubtful) = first_doubtful(file, bytes, scan.interval_ref(i)) {
            is_doubtful = true;
            lines.write_doubtful(&doubtful)?;
        }
    }
    lines.write_run()?;
    Ok(is_doubtful)
}
