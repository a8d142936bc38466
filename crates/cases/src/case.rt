//! A row with what follows from it, and the paths that decode its file.

use crate::archives::check_as_archive;
use crate::arrival::check_arrivals;
use crate::buffers::{check_buffers, header_of};
use crate::damage::check_damage;
use crate::differences::Differences;
use crate::lines::check_lines_of;
use crate::places::check_places;
use crate::row::Row;
use crate::runs::{check_runs, written};
use crate::scans::check_scans;
use crate::sums::crc_32;
use crate::sweeps::check_sweep;
use crate::texts::write_lines;
use jri_memory::Header;
use std::alloc::Global;
use std::sync::Wait;
use std::thread::Threads;
use test_files::error::NotationError;
use test_files::files::{file, front};
use test_files::pictures::picture;

/// A file of a row, and what is wanted of each path.
#[derive(Clone, Copy)]
pub(crate) struct Case<'a> {
    pub alloc: Global,
    pub row: &'a Row<'a>,
    pub bytes: &'a [u8],
    /// The Netpbm text of the image; empty if the file is refused.
    pub picture: &'a [u8],
    /// The report's lines, each with its end.
    pub report: &'a str,
    /// What the header says.
    pub header: Header,
}

impl<'a> Case<'a> {
    /// Returns whether the file is refused.
    pub(crate) fn is_refused(&self) -> bool {
        self.row.status == 2
    }

    /// Returns the samples of the image: what follows its header.
    pub(crate) fn samples(&self) -> &'a [u8] {
        let size = (self.header.pixels as usize).min(self.picture.len());
        let (_header, samples) = self.picture.split_at(self.picture.len() - size);
        samples
    }

    /// Returns the size of a line in bytes.
    pub(crate) fn line(&self) -> usize {
        u32::saturating_mul(self.header.width, self.header.components) as usize
    }

    /// Compares all results of a path: the image, or its samples, the report and the status.
    pub(crate) fn compare(
        &self,
        path: &str,
        found: &[u8],
        report: &str,
        status: u32,
        out: &mut Differences,
    ) {
        out.compare_bytes(path, self.samples(), found);
        out.compare_texts(path, self.report, report);
        out.compare_numbers(path, u64::from(self.row.status), u64::from(status));
    }
}

/// Compares the sum of an image with that of these digits.
fn compare_sum(text: &[u8], digits: &str, out: &mut Differences) {
    match u32::from_str_radix(digits, 16) {
        Ok(wanted) => out.compare_numbers("sum", u64::from(wanted), u64::from(crc_32(text))),
        Err(_) => out.fail(NotationError::Malformed),
    }
}

/// Returns the Netpbm text of a row's image: the one that one worker writes, if the row has its sum. It is empty if the
/// file is refused.
fn picture_of<R: Threads + Wait + Sync>(
    rt: &R,
    row: &Row<'_>,
    bytes: &[u8],
    out: &mut Differences,
) -> Vec<u8> {
    if row.status == 2 {
        return Vec::new(out.alloc);
    }
    if let Some((_size, digits)) = row.picture.split_once(" sum ") {
        let text = written(rt, out.alloc, bytes, row.first).0;
        compare_sum(text.as_slice(), digits, out);
        return text;
    }
    match picture(out.alloc, row.picture) {
        Ok(text) => text,
        Err(error) => {
            out.fail(error);
            Vec::new(out.alloc)
        }
    }
}

/// Checks a case's file on each path.
fn check_paths<R: Threads + Wait + Sync>(rt: &R, case: &Case<'_>, out: &mut Differences) {
    check_runs(rt, case, out);
    check_scans(rt, case, out);
    if case.row.first.is_some() {
        return;
    }
    check_as_archive(rt, case, out);
    check_arrivals(case, out);
    check_places(case, out);
    check_buffers(case, out);
    if !case.is_refused() {
        check_lines_of(case, out);
        check_damage(case, out);
    }
}

/// Checks a file of a row on each path.
fn check_file<R: Threads + Wait + Sync>(
    rt: &R,
    row: &Row<'_>,
    bytes: &[u8],
    out: &mut Differences,
) {
    let alloc = out.alloc;
    let picture = picture_of(rt, row, bytes, out);
    let mut report = String::new(alloc);
    out.note(write_lines(&mut report, row.report));
    let case = Case {
        alloc,
        row,
        bytes,
        picture: picture.as_slice(),
        report: report.as_str(),
        header: header_of(alloc, bytes),
    };
    check_paths(rt, &case, out);
}

/// Checks a row's file on each path, cut to each of its lengths.
fn check_lengths<R: Threads + Wait + Sync>(
    rt: &R,
    row: &Row<'_>,
    bytes: &[u8],
    out: &mut Differences,
) {
    let (least, most) = row.cut.unwrap_or((bytes.len(), bytes.len()));
    for length in least..=most {
        let before = out.len();
        check_file(rt, row, front(bytes, length), out);
        if out.len() > before {
            out.add("the file has", length, " bytes");
        }
    }
}

/// Checks a row's file.
pub(crate) fn check_row<R: Threads + Wait + Sync>(rt: &R, row: &Row<'_>, out: &mut Differences) {
    match file(out.alloc, row.file) {
        Ok(bytes) => {
            check_lengths(rt, row, bytes.as_slice(), out);
            if row.is_stored && row.status != 2 {
                check_sweep(rt, bytes.as_slice(), out);
            }
        }
        Err(error) => out.fail(error),
    }
}
