//! `cases TABLE ..`: decodes the file of each row of a table on every path of the decoder, or makes the row's run of `jri`, of
//! `jri_mend` or of `jri_check`, over a machine of memory or on the disk, and compares what comes of it with the row. It writes a line for each difference, and `every case holds` if there
//! is none. The exit status is 0 then, otherwise 1.
//!
//! The tables are text that the program reads when it runs: a row needs no proof. The first lines of each explain it.
#![tactic(auto)]

mod archives;
mod arrival;
mod buffers;
mod case;
mod commands;
mod damage;
mod differences;
mod disk;
mod lines;
mod machine;
mod places;
mod row;
mod runs;
mod scans;
mod sums;
mod sweeps;
mod texts;

use crate::archives::check_archive;
use crate::case::check_row;
use crate::commands::{Program, check_command};
use crate::differences::Differences;
use crate::disk::check_on_disk;
use crate::row::{field, row_of};
use std::io::{Result as IoResult, Write};
use std::process::ExitCode;
use std::sync::Wait;
use std::thread::Threads;
use std::{env, fs};

/// Returns whether a line of a table, without the spaces around it, is a row.
fn is_row(line: &str) -> bool {
    let is_other = line.starts_with('#') || line.starts_with('=') || line.starts_with('/');
    !line.is_empty() && !is_other
}

/// Returns a row without the sign of its kind.
fn fields_of(line: &str) -> &str {
    line.strip_prefix('$')
        .or(line.strip_prefix('+'))
        .or(line.strip_prefix('%'))
        .or(line.strip_prefix('&'))
        .unwrap_or(line)
}

/// Checks a row of a table.
fn check_line<R: Threads + Wait + Sync>(
    host: &HostRuntime,
    rt: &R,
    table: &str,
    line: &str,
    out: &mut Differences,
) {
    if line.starts_with('$') {
        check_command(rt, Program::Decode, table, fields_of(line), out);
    } else if line.starts_with('+') {
        check_command(rt, Program::Mend, table, fields_of(line), out);
    } else if line.starts_with('%') {
        check_archive(rt, table, fields_of(line), out);
    } else if line.starts_with('&') {
        check_on_disk(host, rt, table, fields_of(line), out);
    } else {
        match row_of(line) {
            Ok(row) => check_row(rt, &row, out),
            Err(error) => out.fail(error),
        }
    }
}

/// The number of rows of the tables that are checked on each path, and of rows that are not or that differ.
#[derive(Clone, Copy)]
struct Rows {
    all: u32,
    wrong: u32,
}

impl Rows {
    /// Counts a row.
    fn count(&mut self, differences: &Differences) {
        if !differences.has_failed() {
            self.all = self.all.saturating_add(1);
        }
        if differences.has_failed() || differences.len() > 0 {
            self.wrong = self.wrong.saturating_add(1);
        }
    }

    /// Checks each row of a table, and writes the differences.
    fn check_table<R: Threads + Wait + Sync, W: Write>(
        &mut self,
        host: &HostRuntime,
        rt: &R,
        table: &str,
        out: &mut W,
    ) -> IoResult<()> {
        let alloc = host.alloc();
        let mut number: usize = 0;
        for line in table.lines() {
            number = number.saturating_add(1);
            let line = line.trim();
            if is_row(line) {
                let mut differences = Differences::new(alloc);
                check_line(host, rt, table, line, &mut differences);
                self.count(&differences);
                differences.write(number, field(fields_of(line), 0), out)?;
            }
        }
        Ok(())
    }

    /// Writes whether the tables have rows and every row holds, and returns it.
    fn report<W: Write>(self, out: &mut W) -> IoResult<bool> {
        let holds = self.all > 0 && self.wrong == 0;
        if self.all == 0 {
            writeln!(out, "the tables have no rows")?;
        } else if holds {
            writeln!(out, "every case holds")?;
        }
        Ok(holds)
    }
}

/// Checks the tables that the arguments name, and returns whether they have rows and every row holds.
fn check<R: Threads + Wait + Sync, W: Write>(
    rt: &HostRuntime,
    threads: &R,
    out: &mut W,
) -> IoResult<bool> {
    let mut rows = Rows { all: 0, wrong: 0 };
    for name in env::args(rt)?.skip(1) {
        let table = fs::read_to_string(rt, name.as_str())?;
        rows.check_table(rt, threads, table.as_str(), out)?;
    }
    rows.report(out)
}

fn main(rt: HostRuntime) -> ExitCode {
    match check(&rt, &rt, &mut rt.stdout()) {
        Ok(true) => ExitCode::SUCCESS,
        Ok(false) => ExitCode::FAILURE,
        Err(error) => {
            let _ = writeln!(rt.stderr(), "cannot read a table, or write: {error}");
            ExitCode::FAILURE
        }
    }
}
