//! A decoding of bytes as the program does it.

ghost use Rattle.std.specs.Prelude.{◌≤◌};
ghost use Rattle.jr_base.specs.declared.limits.TheConstants.{MAX_WORKERS};

use jr_paint::Tally;
use jr_wall::{Gate, Piece};
use jri_engine::{Fault, Report, run};
use std::io::{Read, Write};
use std::sync::Wait;
use std::thread::Threads;

/// A gate that holds no call, but reports that it may: several workers decode each small image of several intervals.
pub(crate) struct HoldingGate;

impl Gate for HoldingGate {
    fn pass(&self, _number: u32) {}

    fn made(&self, _piece: &Piece) {}
}

/// Returns the outcome of a run, and its output.
pub(crate) fn outcome_of<
    R: Threads + Wait + Sync + AllocGlobal,
    I: Read + Drop,
    O: Write + Drop,
    G: Gate + Sync,
>(
    rt: &R,
    input: I,
    output: O,
    workers: u32,
    first: Option<u32>,
    gate: &G,
) -> (Result<Report, Fault>, Tally<O>)
    requires some { 1 ≤ workers }
    requires few { workers ≤ MAX_WORKERS }
{
    let mut input = Tally::of(input);
    let mut output = Tally::of(output);
    let outcome = run(
        rt,
        rt.alloc(),
        &mut input,
        &mut output,
        workers,
        first,
        gate,
    );
    (outcome, output)
}
