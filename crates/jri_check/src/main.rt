//! `jri_check [--map] [--json] [-q] [--counts] [-j N] [-r] [--files0-from LIST] [--state STATE [--verify]] [--strict] FILE..`:
//! reports which JPEG files are sound, and what is damaged of the others.
#![tactic(auto)]

use jri_archive::{Streams, TerminalProgress, program};
use jri_machine::{Ended, Machine, byte_arguments, hold_streams};
use std::alloc::Global;
use std::io::IsTerminal;

fn main(rt: HostRuntime) -> Ended {
    let _held = hold_streams(&rt);
    let alloc: Global = rt.alloc();
    let (out, errors) = (rt.stdout(), rt.stderr());
    let terminal = if errors.is_terminal() {
        Some(rt.stderr())
    } else {
        None
    };
    let progress = TerminalProgress::of(&rt, terminal, out.is_terminal());
    let streams = Streams {
        out,
        errors,
        progress,
    };
    let (directory, lists) = (Machine { rt: &rt }, Machine { rt: &rt });
    let words = byte_arguments(&rt, alloc);
    program(&rt, alloc, directory, &lists, words, streams)
}
