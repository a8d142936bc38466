//! `jri [--workers N] [--first K] [-o PICTURE] [FILE]`: decodes a JPEG file to a Netpbm image.
//! `jri --output-dir DIR FILE..` decodes many, and `jri --info FILE..` prints what their headers say.
#![tactic(auto)]

use jri_engine::{
    Mode, describe_request, many_request, program, program_for_headers, program_for_many,
};
use jri_machine::{Ended, Machine, arguments, hold_streams};
use std::io::Result as IoResult;

/// Returns what the arguments ask for; one decoding if they are not text.
fn mode_of(words: &IoResult<Vec<String>>) -> Mode {
    match words {
        Ok(words) => Mode::of(words),
        Err(_) => Mode::Decode,
    }
}

fn main(rt: HostRuntime) -> Ended {
    let _held = hold_streams(&rt);
    let alloc = rt.alloc();
    let mut machine = Machine { rt: &rt };
    let mut errors = rt.stderr();
    let words = arguments(&rt);
    match (mode_of(&words), words) {
        (Mode::DecodeEach, Ok(words)) => {
            let request = many_request(alloc, &words);
            program_for_many(&rt, alloc, &mut machine, request, &mut errors)
        }
        (Mode::Describe, Ok(words)) => {
            let request = describe_request(alloc, &words);
            program_for_headers(alloc, &machine, request, &mut errors)
        }
        (_, words) => program(&rt, alloc, &mut machine, words, &mut errors),
    }
}
