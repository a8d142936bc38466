//! `jri_mend [-o FILE] [--json] [--no-resync] [--borrow-headers] COPY..`: writes one JPEG file from damaged copies of it, each restart
//! interval from a copy in which it is sound. `jri_mend --trees DIRECTORY.. -o DIR` does so for each name in directories.
#![tactic(auto)]

use jri_machine::{Ended, Machine, arguments, hold_streams};
use jri_mending::{is_of_trees, program, program_for_trees, trees_request};
use std::io::Result as IoResult;

/// Returns whether the arguments ask for the mending of directories.
fn has_trees(words: &IoResult<Vec<String>>) -> bool {
    match words {
        Ok(words) => is_of_trees(words),
        Err(_) => false,
    }
}

fn main(rt: HostRuntime) -> Ended {
    let _held = hold_streams(&rt);
    let alloc = rt.alloc();
    let mut machine = Machine { rt: &rt };
    let mut errors = rt.stderr();
    let words = arguments(&rt);
    match (has_trees(&words), words) {
        (true, Ok(words)) => {
            let request = trees_request(alloc, &words);
            program_for_trees(alloc, &mut machine, request, &mut errors)
        }
        (_, words) => program(alloc, &mut machine, words, &mut errors),
    }
}
