//! Threads that help the calling one.

use std::sync::Wait;
use std::thread;
use std::thread::Threads;

/// The work of threads that help the calling one.
pub trait Help {
    /// Helps until nothing is left to do.
    fn help(&self);
}

/// The work of the calling thread while others help it: a trait, since the prover passes on what a scope's closure
/// ensures if that is the clause of a trait.
pub trait Beside {
    type Answer;

    ghost may: { Self → Type 0 };

    ghost returned: { Self → Self.Answer → Type 0 };

    /// Does it.
    fn run(self) -> Self::Answer
        requires { may self }
        ensures { returned self result };
}

/// Starts `helpers` threads that help, and runs `beside` in the calling thread. A thread that cannot be started is left
/// out.
pub fn run_beside<R: Threads + Wait + Sync, H: Help + Sync, B: Beside + Drop>(
    rt: &R,
    helpers: u32,
    help: &H,
    beside: B,
) -> B::Answer
    requires { B.may beside }
    ensures { B.returned beside result }
{
    thread::scope(
        thread::scope_env(),
        rt,
        |scope| -> B::Answer
            requires { B.may beside }
            ensures { B.returned beside result }
        {
            for _ in 0..helpers {
                let _ = scope.spawn(move || { help.help() });
            }
            beside.run()
        },
    )
}
