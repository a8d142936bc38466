//! Threads that wait for what others count.

use std::sync::atomic::{AtomicU32, Ordering};
use std::thread;

/// The maximum number of times that a thread looks.
const TURNS: u32 = 10_000_000;

/// Waits until a counter has reached a number, and returns whether it has: a thread does not wait for ever.
pub fn has_come(counter: &AtomicU32, number: u32) -> bool {
    for _turn in 0..TURNS {
        if counter.load(Ordering::SeqCst) >= number {
            return true;
        }
        thread::yield_now();
    }
    false
}
