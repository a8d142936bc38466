//! A desk that hands out numbers to seats in threads.

ghost use Rattle.std.specs.Prelude.{◌≡◌, length, All, IfOk};

use jr_cells::{Desk, Seat};
use std::alloc::{AllocError, Global};
use std::sync::atomic::{AtomicU64, Ordering};
use std::test::Fail;
use std::thread;
use std::thread::Threads;

/// Claims until the seat has ended, and counts each number that it draws.
fn claim_all(desk: &Desk, mut seat: Seat, counts: &[AtomicU64]) -> Seat
    requires { seat.desk ≡ desk.now }
    ensures { result.desk ≡ desk.now }
{
    while let Some(number) = desk.claim(&mut seat) {
        if let Some(count) = counts.get(number as usize) {
            count.fetch_add(1, Ordering::SeqCst);
        }
    }
    seat
}

/// Each seat claims in a thread of its own.
fn claim_in_threads<R: Threads + Sync>(
    rt: &R,
    desk: &Desk,
    seats: Vec<Seat>,
    counts: &[AtomicU64],
) -> Result<Vec<Seat>, AllocError>
    requires { All (λ s. s.desk ≡ desk.now) seats.items }
    ensures len { IfOk result (λ v. length v.items ≡ length seats.items) }
    ensures desk { IfOk result (λ v. All (λ s. s.desk ≡ desk.now) v.items) }
{
    thread::map_vec(
        rt,
        seats,
        &|seat: Seat| -> Seat
            requires { seat.desk ≡ desk.now }
            ensures { result.desk ≡ desk.entry.now }
        { claim_all(desk, seat, counts) },
    )
}

/// Returns a count for each number below a limit.
fn counts_below(alloc: Global, limit: u32) -> Result<Vec<AtomicU64>, Fail> {
    let mut counts = Vec::new(alloc);
    for _ in 0..limit {
        counts.push(AtomicU64::new(0))?;
    }
    Ok(counts)
}

#[test]
fn four_threads_draw_each_number_once(rt: HostRuntime) -> Result<(), Fail> {
    let counts = counts_below(rt.alloc(), 1000)?;
    let (desk, seats) = Desk::open(rt.alloc(), 1000, 4)?;
    let ended = claim_in_threads(&rt, &desk, seats, counts.as_slice())?;
    assert!(rt; desk.gather(ended).total() == 1000);
    for count in counts.iter() {
        assert!(rt; count.load(Ordering::SeqCst) == 1);
    }
    Ok(())
}
