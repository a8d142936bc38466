//! The desk and its seats.
ghost use Rattle.std.specs.Prelude.{◌≡◌, ℕ, ◌+◌, ◌-◌, ◌<◌, ◌≤◌, ◌^◌, [], ◌∷◌, ◌++◌, true, false, length, map, cond, All, IfOk, IfSome, IfNone, OnSome, MatchOption};
ghost use Rattle.std.specs.List.{range_with_len};
ghost use Rattle.jr_base.specs.declared.limits.TheConstants.{MAX_WORKERS};
ghost use Rattle.jr_cells.specs.Count.{total, times, once_below};
ghost use Rattle.jr_cells.specs.Draws.{view};
ghost use Rattle.jr_cells.specs.Values.{desk_of, fresh};

use atomic_table::{Join, Play, Shared, Split, Table, TableRule};
use jr_base::Memory;
use std::alloc::Global;
use std::collections::LinkedList;
use std::marker::Model;

// What a seat of the table knows. It has no values at run time.
pub struct SeatView {
    pub limit: u64,
    pub all: u64,
    pub drawn: LinkedList<u64>,
    pub seats: u64,
    pub ended: u64,
}

// The rule for the numbers and seats of the desk.
pub struct Rules;

impl TableRule<(), SeatView, (u64, u64)> for Rules {
    ghost use Rattle.std.specs.Prelude.{[]};
    ghost use Rattle.jr_cells.specs.Draws.{Dealt, view};

    ghost holds = { λ key s. Dealt key.0 key.1 s };

    ghost first = { λ key. view key.0 key.1 [] key.1 0 };
}

// One claim.
pub struct Claim;

impl Play<(), SeatView> for Claim {
    ghost use Rattle.jr_cells.specs.Draws.{Stated};

    ghost then = { Stated };
}

// One seat is cut off.
pub struct Cut;

impl Split<SeatView> for Cut {
    ghost use Rattle.std.specs.Prelude.{[], ◌-◌};
    ghost use Rattle.jr_cells.specs.Draws.{view};

    ghost left = { λ v. view v.limit v.all v.drawn (v.seats - 1) v.ended };

    ghost right = { λ v. view v.limit v.all [] 1 0 };
}

pub struct Both;

impl Join<SeatView> for Both {
    ghost use Rattle.std.specs.Prelude.{[], ◌+◌, ◌++◌};
    ghost use Rattle.jr_cells.specs.Draws.{view};

    ghost both = { λ v w. view v.limit v.all (v.drawn ++ w.drawn) (v.seats + w.seats) (v.ended + w.ended) };

    ghost spent = { view 0 0 [] 0 0 };
}

type Pass = atomic_table::Seat<(), SeatView>;

/// Hands out each number below its limit once.
#[derive(Drop)]
pub struct Desk {
    table: Table<(), SeatView, (u64, u64), Rules, Global>,
    limit: u32,
    seats: u32,
}

impl Model for Desk {
    ghost use Rattle.std.specs.Prelude.{◌≡◌, ◌<◌};
    ghost use Rattle.jr_cells.specs.Values.{DeskValue};

    ghost Value = { DeskValue };

    ghost view = { λ d. record { table = d.table.shared.table_id; limit = d.limit; seats = d.seats } };

    ghost invariant = { λ d. (d.table.shared.table_id.words ≡ 2) × (d.table.shared.table_id.slots ≡ 0) × (d.table.shared.key ≡ (d.limit, d.seats)) × (0 < d.seats) };
}

/// A thread's access to a desk, which claims.
#[derive(Drop)]
pub struct Seat {
    pass: Pass,
    place: u32,
    count: u32,
    ended: bool,
}

impl Model for Seat {
    ghost use Rattle.std.specs.Prelude.{◌≡◌, ◌≤◌, length, [], ◌^◌, ◌<◌, cond};
    ghost use Rattle.jr_cells.specs.Values.{SeatValue};

    ghost Value = { SeatValue };

    ghost view = { λ s. record { desk = record { table = s.pass.table_id; limit = s.pass.me.0.limit; seats = s.pass.me.0.all }; place = s.place; drawn = s.pass.me.0.drawn; ended = s.ended } };

    ghost invariant = { λ s. (s.pass.me.1 ≡ []) × (s.pass.me.0.seats ≡ 1) × (s.pass.me.0.ended ≡ cond s.ended 1 0) × (s.count ≡ length s.pass.me.0.drawn) × (s.pass.me.0.limit < 2 ^ 32) × (s.count ≤ s.pass.me.0.limit) };
}

/// The numbers that all seats of a desk drew.
#[derive(Drop)]
pub struct Drawn {
    total: u32,
}

impl Seat {
    /// Returns its index among the seats of its desk, from 0.
    pub fn place(&self) -> u32
        ensures { result ≡ self.now.place }
    {
        self.place
    }

    /// Returns the number of numbers drawn.
    pub fn drawn(&self) -> u32
        ensures { result ≡ length self.now.drawn }
    {
        self.count
    }
}

impl Model for Drawn {
    ghost use Rattle.std.specs.Prelude.{ℕ};

    ghost Value = { ℕ };

    ghost view = { λ d. d.total };
}

impl Drawn {
    pub fn total(&self) -> u32
        ensures { result ≡ self.now }
    {
        self.total
    }
}

type SharedTable = Shared<(), SeatView, (u64, u64), Rules>;

// Makes a seat for each index, of which the first view is cut.
fn deal(
    alloc: Global,
    table: &SharedTable,
    mut rest: Pass,
    limit: u32,
    seats: u32,
) -> Result<Vec<Seat>, Memory>
    requires seats { 1 ≤ seats }
    requires table { (table.now.table_id.words ≡ 2) × (table.now.key ≡ (limit, seats)) × (rest.table_id ≡ table.now.table_id) }
    requires rest { rest.me ≡ (view limit seats [] seats 0, []) }
    ensures { IfOk result (λ v. v.items ≡ map (fresh (desk_of table.now.table_id limit seats)) (range_with_len 0 seats)) }
{
    let mut list = Vec::new(alloc);
    for place in 0..seats - 1 {
        let pass = table.split_seat::<Cut>(&mut rest);
        list.push(Seat {
            pass,
            place,
            count: 0,
            ended: false,
        })?;
    }
    list.push(Seat {
        pass: rest,
        place: seats - 1,
        count: 0,
        ended: false,
    })?;
    Ok(list)
}

// One pass that knows what all these seats know.
fn merged(table: &SharedTable, mut seats: Vec<Seat>) -> Option<Pass>
    requires words { table.now.table_id.words ≡ 2 }
    requires seats { All (λ s. s.desk ≡ desk_of table.now.table_id table.now.key.0 table.now.key.1) seats.items }
    ensures none { MatchOption result (seats.items ≡ []) (λ p. p.table_id ≡ table.now.table_id) }
    ensures drawn { IfSome result (λ p. (x : ℕ) → times x p.me.0.drawn ≡ total (λ s. times x s.drawn) seats.items) }
    ensures seats { IfSome result (λ p. p.me.0.seats ≡ length seats.items) }
    ensures ended { IfSome result (λ p. p.me.0.ended ≡ total (λ s. cond s.ended 1 0) seats.items) }
{
    let Some(last) = seats.pop() else {
        return None;
    };
    let Seat {
        mut pass,
        place: _,
        count: _,
        ended: _,
    } = last;
    while let Some(seat) = seats.pop() {
        let Seat {
            pass: other,
            place: _,
            count: _,
            ended: _,
        } = seat;
        table.join_seat::<Both>(&mut pass, other);
    }
    Some(pass)
}

impl Desk {
    /// Returns a desk that hands out the numbers below `limit`, and its seats.
    pub fn open(alloc: Global, limit: u32, seats: u32) -> Result<(Desk, Vec<Seat>), Memory>
        requires { (1 ≤ seats) × (seats ≤ MAX_WORKERS) }
        ensures desk { IfOk result (λ r. (r.0.limit ≡ limit) × (r.0.seats ≡ seats)) }
        ensures seats { IfOk result (λ r. r.1.items ≡ map (fresh r.0) (range_with_len 0 seats)) }
        ensures each { IfOk result (λ r. (length r.1.items ≡ seats) × All (λ s. s.desk ≡ r.0) r.1.items) }
    {
        let (table, first) = Table::of_words(
            alloc,
            &[0, u64::from(limit)],
            &(u64::from(limit), u64::from(seats)),
        )?;
        let list = deal(alloc, &table.shared, first, limit, seats)?;
        Ok((
            Desk {
                table,
                limit,
                seats,
            },
            list,
        ))
    }

    pub fn limit(&self) -> u32
        ensures { result ≡ self.now.limit }
    {
        self.limit
    }

    /// Returns what all seats drew. The list has all seats that `open` returned.
    pub fn gather(self, seats: Vec<Seat>) -> Drawn
        requires seats { All (λ s. s.desk ≡ self) seats.items }
        requires all { length seats.items ≡ self.seats }
        ensures drawn { (x : ℕ) → total (λ s. times x s.drawn) seats.items ≡ once_below x result }
        ensures limit { result ≤ self.limit }
        ensures ended { 0 < total (λ s. cond s.ended 1 0) seats.items → result ≡ self.limit }
    {
        let Desk {
            table,
            limit,
            seats: _,
        } = self;
        let Some(pass) = merged(&table.shared, seats) else {
            unreachable!()
        };
        let closed = table.close_with(pass);
        let drawn = closed.word(0).min(u64::from(limit));
        closed.free();
        Drawn {
            total: drawn as u32,
        }
    }

    /// Draws a number, or ends the seat.
    pub fn claim(&self, seat: &mut Seat) -> Option<u32>
        requires { seat.old.desk ≡ self.now }
        ensures same { (seat.new.desk ≡ seat.old.desk) × (seat.new.place ≡ seat.old.place) }
        ensures few { length seat.new.drawn ≤ self.now.limit }
        ensures drawn { IfSome result (λ v. (v < self.now.limit) × (seat.new.drawn ≡ seat.old.drawn ++ v ∷ [])) }
        ensures goes_on { OnSome result ((seat.old.ended ≡ false) × (seat.new.ended ≡ false)) }
        ensures ended { IfNone result ((seat.new.drawn ≡ seat.old.drawn) × (seat.new.ended ≡ true)) }
    {
        if seat.ended {
            return None;
        }
        let found = self.table.shared.fetch_add::<Claim>(&mut seat.pass, 0, 1);
        if found < u64::from(self.limit) {
            seat.count += 1;
            Some(found as u32)
        } else {
            seat.ended = true;
            None
        }
    }
}
