ghost use Rattle.std.specs.Prelude.{
  ◌≡◌,
  ◌≢◌,
  ◌+◌,
  ◌-◌,
  ◌^◌,
  ◌<◌,
  ◌≤◌,
  true,
  false,
  length,
  Some,
  IfOk,
  IfErr,
};
ghost use mathlib.Core.List.{IsPrefix};
ghost use Rattle.turn_board.specs.Taken.{IfTaken, IfHeld};
ghost use Rattle.turn_board.specs.Views.{longer};
ghost use Rattle.turn_board.specs.Seats.{opening_seat};

use crate::rule::{GiveStep, JoinStep, LoadStep, Rule, SplitStep, TakeStep};
use crate::{Histories, Seat, View};
use atomic_table::Table;
use crossbeam_utils::sync::EventCount;
use std::alloc::Global;
use std::hint;
use std::marker::Model;
use std::snapshot::Snapshot;
use std::sync::Wait;

/// What a take gives.
#[derive(Drop)]
pub enum Taken<S> {
    /// The state, which the seat has out until it gives it back.
    State(S),
    /// Another seat has the state out.
    Held,
}

/// There was no memory. The state comes back.
#[derive(Drop)]
pub struct Refused<S> {
    pub state: S,
}

/// The place of a state that threads share in turns. Contracts see only which board it is.
#[derive(Drop)]
pub struct Board<S: Histories> {
    table: Table<Option<S>, View<S::World, S::Event>, Snapshot<S>, Rule, Global>,
    /// Where seats wait for the state to come home. Each give is told there.
    gives: EventCount,
    /// Where idle seats wait for a wake.
    wakes: EventCount,
}

/// How often a thread looks whether the state is home before it sleeps: for some microseconds,
/// since most turns have the state out no longer. A look takes about a nanosecond.
const LOOKS: u32 = 8_192;

impl<S: Histories> Model for Board<S> {
    ghost use Rattle.std.specs.Prelude.{◌≡◌};
    ghost use Rattle.atomic_table.specs.Seated.{TableId};

    ghost Value = { TableId };

    ghost view = { λ b. b.table.shared.table_id };

    ghost invariant = { λ b. (b.table.shared.table_id.words ≡ 1)
        × (b.table.shared.table_id.slots ≡ 1) };
}

impl<S: Histories> Board<S> {
    /// Whether a seat has the state out.
    fn is_out(&self) -> bool {
        self.table.shared.peek(0) % 2 == 1
    }

    /// Whether the state is home at one of some looks.
    fn is_home_soon(&self) -> bool {
        for _ in 0..LOOKS {
            if !self.is_out() {
                return true;
            }
            hint::spin_loop();
        }
        false
    }
}

impl<S: Histories + Send> Board<S> {
    /// A board with this state at home, and its one seat, which has all 128 shares. Want of memory
    /// hands the state back.
    pub fn open(alloc: Global, state: S) -> Result<(Board<S>, Seat<S>), Refused<S>>
        requires { length (S.history state) < 2 ^ 63 }
        ensures seat { IfOk result (λ b. b.1 ≡ opening_seat b.0 (S.world state) (S.history state)) }
        ensures refused { IfErr result (λ r. r.state ≡ state) }
    {
        let Ok(mut slots) = Vec::with_capacity(alloc, 1) else {
            return Err(Refused { state });
        };
        let word = 2 * state.events();
        let first = Snapshot::of(&state);
        slots.push_reserved(Some(state));
        match Table::new(alloc, &[word], slots, &first) {
            Ok((table, place)) => {
                let (gives, wakes) = (EventCount::new(), EventCount::new());
                let board = Board {
                    table,
                    gives,
                    wakes,
                };
                Ok((board, Seat { place }))
            }
            Err(atomic_table::Refused { mut slots }) => match slots.pop() {
                Some(Some(state)) => Err(Refused { state }),
                _ => unreachable!(),
            },
        }
    }

    /// The length of the history that was given last. It is no less than what the seat saw, and
    /// just that for a seat that has the state out or all shares.
    pub fn seen(&self, seat: &mut Seat<S>) -> u64
        requires { seat.old.board ≡ self.now }
        ensures kept { seat.new ≡ seat.old }
        ensures length { length seat.old.seen ≤ result }
        ensures own { seat.old.has_state ≡ true → result ≡ length seat.old.seen }
        ensures alone { seat.old.share ≡ 128 → result ≡ length seat.old.seen }
    {
        self.table.shared.load::<LoadStep>(&mut seat.place, 0) / 2
    }

    /// Takes the state out, with a history that continues what the seat saw. Where another seat has
    /// it out, this call doesn't wait: it says so, and the seat's misses rise. A seat with all
    /// shares never misses.
    pub fn take(&self, seat: &mut Seat<S>) -> Taken<S>
        requires board { seat.old.board ≡ self.now }
        requires home { seat.old.has_state ≡ false }
        ensures state { IfTaken result (λ state. seat.new
            ≡ record seat.old { seen = S.history state; has_state = true }) }
        ensures world { IfTaken result (λ state. seat.old.world ≡ Some (S.world state)) }
        ensures continues { IfTaken result (λ state. IsPrefix seat.old.seen (S.history state)) }
        ensures held { IfHeld result (seat.new ≡ record seat.old { misses = seat.old.misses + 1 }) }
        ensures alone { IfHeld result (seat.old.share ≢ 128) }
    {
        let shared = &self.table.shared;
        if shared.fetch_or::<TakeStep>(&mut seat.place, 0, 1) % 2 == 1 {
            return Taken::Held;
        }
        match shared.exchange(&mut seat.place, 0, None) {
            Some(state) => Taken::State(state),
            None => unreachable!(),
        }
    }

    /// Gives the state back, with all that was done with it since it was taken. One of the
    /// threads that sleep in `park_held` is woken.
    pub fn give(&self, seat: &mut Seat<S>, state: S)
        requires board { seat.old.board ≡ self.now }
        requires out { seat.old.has_state ≡ true }
        requires world { seat.old.world ≡ Some (S.world state) }
        requires continues { IsPrefix seat.old.seen (S.history state) }
        requires few { length (S.history state) < 2 ^ 63 }
        ensures { seat.new ≡ record seat.old { seen = S.history state; has_state = false } }
    {
        let word = 2 * state.events();
        let shared = &self.table.shared;
        drop(shared.exchange(&mut seat.place, 0, Some(state)));
        shared.store::<GiveStep>(&mut seat.place, 0, word);
        self.gives.notify_one();
    }

    /// A new seat, which has one share of this one's and has seen the same history.
    pub fn split(&self, seat: &mut Seat<S>) -> Seat<S>
        requires board { seat.old.board ≡ self.now }
        requires share { 2 ≤ seat.old.share }
        requires home { seat.old.has_state ≡ false }
        ensures new { result ≡ record seat.old { share = 1; misses = 0 } }
        ensures kept { seat.new ≡ record seat.old { share = seat.old.share - 1 } }
    {
        Seat {
            place: self.table.shared.split_seat::<SplitStep>(&mut seat.place),
        }
    }

    /// Ends the other seat. This one has then both shares, and the longer of both histories, which
    /// both begin.
    pub fn join(&self, seat: &mut Seat<S>, other: Seat<S>)
        requires board { (seat.old.board ≡ self.now) × (other.board ≡ self.now) }
        requires home { (seat.old.has_state ≡ false) × (other.has_state ≡ false) }
        ensures kept { seat.new ≡ record seat.old
            { seen = longer seat.old.seen other.seen; share = seat.old.share + other.share } }
        ensures continues { IsPrefix seat.old.seen seat.new.seen
            × IsPrefix other.seen seat.new.seen }
    {
        let shared = &self.table.shared;
        shared.join_seat::<JoinStep>(&mut seat.place, other.place);
        // The join shows nothing of the shorter history; a load does.
        shared.load::<LoadStep>(&mut seat.place, 0);
    }

    /// Ends the board, by the seat that has all shares. The state has just the history that this
    /// seat saw.
    pub fn close(self, seat: Seat<S>) -> S
        requires board { seat.board ≡ self }
        requires whole { seat.share ≡ 128 }
        requires home { seat.has_state ≡ false }
        ensures world { seat.world ≡ Some (S.world result) }
        ensures history { S.history result ≡ seat.seen }
    {
        let Board {
            table,
            gives: _,
            wakes: _,
        } = self;
        let mut closed = table.close_with(seat.place);
        let slot = closed.take(0);
        closed.free();
        match slot {
            Some(state) => state,
            None => unreachable!(),
        }
    }

    /// Waits while another seat has the state out: looks whether it is home, and sleeps after some
    /// looks until a give wakes this thread. It may also return for no reason. Whoever comes back
    /// from here takes the state next, since its give wakes the next one that sleeps here.
    pub fn park_held<R: Wait>(&self, rt: &R) {
        if self.is_home_soon() {
            return;
        }
        let key = self.gives.prepare_wait();
        if !self.is_out() {
            return;
        }
        key.wait(rt);
    }

    /// Sleeps while the history that was given last has this length, until a wake. It may also
    /// return for no reason.
    pub fn park_idle<R: Wait>(&self, rt: &R, number: u64) {
        let key = self.wakes.prepare_wait();
        if self.table.shared.peek(0) / 2 != number {
            return;
        }
        key.wait(rt);
    }

    /// Wakes one thread that sleeps in `park_idle`, if there is one.
    pub fn wake_one(&self) {
        self.wakes.notify_one();
    }
}
