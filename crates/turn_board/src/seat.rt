use crate::{Histories, View};
use std::marker::Model;

/// The right to take turns at a board. Contracts see which board it is of, its world, the history
/// that it last saw, its share, whether it has the state out, and its misses.
#[derive(Drop)]
pub struct Seat<S: Histories> {
    pub(crate) place: atomic_table::Seat<Option<S>, View<S::World, S::Event>>,
}

impl<S: Histories> Model for Seat<S> {
    ghost use Rattle.turn_board.specs.Seats.{SeatFacts, seat_facts, HasSlotWhereOut};

    ghost Value = { SeatFacts S.World S.Event };

    ghost view = { λ s. seat_facts s.place.table_id s.place.me.0 };

    ghost invariant = { λ s. HasSlotWhereOut s.place.me };
}
