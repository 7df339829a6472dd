//! The board's rule, and the names of its steps.
ghost use Rattle.turn_board.specs.Rule.{BoardRule};
ghost use Rattle.turn_board.specs.Steps.{TakeTells, GiveTells, LoadTells};
ghost use Rattle.turn_board.specs.Views.{
  opening_view,
  spent_view,
  after_split,
  split_off,
  after_join,
};

use crate::{Histories, View};
use atomic_table::{Join, Play, Split, TableRule};
use std::snapshot::Snapshot;

pub(crate) struct Rule;

impl<S: Histories> TableRule<Option<S>, View<S::World, S::Event>, Snapshot<S>> for Rule {
    ghost holds = { λ first s. BoardRule S.world S.history (S.world first.value) s };

    ghost first = { λ first. opening_view (S.world first.value) (S.history first.value) };
}

/// One `fetch_or` of 1, which takes the slot where it found the state at home.
pub(crate) struct TakeStep;

impl<S: Histories> Play<Option<S>, View<S::World, S::Event>> for TakeStep {
    ghost then = { TakeTells S.world S.history };
}

/// One store of twice the length of the history, which gives the slot back.
pub(crate) struct GiveStep;

impl<S: Histories> Play<Option<S>, View<S::World, S::Event>> for GiveStep {
    ghost then = { GiveTells S.world S.history };
}

/// A load, which changes nothing.
pub(crate) struct LoadStep;

impl<S: Histories> Play<Option<S>, View<S::World, S::Event>> for LoadStep {
    ghost then = { LoadTells S.world S.history };
}

/// One share goes to a new seat.
pub(crate) struct SplitStep;

impl<W, E> Split<View<W, E>> for SplitStep {
    ghost left = { after_split };

    ghost right = { split_off };
}

/// Another seat's share and history.
pub(crate) struct JoinStep;

impl<W, E> Join<View<W, E>> for JoinStep {
    ghost both = { after_join };

    ghost spent = { spent_view };
}
