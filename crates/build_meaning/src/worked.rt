//! Worked worlds: the definitions, computed.

ghost use Rattle.std.specs.Prelude.{◌≡◌, ◌∷◌, [], None, Some};
ghost use Rattle.build_meaning.specs.Meaning.{meaning};
ghost use Rattle.build_meaning.specs.Demand.{IsWhole, IsSteady};
ghost use Rattle.build_meaning.specs.SharedRun as shared;
ghost use Rattle.build_meaning.specs.Circle as circular;
ghost use Rattle.build_meaning.specs.Unsteady as unsteady;

/// Two calls at once want one run: the world is whole and steady. The meaning makes the run twice;
/// the history makes it once, waits for it and uses its record, and the root's journal is that of
/// the meaning.
pub fn two_calls_want_one_run()
    ensures whole { IsWhole shared.shared_run shared.given }
    ensures steady { IsSteady shared.given.demand }
    ensures history { shared.ends_so ≡ Some (
      shared.run_of 0 ∷ shared.run_of 1 ∷ [],
      shared.root_journal ∷ shared.child_journal ∷ shared.child_journal ∷ [],
    ) }
{}

/// Three projects call each other in a circle: the world has no meaning. The fourth request's claim
/// is possible in no way.
pub fn three_projects_in_a_circle()
    ensures not_whole { meaning circular.circle ≡ None }
    ensures refused { circular.claims_after ≡ Some (None ∷ None ∷ None ∷ []) }
{}

/// One of two calls at once writes a file, and a run that both want tells whether it is there: the
/// world is whole and not steady. Two legal histories leave different bytes, by which call came
/// first.
pub fn order_tells_in_an_unsteady_world()
    ensures whole { IsWhole unsteady.unsteady unsteady.given }
    ensures not_steady { IsSteady unsteady.given.demand → ⊥ }
    ensures writer_first { unsteady.left_by unsteady.writer_first (7 ∷ []) ≡ Some (Some (1 ∷ [])) }
    ensures looker_first { unsteady.left_by unsteady.looker_first (7 ∷ []) ≡ Some (Some (0 ∷ [])) }
{}
