//! What holds of every outcome of a whole and steady world.

ghost use Rattle.std.specs.Prelude.{◌≡◌, Bool};
ghost use Rattle.result_cache.specs.declared.request.RequestResult.{RequestResult};
ghost use Rattle.build_meaning.specs.World.{World};
ghost use Rattle.build_meaning.specs.Meaning.{Given};
ghost use Rattle.build_meaning.specs.Demand.{IsWhole, IsSteady};
ghost use Rattle.build_outcome.specs.declared.outcome.Outcome.{Outcome};
ghost use Rattle.build_outcome.specs.Outcomes.{built, IsOutcome};

/// Every outcome of a whole and steady world is that of its meaning: the status, what is printed
/// and what is done to files are told by the meaning's result and journal, whatever the order of
/// the events, and the build is not stopped.
pub fn outcome_is_the_meanings<P, I, A>()
    ensures { (w : World P I A) (out : Given P I RequestResult) → IsWhole w out →
        IsSteady out.demand → (low : Bool) (outcome : Outcome) →
        IsOutcome w low outcome → outcome ≡ built low out.value out.journal }
{}

/// Two outcomes of a whole and steady world are equal.
pub fn outcomes_agree<P, I, A>()
    ensures { (w : World P I A) (out : Given P I RequestResult) → IsWhole w out →
        IsSteady out.demand → (low : Bool) (one other : Outcome) →
        IsOutcome w low one → IsOutcome w low other → one ≡ other }
{}
