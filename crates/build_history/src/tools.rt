//! Which tools the bodies of a history have used. (Target element; Task element.)

ghost use Rattle.std.specs.Prelude.{◌≡◌, ℕ, List};
ghost use Rattle.result_cache.specs.declared.request.RequestResult.{RequestResult};
ghost use Rattle.result_cache.specs.Journal.{Journal};
ghost use Rattle.result_cache.specs.Lists.{In};
ghost use Rattle.build_meaning.specs.declared.event.Event.{Event};
ghost use Rattle.build_meaning.specs.World.{World};
ghost use Rattle.build_meaning.specs.Meaning.{Given};
ghost use Rattle.build_meaning.specs.Demand.{IsWhole, IsSteady};
ghost use Rattle.build_meaning.specs.State.{State, ToolsUsed};
ghost use Rattle.build_meaning.specs.History.{IsHistory, EndsWith};
ghost use Rattle.build_history.specs.Uses.{AreMeant, uses_in, uses_of};

/// In every legal history the uses of each finished run, in order, are those of its body, once.
pub fn runs_use_tools_once<P, I, A>()
    ensures { (w : World P I A) (events : List Event) (s : State P I A) → IsHistory w events s →
        (t : ToolsUsed I) → In t s.tools_used →
        uses_of t.run (uses_in w events) ≡ t.tools }
{}

/// Where the root of a history of a whole and steady world is done, tools were used as the meaning
/// uses them: those of each run as in one of its bodies, and where no calls are made at once as
/// often as there.
pub fn tools_are_used_as_meant<P, I, A>()
    ensures { (w : World P I A) (out : Given P I RequestResult) → IsWhole w out →
        IsSteady out.demand →
        (events : List Event) (s : State P I A) → IsHistory w events s →
        (result : RequestResult) (journal : Journal) →
        EndsWith s result journal → AreMeant out (uses_in w events) }
{}
