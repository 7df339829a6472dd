//! What the verdict of a world says of its meaning. The laws run no code: their contracts are what
//! is proved.

ghost use Rattle.std.specs.Prelude.{◌≡◌, ◌≤◌, ℕ, length};
ghost use Rattle.result_cache.specs.declared.request.RequestResult.{RequestResult};
ghost use Rattle.build_meaning.specs.World.{World};
ghost use Rattle.build_meaning.specs.Meaning.{Given};
ghost use Rattle.build_meaning.specs.Demand.{IsWhole, IsSteady, built_runs};
ghost use Rattle.build_steady.specs.Verdicts.{most_bodies, verdict_of};
ghost use Rattle.build_steady.specs.declared.verdict.Verdict.TheVariants.{Steady};

/// A world is said to be steady exactly where it is whole and steady, and its meaning makes so many
/// bodies, no more than a check makes. (MSBuild task; Building projects in parallel.)
pub fn steady_is_whole_and_steady<P, I, A>()
    ensures yes { (w : World P I A) (n : ℕ) → verdict_of w ≡ Steady n →
        (out : Given P I RequestResult) × IsWhole w out × IsSteady out.demand
        × (length (built_runs out.demand) ≡ n) × (n ≤ most_bodies) }
    ensures told { (w : World P I A) (out : Given P I RequestResult) → IsWhole w out →
        IsSteady out.demand → length (built_runs out.demand) ≤ most_bodies →
        verdict_of w ≡ Steady (length (built_runs out.demand)) }
{}
