//! What an incremental build has to do with a clean one. (Incremental builds.)
//!
//! `specs/` has the definitions. The function here is the law that is proved of them: it runs no
//! code, and its contract is what is proved. The law speaks of any two worlds.
#![tactic(auto)]

ghost use Rattle.std.specs.Prelude.{◌≡◌, Bool, IsTrue, Option, Some};
ghost use Rattle.msb_laws.specs.Words.{Text, Path};
ghost use Rattle.result_cache.specs.declared.request.RequestKey.{RequestKey};
ghost use Rattle.result_cache.specs.declared.request.RequestResult.{RequestResult};
ghost use Rattle.result_cache.specs.Lists.{In};
ghost use Rattle.build_meaning.specs.World.{World};
ghost use Rattle.build_meaning.specs.Meaning.{Given, meaning, requested};
ghost use Rattle.build_meaning.specs.Demand.{IsSteady};
ghost use Rattle.build_meaning.specs.Sound.{IsBuilt};
ghost use Rattle.build_incremental.specs.Alike.{AlikeJournals};
ghost use Rattle.build_incremental.specs.Joins.{AreOfOneRun};
ghost use Rattle.build_incremental.specs.SideBySide.{SideBySide, IsAny};

/// Where two worlds go side by side, the first one gives what the second one gives, and leaves a
/// journal that is alike.
///
/// The second world has a meaning, in which each run has one record, and of calls made at once that
/// write or remove one path, all acts on it are of one run. Nothing is asked of the first world,
/// not that it has a meaning and not that it is steady: it has a meaning then, which asks for the
/// same requests.
pub fn worlds_go_alike<P, I, A>()
    ensures { (files : Path → Option Text) (may_act : Path → Bool)
        (first second : World P I A) (out : Given P I RequestResult) →
        meaning second ≡ Some out → IsSteady out.demand → AreOfOneRun out.demand →
        SideBySide files (λ path. IsTrue (may_act path)) IsAny (IsBuilt out.demand) first second →
        (other : Given P I RequestResult) × (meaning first ≡ Some other)
        × (other.value ≡ out.value)
        × ((key : RequestKey) → In (requested key) other.demand → In (requested key) out.demand)
        × AlikeJournals files (λ path. IsTrue (may_act path)) other.journal out.journal }
{}
