//! What a world means, and what its runs leave in a journal that has not made them.

ghost use Rattle.std.specs.Prelude.{◌≡◌, ◌+◌, ◌∷◌, [], ℕ, suc, false, List, length, Some};
ghost use Rattle.result_cache.specs.declared.run.RunId.{RunId};
ghost use Rattle.result_cache.specs.declared.request.RequestKey.{RequestKey};
ghost use Rattle.result_cache.specs.declared.request.RequestResult.{RequestResult};
ghost use Rattle.result_cache.specs.declared.record.Record.{Record};
ghost use Rattle.result_cache.specs.Lists.{In};
ghost use Rattle.result_cache.specs.Journal.{Journal, end_of, ended, has, add};
ghost use Rattle.result_cache.specs.Table.{Records};
ghost use Rattle.result_cache.specs.Replay.{replay, replay_all};
ghost use Rattle.build_meaning.specs.World.{World};
ghost use Rattle.build_meaning.specs.Walk.{Walk, Body};
ghost use Rattle.build_meaning.specs.SoFar.{ToolUse, nothing_yet, runs_of};
ghost use Rattle.build_meaning.specs.Meaning.{
  Demanded,
  Given,
  deepest,
  at_once,
  body,
  walk,
  request,
  meaning,
};
ghost use Rattle.build_meaning.specs.Derived.{OfWalk, OfMeaning};
ghost use Rattle.build_meaning.specs.Demand.{IsSteady, IsSingle};
ghost use Rattle.build_meaning.specs.Sound.{IsMade, HasMade, IsSound, IsPart};
ghost use Rattle.build_meaning.specs.Stands.{Contained};

/// What the meaning gives has a derivation, and what has a derivation is the meaning, of which all
/// is so as the derivation says. What is left of a request by a derivation is what the recursion
/// gives.
pub fn derivation_is_the_meaning<P, I, A>()
    ensures given { (w : World P I A) (out : Given P I RequestResult) → meaning w ≡ Some out →
        OfMeaning w (Contained out) out.value out.journal }
    ensures told { (w : World P I A) (demand : List (Demanded P I)) (result : RequestResult)
        (journal : Journal) → OfMeaning w (λ e. In e demand) result journal →
        (out : Given P I RequestResult) × (meaning w ≡ Some out) × (out.value ≡ result)
        × (out.journal ≡ journal) × IsPart out.demand demand }
    ensures left { (w : World P I A) (out : Given P I RequestResult) (path : List RunId)
        (j : Journal) (runs : List RunId) (x : Walk P I A) (result : RequestResult) (k : Journal)
        (depth : ℕ) → depth + suc (length path) ≡ deepest →
        OfWalk w (Contained out) path j runs x result k →
        (y : Given P I RequestResult) × (walk w (request w depth) path x j runs ≡ Some y)
        × (y.value ≡ result) × (y.journal ≡ k) }
    ensures once { (w : World P I A) (demand other : List (Demanded P I))
        (result another : RequestResult) (journal last : Journal) →
        OfMeaning w (λ e. In e demand) result journal →
        OfMeaning w (λ e. In e other) another last →
        OfMeaning w (λ e. In e demand × In e other) result journal
        × (result ≡ another) × (journal ≡ last) }
    ensures made { (w : World P I A) (demand : List (Demanded P I)) (result : RequestResult)
        (journal : Journal) → OfMeaning w (λ e. In e demand) result journal →
        (run : RunId) (made : Record) → In (ended run made) journal →
        IsMade demand run made }
{}

/// A world where no calls are made at once makes each run once, so it is steady.
pub fn single_is_steady<P, I, A>()
    ensures { (w : World P I A) (out : Given P I RequestResult) → meaning w ≡ Some out →
        IsSingle out.demand → IsSteady out.demand }
{}

/// Building a run, and replaying its record by a table, give one journal, whichever journal it is.
///
/// The table's records and those of the journal are such as bodies of a steady demand make, and the
/// journal is closed and has not the run.
pub fn building_is_replaying<P, I, A>()
    ensures { (w : World P I A) (demand : List (Demanded P I)) → IsSteady demand →
        (table : Records) → HasMade demand table →
        (depth : ℕ) (path : List RunId) → depth + suc (length path) ≡ deepest
        → (run : RunId) (b : Body I A) (journal : Journal) →
        IsSound demand journal → has (end_of run) journal ≡ false →
        (x : Given P I (Record × List (ToolUse I))) →
        body w (request w depth (run ∷ path)) run b journal nothing_yet ≡ Some x
        → IsPart x.demand demand → IsMade demand run x.value.0 →
        (after : Journal) → replay table run journal ≡ Some after
        → after ≡ add x.journal (ended run x.value.0) }
{}

/// Replaying the runs of calls made at once, in call order, gives the merge of the calls.
pub fn replaying_is_merging<P, I, A>()
    ensures { (w : World P I A) (demand : List (Demanded P I)) → IsSteady demand →
        (table : Records) → HasMade demand table →
        (depth : ℕ) (path : List RunId) → depth + length path ≡ deepest
        → (keys : List RequestKey) (journal : Journal) →
        IsSound demand journal → (x : Given P I (List RequestResult)) →
        at_once w (request w depth path) journal journal keys ≡ Some x → IsPart x.demand demand →
        (after : Journal) → replay_all table (runs_of x.value) journal ≡ Some after
        → after ≡ x.journal }
{}
