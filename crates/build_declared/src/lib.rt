//! What an incremental build has to do with a clean one. (Incremental builds.)
//!
//! `specs/` has the definitions: the pieces of a run, and when a set of projects is declared,
//! fresh, up to date, settled and repeated. The functions here are the laws that are proved of
//! them: they run no code, and their contracts are what is proved.
#![tactic(auto)]

ghost use Rattle.std.specs.Prelude.{◌≡◌, ℕ, List, Some};
ghost use Rattle.msb_values.specs.declared.mode.Mode.TheVariants.{Incremental};
ghost use Rattle.file_store.specs.declared.tree.File.{File};
ghost use Rattle.result_cache.specs.declared.request.RequestResult.{RequestResult};
ghost use Rattle.file_store.specs.Commits.{AreDone};
ghost use Rattle.file_store.specs.declared.tree.Tree.{Tree};
ghost use Rattle.build_world.specs.declared.world.World.{World};
ghost use Rattle.build_meaning.specs.Meaning.{Given, meaning};
ghost use Rattle.build_meaning.specs.Demand.{IsWhole};
ghost use Rattle.msb_files.specs.FinalTree.{commit_list, IsFinalTree};
ghost use Rattle.task_trait.specs.declared.tools.ToolAnswer.{ToolAnswer};
ghost use Rattle.task_trait.specs.declared.tools.ToolInput.{ToolInput};
ghost use Rattle.request_machine.specs.Walk.{Site};
ghost use Rattle.request_machine.specs.Worlds.{world_of};
ghost use Rattle.build_declared.specs.Clean.{IsTrustworthy, GivesClean};
ghost use Rattle.build_declared.specs.Builds.{in_mode};
ghost use Rattle.build_declared.specs.Declared.{IsDeclared};
ghost use Rattle.build_declared.specs.Fresh.{IsFresh};
ghost use Rattle.build_declared.specs.NoOlder.{IsNoOlder};
ghost use Rattle.build_declared.specs.Repeated.{IsSettledBuild, IsRepeatedBuild, clean_over, over};
ghost use Rattle.build_declared.specs.UpToDate.{IsUpToDate, SkipsEach};
ghost use Rattle.build_declared.specs.Written.{bytes_in};

/// A build of declared and fresh projects gives what the clean build of the same files gives: the
/// same result, and trees with the same bytes at each path. (Incremental builds.)
///
/// Nothing is asked of the build itself: its world is whole then.
pub fn incremental_is_clean()
    ensures whole { (tools : List ℕ → ToolInput → ToolAnswer) (w : World)
        (clean : Given Site ToolInput RequestResult) → IsTrustworthy tools w clean →
        (out : Given Site ToolInput RequestResult) × IsWhole (world_of tools w) out
        × GivesClean w.tree.files out clean }
    ensures meant { (tools : List ℕ → ToolInput → ToolAnswer) (w : World)
        (clean : Given Site ToolInput RequestResult) → IsTrustworthy tools w clean →
        (out : Given Site ToolInput RequestResult) → meaning (world_of tools w) ≡ Some out →
        GivesClean w.tree.files out clean }
    ensures trees { (tools : List ℕ → ToolInput → ToolAnswer) (w : World)
        (clean : Given Site ToolInput RequestResult) → IsTrustworthy tools w clean →
        (out : Given Site ToolInput RequestResult) → meaning (world_of tools w) ≡ Some out →
        (after other : List File) → IsFinalTree w.tree.files out.journal after →
        IsFinalTree w.tree.files clean.journal other →
        (path : List ℕ) → bytes_in after path ≡ bytes_in other path }
{}

/// The tree that a build leaves is one over which the next build may be trusted again: where what
/// it is given is declared, fresh and settled, and the clean build is repeated over the tree that
/// it left, that clean build is fresh, and in the tree no output of a piece is older than the
/// inputs that it is paired with. (Incremental builds.)
///
/// The tree is the one that the commit leaves: the last act on each path is done, in the journal's
/// order, and a file that is written gets a stamp that is greater than all others. The build may be
/// a clean one itself.
pub fn stays_fresh()
    ensures fresh { (tools : List ℕ → ToolInput → ToolAnswer) (w : World) (left : Tree)
        (clean out again : Given Site ToolInput RequestResult) → IsTrustworthy tools w clean →
        IsSettledBuild tools w out →
        AreDone (commit_list out.journal) w.tree.files left.files →
        IsRepeatedBuild tools w left clean again →
        IsFresh tools left.files (clean_over tools w left) again.value again.journal }
    ensures no_older { (tools : List ℕ → ToolInput → ToolAnswer) (w : World) (left : Tree)
        (clean out again : Given Site ToolInput RequestResult) → IsTrustworthy tools w clean →
        IsSettledBuild tools w out →
        AreDone (commit_list out.journal) w.tree.files left.files →
        IsRepeatedBuild tools w left clean again →
        IsNoOlder tools left.files (clean_over tools w left) again.value again.journal }
{}

/// An incremental build of declared and fresh projects skips each piece, where in the tree each
/// output of a piece is no older than its inputs, and runs without a piece write or remove none of
/// them. (Incremental builds.)
///
/// So it was left by a build that has done its work, where no input was changed since. Each run of
/// a target with Inputs and Outputs acts on no file and uses no tool, and its record says `up to
/// date` once for each piece, and `nothing to do` for each other bucket, or `failed` for a fault in
/// a text.
pub fn second_build_skips()
    ensures { (tools : List ℕ → ToolInput → ToolAnswer) (w : World)
        (clean : Given Site ToolInput RequestResult) → IsTrustworthy tools w clean →
        IsUpToDate tools w clean → w.mode ≡ Incremental →
        (out : Given Site ToolInput RequestResult) → meaning (world_of tools w) ≡ Some out →
        SkipsEach tools w out }
{}

/// After a build that stays fresh, the next one has nothing to do: an incremental build over the
/// tree that was left skips each piece, where what it is given is declared there too. (Incremental
/// builds.)
pub fn next_build_skips()
    ensures { (tools : List ℕ → ToolInput → ToolAnswer) (w : World) (left : Tree)
        (clean out again : Given Site ToolInput RequestResult) → IsTrustworthy tools w clean →
        IsSettledBuild tools w out →
        AreDone (commit_list out.journal) w.tree.files left.files →
        IsRepeatedBuild tools w left clean again →
        IsDeclared tools left.files (clean_over tools w left) again →
        (next : Given Site ToolInput RequestResult) →
        meaning (world_of tools (over left (in_mode Incremental w))) ≡ Some next →
        SkipsEach tools (over left (in_mode Incremental w)) next }
{}
