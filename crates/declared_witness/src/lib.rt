//! A set of projects that keeps the premises of the laws on incremental builds, by the definitions
//! alone: no premise is empty. (How to build incrementally.)
#![tactic(auto)]

ghost use Rattle.std.specs.Prelude.{◌≡◌, ℕ, List, Some};
ghost use Rattle.msb_values.specs.declared.mode.Mode.{Mode};
ghost use Rattle.msb_values.specs.declared.mode.Mode.TheVariants.{Incremental};
ghost use Rattle.file_store.specs.Commits.{AreDone};
ghost use Rattle.build_meaning.specs.Meaning.{meaning};
ghost use Rattle.msb_files.specs.FinalTree.{commit_list};
ghost use Rattle.task_trait.specs.declared.tools.ToolAnswer.{ToolAnswer};
ghost use Rattle.task_trait.specs.declared.tools.ToolInput.{ToolInput};
ghost use Rattle.request_machine.specs.Worlds.{world_of};
ghost use Rattle.build_declared.specs.Clean.{IsTrustworthy};
ghost use Rattle.build_declared.specs.Declared.{IsDeclared};
ghost use Rattle.build_declared.specs.Repeated.{IsSettledBuild, IsRepeatedBuild, clean_over, over};
ghost use Rattle.build_declared.specs.UpToDate.{IsUpToDate};
ghost use Rattle.declared_witness.specs.ThreeCopies.{
  build,
  clean_given,
  files,
  files_left,
  part_given,
  part_journal,
  tree_left,
};

/// A project copies three sources one by one, of which the second is newer than its object: the set
/// is declared, fresh and settled, and the incremental build copies the second one alone. Over the
/// tree that it leaves the set is declared and repeated, and up to date. (How to build
/// incrementally.)
pub fn three_copies_keep_the_premises()
    ensures part { (tools : List ℕ → ToolInput → ToolAnswer) →
        meaning (world_of tools (build Incremental)) ≡ Some part_given }
    ensures trustworthy { (tools : List ℕ → ToolInput → ToolAnswer) (mode : Mode) →
        IsTrustworthy tools (build mode) clean_given }
    ensures settled { (tools : List ℕ → ToolInput → ToolAnswer) →
        IsSettledBuild tools (build Incremental) part_given }
    ensures done { AreDone (commit_list part_journal) files files_left }
    ensures repeated { (tools : List ℕ → ToolInput → ToolAnswer) →
        IsRepeatedBuild tools (build Incremental) tree_left clean_given clean_given }
    ensures declared { (tools : List ℕ → ToolInput → ToolAnswer) →
        IsDeclared tools files_left (clean_over tools (build Incremental) tree_left) clean_given }
    ensures up_to_date { (tools : List ℕ → ToolInput → ToolAnswer) →
        IsUpToDate tools (over tree_left (build Incremental)) clean_given }
{}
