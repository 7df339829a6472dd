//! What the words for the smallest build mean, from the bytes of its project file to the text that
//! is printed, by the definitions alone. (MSBuild project file schema; Message task.)
#![tactic(auto)]

ghost use Rattle.std.specs.Prelude.{◌≡◌, ◌∷◌, ℕ, [], false, Some, codes};
ghost use Rattle.build_meaning.specs.Meaning.{meaning};
ghost use Rattle.build_report.specs.Shown.{shown_text};
ghost use Rattle.request_machine.specs.Worlds.{world_of};
ghost use Rattle.msb_outcomes.specs.Outcomes.{Answering};
ghost use Rattle.msb_program.specs.Meanings.{Means};
ghost use Rattle.message_witness.specs.OneMessage.{
  build,
  files,
  given,
  journal,
  outcome,
  printed,
  root_result,
};

/// A project of one target with one Message: its build succeeds, its journal has that one run, and
/// the words that ask for it mean that four lines are printed and no file is written or removed.
/// So `run` and `run_alone` answer status 0 for these words, and print just these bytes, where
/// memory is found and neither the store nor the sink fails. (Message task; MSBuild command-line
/// reference.)
pub fn one_message_is_printed()
    ensures meaning { (tools : Answering) (stamp : ℕ) →
        meaning (world_of tools (build stamp)) ≡ Some given }
    ensures text { shown_text root_result journal false ≡ printed }
    ensures words { (tools : Answering) (stamp : ℕ) →
        Means tools (codes "build" ∷ codes "a.proj" ∷ []) (Some (files stamp)) outcome }
{}
