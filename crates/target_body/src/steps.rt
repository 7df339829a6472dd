ghost use Rattle.std.specs.Prelude.{◌≡◌};
ghost use Rattle.target_body.specs.Seen.{ended};
ghost use Rattle.target_body.specs.States.{State};
ghost use Rattle.target_body.specs.Tasks.{still_failed};

/// How a part of a run ends.
#[derive(Clone, Copy, Debug, PartialEq, Eq)]
pub(crate) enum Ending {
    /// The run goes on behind it.
    Fine,
    /// A text had a fault, which is noted, and stops the run.
    Faulted,
    /// A task has failed, and stops the run.
    Failed,
}

impl Ending {
    /// A run that has failed doesn't go on.
    pub(crate) fn still_failed(self) -> Ending
        ensures { (s : State) → ended result s ≡ still_failed (ended self s) }
    {
        match self {
            Ending::Fine => Ending::Failed,
            Ending::Faulted | Ending::Failed => self,
        }
    }
}

/// How far a part of a run has come. (MSBuild task.)
#[derive(Drop)]
pub(crate) enum Step<F> {
    Over(Ending),
    /// The results of requests are waited for; the frame says what is left of the part.
    Waits(F),
}
