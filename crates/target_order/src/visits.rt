ghost use Rattle.std.specs.Prelude.{◌≡◌};
ghost use Rattle.target_order.specs.Progress.{is_past, is_errors};

use crate::shared::SharedNames;
use msb_values::{Copied, NoMemory};

/// The list that an open visit goes through.
#[derive(Clone, Copy)]
pub enum Step {
    /// The request's own targets.
    Request,
    /// DependsOnTargets, where the Condition holds.
    Depends,
    /// The targets that name it in BeforeTargets, and then its body.
    BeforeBody,
    /// The targets that name it in BeforeTargets, where its Condition doesn't hold.
    BeforeSkip,
    /// The targets that name it in AfterTargets.
    After,
    /// The targets of the OnError elements of its failed body, and then the walk's end.
    Errors,
}

impl Step {
    /// Whether the visit has passed its fifth step, the body.
    pub fn is_past(self) -> bool
        ensures { result ≡ is_past self }
    {
        match self {
            Step::After | Step::Errors => true,
            Step::Request | Step::Depends | Step::BeforeBody | Step::BeforeSkip => false,
        }
    }

    pub fn is_errors(self) -> bool
        ensures { result ≡ is_errors self }
    {
        match self {
            Step::Errors => true,
            Step::Request | Step::Depends | Step::BeforeBody | Step::BeforeSkip | Step::After =>
                false,
        }
    }
}

/// A visit that is open.
#[derive(Drop)]
pub struct OpenVisit {
    /// The number of its target.
    pub target: usize,
    pub step: Step,
    /// How many entries of the step's list are behind it.
    pub passed: usize,
    /// The list of the steps `Depends` and `Errors`.
    pub names: SharedNames,
}

impl Copied for OpenVisit {
    fn copy(&self) -> Result<OpenVisit, NoMemory> {
        Ok(OpenVisit {
            target: self.target,
            step: self.step,
            passed: self.passed,
            names: self.names.copy()?,
        })
    }
}

/// What the last ask was, so which answers fit.
#[derive(Clone, Copy)]
pub enum Asked {
    Nothing,
    Condition,
    Depends,
    Body,
    /// The answer is taken, and the next ask is to be found.
    Answered,
    /// Done, Circle or Unknown.
    End,
}
