ghost use Rattle.std.specs.Prelude.{◌≡◌, ◌<◌, ◌≤◌, IfOk, map, string_bytes, option_map};
ghost use Rattle.msb_words.specs.Answers.{Reads};
ghost use Rattle.msb_words.specs.Given.{seen};
ghost use Rattle.msb_words.specs.Options.{
  action_of,
  has_options,
  nodes_without,
  options_in,
  options_for,
  options_of,
  seed_for,
};
ghost use Rattle.msb_words.specs.Values.{low_if};

use crate::WordFault;
use crate::given::Given;
use crate::globals::globals;
use crate::numbers::{nodes, seed_in, size};
use crate::targets::targets;
use msb_values::{List, Name, Pairs, Text};
use std::alloc::Global;

/// What is to be done with the project.
#[derive(Clone, Copy, Debug, PartialEq, Eq)]
pub enum Action {
    /// Build targets of it.
    Build,
    /// Tell whether a build of its targets gives one answer in every order.
    Check,
    /// Show its properties and items.
    Eval,
    /// Show its targets.
    Targets,
    /// Build a generated set twice, on one node and on several, and tell whether the builds are
    /// equal.
    Trial,
}

/// What the words ask for. (MSBuild command-line reference.)
pub struct Options {
    pub action: Action,
    /// The project file's path, as the word gives it; the word of a trial's seed.
    pub project: Text,
    /// The targets to build, of which there are none where the project chooses them.
    pub targets: List<Name>,
    /// The global properties, with their values as they are written.
    pub globals: Pairs,
    /// How many worker nodes build, from 1 to 64.
    pub nodes: u32,
    /// Whether no target is skipped for being up to date.
    pub clean: bool,
    /// Whether messages of low importance are shown.
    pub low: bool,
    /// How many projects the set of a trial has, from 1 to 100; 0 where there is no trial.
    pub size: u32,
    /// The seed of a trial's set; 0 where there is no trial.
    pub seed: u64,
}

// A drop that is written out is proved here alone.
impl Drop for Options {
    fn drop(self) {
        let Options {
            action: _,
            project: _,
            targets: _,
            globals: _,
            nodes: _,
            clean: _,
            low: _,
            size: _,
            seed: _,
        } = self;
    }
}

/// Reads the words behind the program's name:
///
/// ```text
/// build PROJECT [--target LIST] [--property LIST] [--nodes N] [--clean] [--show low]
/// check PROJECT [--target LIST] [--property LIST] [--clean]
/// eval PROJECT [--property LIST]
/// targets PROJECT [--property LIST]
/// trial SEED --size SIZE [--nodes N]
/// ```
///
/// Options may stand anywhere, each once. A value stands behind `=` or is the next word; it is not
/// empty and does not begin with `-`. N is one or two digits, and from 1 to 64; SIZE is one to
/// three, and from 1 to 100; SEED is one to twenty, and below 2^64. Nothing is shortened. Other
/// words are [`WordFault::Usage`]. (MSBuild command-line reference.)
pub fn read_words(alloc: Global, words: &[String]) -> Result<Options, WordFault>
    ensures reads { Reads (options_in (map string_bytes words.now)) result }
    ensures nodes { IfOk result (λ options. (0 < options.nodes) × (options.nodes ≤ 64)) }
{
    let given = Given::of(alloc, words)?;
    options_of(alloc, &given)
}

fn options_of(alloc: Global, given: &Given<'_>) -> Result<Options, WordFault>
    ensures reads { Reads (options_of (seen given.now)) result }
    ensures nodes { IfOk result (λ options. (0 < options.nodes) × (options.nodes ≤ 64)) }
{
    match action_of(given.action) {
        Some(action) => options_for(alloc, given, action),
        None => Err(WordFault::Usage),
    }
}

fn action_of(word: &str) -> Option<Action>
    ensures { result ≡ action_of word.now }
{
    match word {
        "build" => Some(Action::Build),
        "check" => Some(Action::Check),
        "eval" => Some(Action::Eval),
        "targets" => Some(Action::Targets),
        "trial" => Some(Action::Trial),
        _ => None,
    }
}

fn options_for(alloc: Global, given: &Given<'_>, action: Action) -> Result<Options, WordFault>
    ensures reads { Reads (options_for (seen given.now) action) result }
    ensures nodes { IfOk result (λ options. (0 < options.nodes) × (options.nodes ≤ 64)) }
{
    if !action.has_options(given) {
        return Err(WordFault::Usage);
    }
    Ok(Options {
        action,
        targets: targets(alloc, given.target)?,
        globals: globals(alloc, given.property)?,
        nodes: nodes(given.nodes, action.nodes_without())?,
        clean: given.clean,
        low: is_low(given.show)?,
        size: size(given.size)?,
        seed: action.seed_for(given.project)?,
        project: Text::of(alloc, given.project)?,
    })
}

impl Action {
    // A trial alone has a size, which has to be there, and no global properties; a build alone has
    // all others, and a check those that say what is built.
    fn has_options(self, given: &Given<'_>) -> bool
        ensures { result ≡ has_options self (seen given.now) }
    {
        match self {
            Action::Build => given.size.is_none(),
            Action::Check => {
                given.nodes.is_none() && given.show.is_none() && given.size.is_none()
            }
            Action::Eval | Action::Targets => {
                given.target.is_none()
                    && given.nodes.is_none()
                    && !given.clean
                    && given.show.is_none()
                    && given.size.is_none()
            }
            Action::Trial => {
                given.size.is_some()
                    && given.target.is_none()
                    && given.property.is_none()
                    && !given.clean
                    && given.show.is_none()
            }
        }
    }

    // How many nodes build where the option is left out.
    fn nodes_without(self) -> u32
        ensures is { result ≡ nodes_without self }
        ensures range { (0 < result) × (result ≤ 64) }
    {
        match self {
            Action::Build | Action::Check | Action::Eval | Action::Targets => 1,
            Action::Trial => 4,
        }
    }

    // The seed of a trial, which stands in the place of a project.
    fn seed_for(self, project: &str) -> Result<u64, WordFault>
        ensures { Reads (seed_for self project.now) result }
    {
        match self {
            Action::Build | Action::Check | Action::Eval | Action::Targets => Ok(0),
            Action::Trial => seed_in(project),
        }
    }
}

fn is_low(value: Option<&str>) -> Result<bool, WordFault>
    ensures { Reads (low_if (option_map (λ v. v.now) value.entry)) result }
{
    match value {
        Some("low") => Ok(true),
        Some(_) => Err(WordFault::Usage),
        None => Ok(false),
    }
}
