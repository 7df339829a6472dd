//! What is left to do of the words once the project is evaluated.

ghost use Rattle.std.specs.Prelude.{◌≡◌, ◌≢◌, [], IfOk, IsSome};
ghost use Rattle.file_store.specs.Files.{file_at};
ghost use Rattle.msb_paths.specs.Refused.{normal_path};
ghost use Rattle.msb_values.specs.declared.cause.Cause.TheVariants.{Memory};
ghost use Rattle.build_report.specs.Eval.{eval_text};
ghost use Rattle.build_report.specs.Targets.{targets_text};
ghost use Rattle.build_world.specs.Answers.{GivesFault};
ghost use Rattle.build_world.specs.Faults.{fault_text};
ghost use Rattle.msb_instance.specs.Evaluated.{evaluated, seen_instance};
ghost use Rattle.msb_instance.specs.Kept.{AreEvaluated};
ghost use Rattle.msb_words.specs.declared.options.Action.TheVariants.{Build};
ghost use Rattle.msb_outcomes.specs.Outcomes.{
  HasProject,
  IsAsked,
  IsWorkAt,
  IsWorkOfAction,
  IsWorkOfFile,
  mode_of,
  not_found,
  refused,
  shown,
};
ghost use Rattle.msb_outcomes.specs.declared.work.Work.TheVariants.{Told};

use crate::world_with_instances::WorldWithInstances;
use build_outcome::Outcome;
use build_report::{show_eval, show_targets};
use build_world::{EvalFault, World, not_found_text};
use file_store::Tree;
use msb_instance::{InstanceRef, Instances};
use msb_paths::{NormalFault, normal_path};
use msb_values::{Cause, Copied, InstanceKey, Mode, NoMemory, Text, Text8};
use msb_words::{Action, Options};
use std::alloc::Global;

/// What is left to do of the words once the project is evaluated.
#[derive(Drop)]
pub enum Work {
    /// Nothing but to tell this.
    Told(Outcome),
    /// This is built.
    Build(WorldWithInstances),
    /// It is told whether a build of this gives one answer in every order.
    Check(WorldWithInstances),
}

// The root project as it is evaluated, and the instances that are kept, which it is among.
#[derive(Drop)]
struct Root {
    instance: InstanceRef,
    instances: Instances,
}

/// What is left to do of the words over the files of a tree: to tell why the project is refused, to
/// tell what is shown of it, or to build or check it. (MSBuild command-line reference.)
pub fn work_within(alloc: Global, options: &Options, tree: Tree) -> Result<Work, NoMemory>
    requires { HasProject options.now }
    ensures { IfOk result (IsWorkAt options.now tree.files (normal_path [] options.now.project)) }
{
    match normal_path(alloc, "", options.project.as_str()) {
        Ok(path) => {
            let path = Text::of(alloc, path.as_str())?;
            let key = InstanceKey::new(alloc, path, options.globals.copy()?)?;
            work_at(alloc, options, key, tree)
        }
        Err(NormalFault::Memory) => Err(NoMemory),
        Err(_) => refuse_missing(alloc, options.project.as_str()),
    }
}

fn work_at(alloc: Global, options: &Options, key: InstanceKey, tree: Tree) -> Result<Work, NoMemory>
    requires { HasProject options.now }
    ensures { IfOk result (IsWorkOfFile options.now key tree.files (file_at key.path tree.files)) }
{
    if tree.find(key.path.as_str()).is_none() {
        return refuse_missing(alloc, options.project.as_str());
    }
    match evaluate_root(alloc, &tree, &key) {
        Ok(root) => work_of(alloc, options, key, tree, root),
        Err(fault) => refuse_by(alloc, &fault),
    }
}

fn evaluate_root(alloc: Global, tree: &Tree, key: &InstanceKey) -> Result<Root, EvalFault>
    requires { IsSome (file_at key.now.path tree.now.files) }
    ensures gives { GivesFault (λ root. seen_instance root.instance) result
        (evaluated tree.now.files key.now) }
    ensures kept { IfOk result (λ root. AreEvaluated tree.now.files root.instances) }
{
    let mut instances = Instances::new(alloc);
    let instance = instances.get(alloc, tree, key)?;
    Ok(Root {
        instance,
        instances,
    })
}

fn work_of(
    alloc: Global,
    options: &Options,
    key: InstanceKey,
    tree: Tree,
    root: Root,
) -> Result<Work, NoMemory>
    requires project { HasProject options.now }
    requires kept { AreEvaluated tree.files root.instances }
    ensures { IfOk result (IsWorkOfAction options.now.action options.now key tree.files
        (seen_instance root.instance)) }
{
    let Root {
        instance,
        instances,
    } = root;
    match options.action {
        Action::Build => Ok(Work::Build(world_for(options, key, tree, instances)?)),
        Action::Check => Ok(Work::Check(world_for(options, key, tree, instances)?)),
        Action::Eval => tell_eval(alloc, &instance),
        Action::Targets => tell_targets(alloc, &instance),
        Action::Trial => unreachable!(),
    }
}

fn tell_eval(alloc: Global, instance: &InstanceRef) -> Result<Work, NoMemory>
    ensures { IfOk result (λ work. let i = seen_instance instance.now in
        work ≡ Told (shown (eval_text i.scope i.duplicates))) }
{
    let project = instance.get();
    let text = show_eval(alloc, &project.scope, &project.duplicates)?;
    Ok(show(alloc, text))
}

fn tell_targets(alloc: Global, instance: &InstanceRef) -> Result<Work, NoMemory>
    ensures { IfOk result (λ work. let i = seen_instance instance.now in
        work ≡ Told (shown (targets_text i.rows i.initial i.default))) }
{
    let project = instance.get();
    let text = show_targets(alloc, &project.rows, &project.initial, &project.default)?;
    Ok(show(alloc, text))
}

// What a build is given, with the instances by its files that are evaluated already.
fn world_for(
    options: &Options,
    key: InstanceKey,
    tree: Tree,
    instances: Instances,
) -> Result<WorldWithInstances, NoMemory>
    requires { AreEvaluated tree.files instances }
    ensures { IfOk result (IsAsked options.now key tree.files) }
{
    let world = World {
        tree,
        root: key.path,
        globals: key.globals,
        targets: options.targets.copy()?,
        mode: mode_of(options.clean),
    };
    Ok(WorldWithInstances::of(world, instances))
}

fn mode_of(clean: bool) -> Mode
    ensures { result ≡ mode_of clean }
{
    if clean {
        Mode::Clean
    } else {
        Mode::Incremental
    }
}

fn show(alloc: Global, text: Text8) -> Work
    ensures { result ≡ Told (shown text) }
{
    Work::Told(Outcome::of_text(alloc, 0, text))
}

fn refuse_by(alloc: Global, fault: &EvalFault) -> Result<Work, NoMemory>
    ensures refused { IfOk result (λ work. work ≡ Told (refused (fault_text fault.now))) }
    ensures cause { IfOk result (λ _. fault.now.cause ≢ Memory) }
{
    if let Cause::Memory = fault.cause {
        return Err(NoMemory);
    }
    let reason = fault.to_text(alloc)?;
    refuse(alloc, reason.as_str())
}

fn refuse_missing(alloc: Global, word: &str) -> Result<Work, NoMemory>
    ensures { IfOk result (λ work. work ≡ Told (not_found word.now)) }
{
    refuse(alloc, not_found_text(alloc, word)?.as_str())
}

fn refuse(alloc: Global, reason: &str) -> Result<Work, NoMemory>
    ensures { IfOk result (λ work. work ≡ Told (refused reason.now)) }
{
    let text = format!(in alloc; "project refused\n  {reason}\n")?;
    let text = Text8::from(text.into_bytes());
    Ok(Work::Told(Outcome::of_text(alloc, 3, text)))
}
