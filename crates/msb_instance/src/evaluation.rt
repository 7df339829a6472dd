ghost use Rattle.std.specs.Prelude.{◌≡◌, map, IfOk, IsSome};
ghost use Rattle.file_store.specs.Files.{file_at};
ghost use Rattle.build_world.specs.Answers.{GivesFault};
ghost use Rattle.msb_properties.specs.Passed.{seen_layout};
ghost use Rattle.msb_instance.specs.Targets.{default_or_first};
ghost use Rattle.msb_instance.specs.Evaluated.{
  first_scope,
  with_targets,
  after_layout,
  evaluated,
  seen_instance,
};
ghost use Rattle.msb_instance.specs.Made.{target_seen};

use crate::rows::rows;
use crate::targets::used_targets;
use build_world::{EvalFault, Instance, LaidOut, UsedTarget, UsedTargets};
use element_texts::ElementContext;
use file_store::Tree;
use msb_items::{definition_pass, item_pass};
use msb_properties::{ElementTrees, property_pass};
use msb_values::{Copied, InstanceKey, List, Name, Named, NoMemory, Scope};
use std::alloc::Global;

/// Evaluates the project of an instance: properties and imports, item definitions, items, targets.
/// Or gives its first fault in the order of this work, with the file and the place of its element.
/// (How MSBuild builds projects, evaluation phase.)
pub fn evaluate(alloc: Global, tree: &Tree, key: &InstanceKey) -> Result<Instance, EvalFault>
    requires { IsSome (file_at key.now.path tree.now.files) }
    ensures { GivesFault seen_instance result (evaluated tree.now.files key.now) }
{
    let mut trees = ElementTrees::new(alloc);
    evaluate_by(alloc, tree, key, &mut trees)
}

/// The same, by element trees of files that other evaluations have imported.
pub(crate) fn evaluate_by(
    alloc: Global,
    tree: &Tree,
    key: &InstanceKey,
    trees: &mut ElementTrees,
) -> Result<Instance, EvalFault>
    requires { IsSome (file_at key.now.path tree.now.files) }
    ensures { GivesFault seen_instance result (evaluated tree.now.files key.now) }
{
    let laid = property_pass(alloc, tree, key, trees)?;
    after_layout(alloc, tree, key, laid)
}

/// The passes that follow the property pass.
fn after_layout(
    alloc: Global,
    tree: &Tree,
    key: &InstanceKey,
    laid: LaidOut,
) -> Result<Instance, EvalFault>
    ensures { GivesFault seen_instance result
        (after_layout tree.now.files key.now (seen_layout laid)) }
{
    let mut scope = first_scope(alloc, key, &laid)?;
    definition_pass(alloc, tree, &laid, &mut scope)?;
    item_pass(alloc, tree, &laid, &mut scope)?;
    with_targets(alloc, tree, key, laid, scope)
}

/// The final properties, with no item and no default yet.
fn first_scope(alloc: Global, key: &InstanceKey, laid: &LaidOut) -> Result<Scope, NoMemory>
    ensures { IfOk result (λ scope. scope ≡ first_scope key.now (seen_layout laid.now)) }
{
    Ok(Scope {
        globals: key.globals.copy()?,
        props: laid.props.copy()?,
        items: Named::new(alloc),
        defaults: Named::new(alloc),
    })
}

/// The evaluated scope with the targets.
fn with_targets(
    alloc: Global,
    tree: &Tree,
    key: &InstanceKey,
    laid: LaidOut,
    scope: Scope,
) -> Result<Instance, EvalFault>
    ensures { GivesFault seen_instance result
        (with_targets tree.now.files key.now (seen_layout laid) scope) }
{
    let (elements, _, duplicates, initial, default) = laid.parts();
    let targets = used_targets(alloc, elements)?;
    let context = ElementContext::of_items(tree, key.path.as_str(), &scope);
    let rows = rows(alloc, &context, targets.as_slice())?;
    let default = default_or_first(alloc, default, targets.as_slice())?;
    let targets = UsedTargets::of(alloc, targets)?;
    Ok(Instance {
        scope,
        rows,
        targets,
        initial,
        default,
        duplicates,
    })
}

/// The names, or where there is none the first target.
fn default_or_first(
    alloc: Global,
    default: List<Name>,
    targets: &[UsedTarget],
) -> Result<List<Name>, NoMemory>
    ensures { IfOk result
        (λ names. names ≡ default_or_first default (map target_seen targets.now)) }
{
    if !default.is_empty() {
        return Ok(default);
    }
    let mut names = List::new(alloc);
    if let Some(first) = targets.first() {
        names.push(first.name.copy()?)?;
    }
    Ok(names)
}
