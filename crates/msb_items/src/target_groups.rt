ghost use Rattle.std.specs.Prelude.{◌≡◌, ◌++◌, true, Some, OnOk, IfOk, option_to_list};
ghost use Rattle.msb_elements.specs.View.{view as node_of};
ghost use Rattle.msb_files.specs.Views.{paths};
ghost use Rattle.msb_laws.specs.Results.{map_ok};
ghost use Rattle.msb_values.specs.Changes.{all_applied};
ghost use Rattle.build_world.specs.Answers.{GivesFault};
ghost use Rattle.build_world.specs.Elements.{at, seen_element};
ghost use Rattle.msb_items.specs.Batched.{joined_ok};
ghost use Rattle.element_texts.specs.Contexts.{in_bucket, item_context};
ghost use Rattle.element_texts.specs.Seen.{context_of};
ghost use Rattle.msb_items.specs.Seen.{items_in};
ghost use Rattle.msb_items.specs.TargetGroups.{
  changes_in,
  changes_named,
  element_changes,
  group_changes,
  group_changes_if,
};

use crate::applying::apply_all;
use crate::batched::element_buckets;
use crate::files::ListedFiles;
use crate::group::Group;
use crate::project_files::ProjectFiles;
use crate::target_items::item_change;
use crate::target_properties::property_change;
use build_world::{EvalFault, PlacedElement};
use element_texts::ElementContext;
use msb_elements::Element;
use msb_expand::{Bucket, Lens};
use msb_files::FileView;
use msb_values::{Change, Copied, List, Name, NoMemory, Scope};
use std::alloc::Global;

/// An element that stands in a group in a target: the group, and the name of the element, which is
/// a property's or an item type.
#[derive(Clone, Copy)]
struct GroupElement<'a> {
    group: Group,
    name: &'a Name,
    at: PlacedElement<'a>,
}

/// What a PropertyGroup or an ItemGroup in a target changes, or its first fault, which is told in
/// the lens's file.
///
/// The group sees the scope of the lens, on which it works in a copy: see [`change_by_group`]. What
/// else the lens says is not looked at but its project and its file, since each element of the
/// group has its own item and bucket. (PropertyGroup element; ItemGroup element.)
pub fn in_target(
    alloc: Global,
    view: &FileView<'_>,
    lens: &Lens<'_>,
    group: &Element,
) -> Result<List<Change>, EvalFault>
    ensures { GivesFault (λ changes. changes) result
        (group_changes (item_context (paths view.now) lens.now.project.now lens.now.scope.now)
        (at lens.now.file.now (node_of group.now))) }
{
    let mut scope = lens.scope.copy()?;
    let group = PlacedElement {
        file: lens.file,
        element: group,
    };
    change_by_group(alloc, view, lens.project, &group, &mut scope)
}

/// Changes a scope as a PropertyGroup or an ItemGroup in a target says, and tells the changes; or
/// tells the first fault, after which nothing is said of the scope.
///
/// The elements are taken in order, each with the changes of those ahead of it, and each in its
/// buckets, which see the scope as the element found it. `project` is the path of the project's
/// root file. (PropertyGroup element; ItemGroup element; MSBuild batching.)
pub fn change_by_group(
    alloc: Global,
    view: &FileView<'_>,
    project: &str,
    group: &PlacedElement<'_>,
    scope: &mut Scope,
) -> Result<List<Change>, EvalFault>
    ensures changes { GivesFault (λ changes. changes) result
        (group_changes (item_context (paths view.now) project.now scope.old)
        (seen_element group.now)) }
    ensures changed { IfOk result (λ changes. scope.new ≡ all_applied changes scope.old) }
{
    let source = ProjectFiles {
        files: view,
        project,
    };
    change_by(alloc, &source, group, scope)
}

fn change_by<F: ListedFiles>(
    alloc: Global,
    source: &ProjectFiles<'_, F>,
    group: &PlacedElement<'_>,
    scope: &mut Scope,
) -> Result<List<Change>, EvalFault>
    ensures changes { GivesFault (λ changes. changes) result
        (group_changes (items_in F.files source.now scope.old) (seen_element group.now)) }
    ensures changed { IfOk result (λ changes. scope.new ≡ all_applied changes scope.old) }
{
    let context = ElementContext::of_items(source.files, source.project, scope);
    if context.element_holds(alloc, group)? {
        return change_by_each(alloc, source, group, scope);
    }
    Ok(List::new(alloc))
}

fn change_by_each<F: ListedFiles>(
    alloc: Global,
    source: &ProjectFiles<'_, F>,
    group: &PlacedElement<'_>,
    scope: &mut Scope,
) -> Result<List<Change>, EvalFault>
    ensures changes { GivesFault (λ changes. changes) result
        (group_changes_if true (items_in F.files source.now scope.old) (seen_element group.now)) }
    ensures changed { IfOk result (λ changes. scope.new ≡ all_applied changes scope.old) }
{
    let kind = Group::of(group.element.name());
    let mut changes = List::new(alloc);
    for child in group.element.children() {
        let more = change_by_element(alloc, source, kind, &group.child(child), scope)?;
        changes.append(more)?;
    }
    Ok(changes)
}

fn change_by_element<F: ListedFiles>(
    alloc: Global,
    source: &ProjectFiles<'_, F>,
    group: Group,
    element: &PlacedElement<'_>,
    scope: &mut Scope,
) -> Result<List<Change>, EvalFault>
    ensures changes { GivesFault (λ changes. changes) result
        (element_changes group (items_in F.files source.now scope.old) (seen_element element.now)) }
    ensures changed { IfOk result (λ changes. scope.new ≡ all_applied changes scope.old) }
{
    let context = ElementContext::of_items(source.files, source.project, scope);
    let changes = element_changes(alloc, &context, group, element)?;
    apply_all(alloc, scope, changes.as_slice())?;
    Ok(changes)
}

/// What an element of a group changes, bucket by bucket.
fn element_changes<F: ListedFiles>(
    alloc: Global,
    context: &ElementContext<'_, F>,
    group: Group,
    element: &PlacedElement<'_>,
) -> Result<List<Change>, EvalFault>
    ensures { GivesFault (λ changes. changes) result
        (element_changes group (context_of F.files context.now) (seen_element element.now)) }
{
    match Name::look_up(alloc, element.element.name())? {
        Some(name) => {
            let element = GroupElement {
                group,
                name: &name,
                at: *element,
            };
            named_changes(alloc, context, &element)
        }
        None => Ok(List::new(alloc)),
    }
}

fn named_changes<F: ListedFiles>(
    alloc: Global,
    context: &ElementContext<'_, F>,
    element: &GroupElement<'_>,
) -> Result<List<Change>, EvalFault>
    ensures { GivesFault (λ changes. changes) result
        (changes_named (Some element.now.name.now) element.now.group
        (context_of F.files context.now) (seen_element element.now.at)) }
{
    let lens = context.lens(element.at.file);
    let own_type = element.group.own_type(element.name);
    let buckets = element_buckets(alloc, &lens, &["Label"], &element.at, own_type)?;
    bucket_changes(alloc, context, element, buckets.as_slice())
}

fn bucket_changes<'b, F: ListedFiles>(
    alloc: Global,
    context: &'b ElementContext<'_, F>,
    element: &GroupElement<'_>,
    buckets: &'b [Bucket],
) -> Result<List<Change>, EvalFault>
    ensures { GivesFault (λ changes. changes) result
        (joined_ok
        (λ bucket. changes_in element.now.group element.now.name.now
        (in_bucket (context_of F.files context.now) bucket) (seen_element element.now.at))
        buckets.now) }
{
    let mut changes = List::new(alloc);
    for bucket in buckets {
        push_changes_in(alloc, &context.in_bucket(bucket), element, &mut changes)?;
    }
    Ok(changes)
}

fn push_changes_in<F: ListedFiles>(
    alloc: Global,
    context: &ElementContext<'_, F>,
    element: &GroupElement<'_>,
    changes: &mut List<Change>,
) -> Result<(), EvalFault>
    ensures { GivesFault (λ _. changes.new) result
        (map_ok (λ more. changes.old ++ more)
        (changes_in element.now.group element.now.name.now (context_of F.files context.now)
        (seen_element element.now.at))) }
{
    let change = change_in(alloc, context, element)?;
    push_if(changes, change)?;
    Ok(())
}

fn push_if(changes: &mut List<Change>, change: Option<Change>) -> Result<(), NoMemory>
    ensures { OnOk result (changes.new ≡ changes.old ++ option_to_list change) }
{
    match change {
        Some(change) => changes.push(change),
        None => Ok(()),
    }
}

/// What an element of a group changes in a bucket.
fn change_in<F: ListedFiles>(
    alloc: Global,
    context: &ElementContext<'_, F>,
    element: &GroupElement<'_>,
) -> Result<Option<Change>, EvalFault>
    ensures { GivesFault option_to_list result
        (changes_in element.now.group element.now.name.now (context_of F.files context.now)
        (seen_element element.now.at)) }
{
    match element.group {
        Group::Properties => property_change(alloc, context, element.name, &element.at),
        Group::Items => item_change(alloc, context, element.name, &element.at),
    }
}
