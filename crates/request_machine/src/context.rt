ghost use Rattle.std.specs.Prelude.{◌≡◌, option_map, option_copied, map};
ghost use Rattle.build_world.specs.Instances.{seen_target};
ghost use Rattle.request_machine.specs.Requests.{
  target_at,
  holds_at,
  names_at,
  holds_of,
  depends_of,
  errors_at,
  errors_of,
  on_error,
};
ghost use Rattle.request_machine.specs.Seen.{seen_project};
ghost use Rattle.msb_files.specs.Views.{paths};
ghost use Rattle.build_world.specs.Answers.{GivesFault};
ghost use Rattle.build_world.specs.Elements.{seen_element, at};
ghost use Rattle.element_texts.specs.Contexts.{item_context};
ghost use Rattle.element_texts.specs.Seen.{context_of};
ghost use Rattle.msb_elements.specs.View.{view};

use crate::reply::add_all;
use crate::stage::RequestScope;
use build_world::{EvalFault, PlacedElement, UsedTarget};
use element_texts::ElementContext;
use file_store::Tree;
use msb_elements::Element;
use msb_files::{FileView, Journal};
use msb_instance::InstanceRef;
use msb_values::{InstanceKey, List, Name};
use result_cache::RequestKey;
use std::alloc::Global;

/// An instance of a project as it was evaluated, with the files of the build as they stood at the
/// start. (How MSBuild builds projects, execution phase.)
#[derive(Clone, Copy)]
pub struct Project<'a> {
    pub tree: &'a Tree,
    pub key: &'a InstanceKey,
    pub instance: &'a InstanceRef,
}

impl<'a> Project<'a> {
    /// The target of this name.
    pub fn target(&self, name: &Name) -> Option<&'a UsedTarget>
        ensures { option_map seen_target (option_copied result)
            ≡ target_at (seen_project self.now) name.now }
    {
        self.instance.get().targets.find(name)
    }
}

/// A request of an evaluated project at a moment between its runs: what its texts see is the scope
/// then, and the files as its journal has them.
#[derive(Clone, Copy)]
pub struct RequestContext<'a> {
    pub project: Project<'a>,
    pub key: &'a RequestKey,
    pub state: &'a RequestScope,
    pub journal: &'a Journal,
}

impl<'a> RequestContext<'a> {
    /// Whether the Condition of an element holds; an absent one does. (MSBuild conditions.)
    pub fn holds(&self, alloc: Global, element: &PlacedElement<'_>) -> Result<bool, EvalFault>
        ensures { GivesFault (λ holds. holds) result
            (holds_at (seen_project self.now.project) self.now.state.now.scope
            self.now.journal.now (seen_element element.now)) }
    {
        let files = FileView::of(self.project.tree, self.journal);
        self.texts(&files).element_holds(alloc, element)
    }

    /// The targets that a list of an element names; an absent list names none. (Target build
    /// order.)
    pub fn names(
        &self,
        alloc: Global,
        attribute: &str,
        element: &PlacedElement<'_>,
    ) -> Result<List<Name>, EvalFault>
        ensures { GivesFault (λ names. names) result
            (names_at (seen_project self.now.project) self.now.state.now.scope attribute.now
            (seen_element element.now)) }
    {
        let files = FileView::of(self.project.tree, self.journal);
        let written = element.element.attribute(attribute);
        self.texts(&files).names(alloc, element, written)
    }

    // What the texts of its targets see, with these files.
    fn texts<'s>(&'s self, files: &'s FileView<'s>) -> ElementContext<'s, FileView<'s>>
        ensures { context_of paths result
            ≡ item_context (paths files.entry.now) self.now.project.key.now.path
            self.now.state.now.scope }
    {
        let state = self.state;
        ElementContext::of_items(files, self.project.key.path.as_str(), &state.scope)
    }

    /// Whether the Condition of the target of this name holds.
    pub fn condition(&self, alloc: Global, name: &Name) -> Result<bool, EvalFault>
        ensures { GivesFault (λ holds. holds) result
            (holds_of (seen_project self.now.project) self.now.state.now.scope
            self.now.journal.now (target_at (seen_project self.now.project) name.now)) }
    {
        match self.project.target(name) {
            Some(target) => self.holds(alloc, &PlacedElement::of(&target.at)),
            None => Ok(false),
        }
    }

    /// The targets that DependsOnTargets of the target of this name names.
    pub fn depends(&self, alloc: Global, name: &Name) -> Result<List<Name>, EvalFault>
        ensures { GivesFault (λ names. names) result
            (depends_of (seen_project self.now.project) self.now.state.now.scope
            (target_at (seen_project self.now.project) name.now)) }
    {
        match self.project.target(name) {
            Some(target) => self.names(alloc, "DependsOnTargets", &PlacedElement::of(&target.at)),
            None => Ok(List::new(alloc)),
        }
    }
}

impl<'a> RequestContext<'a> {
    /// The targets that the OnError elements of the failed target of this name name, in order; the
    /// Condition and the list of each is read first. (OnError element.)
    pub fn on_error(&self, alloc: Global, name: &Name) -> Result<List<Name>, EvalFault>
        ensures { GivesFault (λ names. names) result
            (on_error (seen_project self.now.project) self.now.state.now.scope
            self.now.journal.now (target_at (seen_project self.now.project) name.now)) }
    {
        match self.project.target(name) {
            Some(target) => self.all_errors(
                alloc,
                target.at.file.as_str(),
                target.at.element.children(),
            ),
            None => Ok(List::new(alloc)),
        }
    }

    // Of these elements.
    fn all_errors(
        &self,
        alloc: Global,
        file: &str,
        elements: &[Element],
    ) -> Result<List<Name>, EvalFault>
        ensures { GivesFault (λ names. names) result
            (errors_of (seen_project self.now.project) self.now.state.now.scope
            self.now.journal.now (map (at file.now) (map view elements.now))) }
    {
        let mut names = List::new(alloc);
        for element in elements {
            let more = self.errors(alloc, &PlacedElement { file, element })?;
            add_all(&mut names, more.as_slice())?;
        }
        Ok(names)
    }

    // Of an element, which names none unless it is an OnError element.
    fn errors(&self, alloc: Global, element: &PlacedElement<'_>) -> Result<List<Name>, EvalFault>
        ensures { GivesFault (λ names. names) result
            (errors_at (seen_project self.now.project) self.now.state.now.scope
            self.now.journal.now (seen_element element.now)) }
    {
        if element.element.name() == "OnError" && self.holds(alloc, element)? {
            self.names(alloc, "ExecuteTargets", element)
        } else {
            Ok(List::new(alloc))
        }
    }
}
