ghost use Rattle.std.specs.Prelude.{◌≡◌, ◌++◌, IfOk, OnOk, true, false, option_to_list};
ghost use Rattle.msb_laws.specs.Results.{map_ok};
ghost use Rattle.msb_values.specs.Escapes.{unescaped};
ghost use Rattle.msb_expand.specs.Functions.{plain_item};
ghost use Rattle.build_world.specs.Answers.{GivesFault};
ghost use Rattle.build_world.specs.Elements.{seen_element};
ghost use Rattle.msb_items.specs.Batched.{joined_ok};
ghost use Rattle.msb_items.specs.Metadata.{is_one_of};
ghost use Rattle.element_texts.specs.Contexts.{in_bucket};
ghost use Rattle.target_texts.specs.Parameters.{
  items_of,
  param_named,
  param_of,
  params_at,
  task_attributes,
  task_buckets,
  text_items,
};
ghost use Rattle.target_texts.specs.Seen.{seen_context};
ghost use Rattle.task_trait.specs.Rows.{takes_list};

use build_world::{EvalFault, PlacedElement};
use element_texts::ElementContext;
use msb_expand::Bucket;
use msb_files::FileView;
use msb_items::element_buckets;
use msb_values::{Item, List, Name, NoMemory, Pairs, Text, unescape};
use std::alloc::Global;
use task_trait::{Param, handed_items, takes_list};

/// A task element in a target, with what its texts see. (Task element.)
#[derive(Clone, Copy)]
pub struct TaskElement<'a> {
    pub context: ElementContext<'a, FileView<'a>>,
    pub element: PlacedElement<'a>,
    /// The name of the task, in lower case.
    pub task: &'a str,
}

impl<'a> TaskElement<'a> {
    /// The same element in one of its buckets.
    pub fn in_bucket<'s>(&'s self, bucket: &'s Bucket) -> TaskElement<'s>
        ensures context { seen_context result.context
            ≡ in_bucket (seen_context self.now.context) bucket.now }
        ensures element { seen_element result.element ≡ seen_element self.now.element }
        ensures task { result.task.now ≡ self.now.task.now }
    {
        TaskElement {
            context: self.context.in_bucket(bucket),
            element: self.element,
            task: self.task,
        }
    }

    /// The buckets of the element, by its texts and those of its Outputs. (MSBuild batching.)
    pub fn buckets(&self, alloc: Global) -> Result<List<Bucket>, EvalFault>
        ensures { GivesFault (λ buckets. buckets) result
            (task_buckets (seen_context self.now.context) (seen_element self.now.element)) }
    {
        let ignored = ["Label", "MSBuildArchitecture", "MSBuildRuntime"];
        let lens = self.context.lens(self.element.file);
        element_buckets(alloc, &lens, &ignored, &self.element, None)
    }

    /// The parameters in byte order of their names as written, as the task is handed them: each is
    /// a list of items or one text, by the task. (Task element.)
    pub fn params(&self, alloc: Global) -> Result<List<Param>, EvalFault>
        ensures { GivesFault (λ params. params) result
            (params_at (seen_context self.now.context) (seen_element self.now.element)
            self.now.task.now) }
    {
        params_of(alloc, self, self.element.element.attributes())
    }

    // The parameter that an attribute is, unless it has a meaning of its own or none.
    fn param(&self, alloc: Global, attribute: &(Text, Text)) -> Result<Option<Param>, EvalFault>
        ensures { GivesFault option_to_list result
            (param_of (seen_context self.now.context) (seen_element self.now.element)
            self.now.task.now
            attribute.now) }
    {
        let (name, text) = attribute;
        if is_task_attribute(name.as_str()) {
            return Ok(None);
        }
        let name = Name::look_up(alloc, name.as_str())?;
        self.param_by_name(alloc, name, text.as_str())
    }

    fn param_by_name(
        &self,
        alloc: Global,
        name: Option<Name>,
        text: &str,
    ) -> Result<Option<Param>, EvalFault>
        ensures { GivesFault option_to_list result
            (param_named name (seen_context self.now.context) (seen_element self.now.element)
            self.now.task.now text.now) }
    {
        let Some(name) = name else {
            return Ok(None);
        };
        let items = self.items(alloc, name.key(), text)?;
        Ok(Some(Param { name, items }))
    }

    // The value of a parameter of this name, which is in lower case.
    fn items(&self, alloc: Global, name: &str, text: &str) -> Result<List<Item>, EvalFault>
        ensures { GivesFault (λ items. items) result
            (items_of (takes_list self.now.task.now name.now) (seen_context self.now.context)
            (seen_element self.now.element) text.now) }
    {
        if takes_list(self.task, name) {
            self.list(alloc, text)
        } else {
            self.text(alloc, text)
        }
    }

    // The value of a parameter that is a list.
    fn list(&self, alloc: Global, text: &str) -> Result<List<Item>, EvalFault>
        ensures { GivesFault (λ items. items) result
            (items_of true (seen_context self.now.context) (seen_element self.now.element)
            text.now) }
    {
        let items = self.context.list(alloc, &self.element, text)?;
        Ok(handed_items(alloc, items.as_slice())?)
    }

    // The value of a parameter that is a text.
    fn text(&self, alloc: Global, text: &str) -> Result<List<Item>, EvalFault>
        ensures { GivesFault (λ items. items) result
            (items_of false (seen_context self.now.context) (seen_element self.now.element)
            text.now) }
    {
        let text = self.context.text(alloc, &self.element, text)?;
        Ok(text_items(alloc, text.as_str())?)
    }
}

// The parameters among these attributes of a task element.
fn params_of(
    alloc: Global,
    task: &TaskElement<'_>,
    attributes: &[(Text, Text)],
) -> Result<List<Param>, EvalFault>
    ensures { GivesFault (λ params. params) result
        (joined_ok
        (param_of (seen_context task.now.context) (seen_element task.now.element) task.now.task.now)
        attributes.now) }
{
    let mut params = List::new(alloc);
    for attribute in attributes {
        push_param(alloc, task, attribute, &mut params)?;
    }
    Ok(params)
}

fn push_param(
    alloc: Global,
    task: &TaskElement<'_>,
    attribute: &(Text, Text),
    params: &mut List<Param>,
) -> Result<(), EvalFault>
    ensures { GivesFault (λ _. params.new) result
        (map_ok (λ more. params.old ++ more)
        (param_of (seen_context task.now.context) (seen_element task.now.element) task.now.task.now
        attribute.now)) }
{
    let param = task.param(alloc, attribute)?;
    push_if(params, param)?;
    Ok(())
}

fn push_if(params: &mut List<Param>, param: Option<Param>) -> Result<(), NoMemory>
    ensures { OnOk result (params.new ≡ params.old ++ option_to_list param) }
{
    match param {
        Some(param) => params.push(param),
        None => Ok(()),
    }
}

fn is_task_attribute(name: &str) -> bool
    ensures { result ≡ is_one_of task_attributes name.now }
{
    matches!(
        name,
        "Condition" | "ContinueOnError" | "Label" | "MSBuildArchitecture" | "MSBuildRuntime"
    )
}

// A text without its escapes, as one item, or none where it is empty.
fn text_items(alloc: Global, text: &str) -> Result<List<Item>, NoMemory>
    ensures { IfOk result (λ items. items ≡ text_items (unescaped text.now)) }
{
    let text = unescape(alloc, text)?;
    let mut items = List::new(alloc);
    if text.as_str().is_empty() {
        return Ok(items);
    }
    items.push(plain_item(alloc, text)?)?;
    Ok(items)
}

// An item without metadata.
fn plain_item(alloc: Global, ident: Text) -> Result<Item, NoMemory>
    ensures { IfOk result (λ item. item ≡ plain_item ident) }
{
    Ok(Item {
        ident,
        recursive: Text::of(alloc, "")?,
        meta: Pairs::new(alloc),
    })
}
