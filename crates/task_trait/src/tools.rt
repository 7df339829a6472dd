ghost use Rattle.std.specs.Prelude.{◌≡◌, ℕ, List, [], ◌∷◌, ◌++◌, IfOk, OnOk, OnErr};
ghost use Rattle.task_trait.specs.Tools.{BeginsWith};
ghost use Rattle.task_trait.specs.declared.tools.ToolAnswer.{ToolAnswer as Answer};
ghost use Rattle.task_trait.specs.declared.tools.ToolAnswer.TheVariants.{Unknown};
ghost use Rattle.task_trait.specs.declared.tools.ToolInput.{ToolInput as Input};

use msb_values::{Act, Copied, Item, List, Name, NoMemory, Note, Text, Text8};
use std::alloc::Global;

/// A task's parameter: its name, and its value as items. (Task element.)
pub struct Param {
    pub name: Name,
    pub items: List<Item>,
}

// A drop that is written out is proved here alone.
impl Drop for Param {
    fn drop(self) {
        let Param { name: _, items: _ } = self;
    }
}

/// A file that a tool reads: its path, and its bytes if it is there.
pub struct FileIn {
    pub path: Text,
    pub content: Option<Text8>,
}

// A drop that is written out is proved here alone.
impl Drop for FileIn {
    fn drop(self) {
        let FileIn {
            path: _,
            content: _,
        } = self;
    }
}

/// What a tool is handed.
#[derive(Drop)]
pub struct ToolInput {
    pub params: List<Param>,
    pub files: List<FileIn>,
}

/// What a task gives: whether it succeeded, its outputs, the files that it writes and removes, in
/// order, and its notes.
#[derive(Drop)]
pub struct TaskOutput {
    pub ok: bool,
    pub outputs: List<Param>,
    pub acts: List<Act>,
    pub notes: List<Note>,
}

/// What tools answer to the name of a task.
#[derive(Drop)]
pub enum ToolAnswer {
    /// There is no tool of this name.
    Unknown,
    Made(TaskOutput),
}

/// Tasks that are not built in, as one function of a task's name and input.
///
/// The function belongs to the type: whoever implements the trait owes that a call has no other
/// input.
pub trait Tools {
    ghost answer: { List ℕ → Input → Answer };

    /// The answer of the function to a task's name and input.
    fn call(&self, alloc: Global, name: &Name, input: &ToolInput) -> Result<ToolAnswer, NoMemory>
        ensures { IfOk result (λ a. a ≡ answer name.now input.now) };
}

/// Tools whose calls are listed, for contracts alone.
pub trait CountedTools {
    ghost answer: { List ℕ → Input → Answer };

    /// The calls so far, oldest first.
    ghost calls: { Self → List (List ℕ × Input) };

    /// The answer of the function to a task's name and input, which is added to the calls. After
    /// want of memory the calls begin with those of before, and no more is said of them.
    fn call(
        &mut self,
        alloc: Global,
        name: &Name,
        input: &ToolInput,
    ) -> Result<ToolAnswer, NoMemory>
        ensures value { IfOk result (λ a. a ≡ answer name.now input.now) }
        ensures counted { OnOk result (calls self.new
            ≡ calls self.old ++ (name.now, input.now) ∷ []) }
        ensures begun { OnErr result (BeginsWith (calls self.old) (calls self.new)) };
}

/// Shared tools, with the list of the calls that are made through this value.
#[derive(Drop)]
pub struct Counted<'a, T: Tools> {
    tools: &'a T,
    calls: List<(Name, ToolInput)>,
}

impl<'a, T: Tools> Counted<'a, T> {
    /// These tools, of which no call is made yet.
    pub fn new(alloc: Global, tools: &'a T) -> Result<Counted<'a, T>, NoMemory>
        ensures { IfOk result (λ c. c.calls ≡ []) }
    {
        Ok(Counted {
            tools,
            calls: List::new(alloc),
        })
    }

    /// The calls so far, oldest first.
    pub fn calls(&self) -> &List<(Name, ToolInput)>
        ensures { result.now ≡ self.now.calls }
    {
        &self.calls
    }
}

impl<'a, T: Tools> CountedTools for Counted<'a, T> {
    ghost answer = { T.answer };

    ghost calls = { λ c. c.calls };

    // The call is listed ahead of being made, since nothing is to fail after it.
    fn call(
        &mut self,
        alloc: Global,
        name: &Name,
        input: &ToolInput,
    ) -> Result<ToolAnswer, NoMemory> {
        self.calls.push((name.copy()?, input.copy()?))?;
        self.tools.call(alloc, name, input)
    }
}

/// Tools that are lent count as those that lend them.
impl<T: CountedTools> CountedTools for &mut T {
    ghost answer = { T.answer };

    ghost calls = { λ t. T.calls t.now };

    fn call(
        &mut self,
        alloc: Global,
        name: &Name,
        input: &ToolInput,
    ) -> Result<ToolAnswer, NoMemory> {
        (**self).call(alloc, name, input)
    }
}

/// No tools: every name is unknown.
#[derive(Clone, Copy)]
pub struct NoTools;

impl Tools for NoTools {
    ghost answer = { λ _ _. Unknown };

    fn call(&self, _: Global, _: &Name, _: &ToolInput) -> Result<ToolAnswer, NoMemory> {
        Ok(ToolAnswer::Unknown)
    }
}

impl Copied for Param {
    fn copy(&self) -> Result<Param, NoMemory> {
        Ok(Param {
            name: self.name.copy()?,
            items: self.items.copy()?,
        })
    }
}

impl Copied for FileIn {
    fn copy(&self) -> Result<FileIn, NoMemory> {
        let content = match &self.content {
            Some(bytes) => Some(bytes.copy()?),
            None => None,
        };
        Ok(FileIn {
            path: self.path.copy()?,
            content,
        })
    }
}

impl Copied for ToolInput {
    fn copy(&self) -> Result<ToolInput, NoMemory> {
        Ok(ToolInput {
            params: self.params.copy()?,
            files: self.files.copy()?,
        })
    }
}
