ghost use Rattle.std.specs.Prelude.{◌≡◌, Result, IfOk};
ghost use Rattle.msb_values.specs.Pairs.{value_at};
ghost use Rattle.task_trait.specs.Answers.{Gives};
ghost use Rattle.task_trait.specs.declared.failures.Failure.{Failure};
ghost use Rattle.task_trait.specs.declared.tools.TaskOutput.{TaskOutput};
ghost use Rattle.task_kit.specs.Tasks.{answer, built_in, done, output_of};

use crate::copies::copy;
use crate::included::create_item;
use crate::lines::write_lines;
use crate::messages::{create_property, error, message, warning};
use crate::read::read_lines;
use crate::removed::delete;
use msb_files::FileView;
use msb_values::{Name, NoMemory};
use std::alloc::Global;
use task_trait::{Failure, Param, TaskOutput, ToolAnswer, ToolInput};

/// The built-in tasks but MSBuild, which makes calls and is planned elsewhere.
#[derive(Clone, Copy)]
pub(crate) enum BuiltIn {
    Message,
    Warning,
    Error,
    Copy,
    WriteLinesToFile,
    ReadLinesFromFile,
    Delete,
    CreateItem,
    CreateProperty,
}

/// What a built-in task does, or that it is none: the name MSBuild, and each name of a tool, is
/// unknown.
///
/// `dir` is the folder of the project, from which paths start, and `written` the bytes that the run
/// has written before. The parameters come without escapes, and so do the outputs go. A task that
/// fails answers so, with a note; what it did before it failed is among its acts. (MSBuild tasks.)
pub fn call(
    alloc: Global,
    name: &Name,
    dir: &str,
    view: &FileView<'_>,
    input: &ToolInput,
    written: u64,
) -> Result<ToolAnswer, NoMemory>
    ensures { IfOk result
        (λ output. output ≡ answer name.now dir.now view.now input.now.params written) }
{
    match BuiltIn::find(name.key()) {
        Some(task) => {
            let result = task.run(alloc, dir, view, input.params.as_slice(), written);
            Ok(ToolAnswer::Made(output_of(alloc, name.key(), result)?))
        }
        None => Ok(ToolAnswer::Unknown),
    }
}

impl BuiltIn {
    /// The task of this name, which is in lower case.
    fn find(name: &str) -> Option<BuiltIn>
        ensures { result ≡ value_at name.now built_in }
    {
        match name {
            "message" => Some(BuiltIn::Message),
            "warning" => Some(BuiltIn::Warning),
            "error" => Some(BuiltIn::Error),
            "copy" => Some(BuiltIn::Copy),
            "writelinestofile" => Some(BuiltIn::WriteLinesToFile),
            "readlinesfromfile" => Some(BuiltIn::ReadLinesFromFile),
            "delete" => Some(BuiltIn::Delete),
            "createitem" => Some(BuiltIn::CreateItem),
            "createproperty" => Some(BuiltIn::CreateProperty),
            _ => None,
        }
    }

    fn run(
        self,
        alloc: Global,
        dir: &str,
        view: &FileView<'_>,
        params: &[Param],
        written: u64,
    ) -> Result<TaskOutput, Failure>
        ensures { Gives result (done self dir.now view.now params.now written) }
    {
        match self {
            BuiltIn::Message => message(alloc, params),
            BuiltIn::Warning => warning(alloc, params),
            BuiltIn::Error => error(alloc, params),
            BuiltIn::Copy => copy(alloc, dir, view, params, written),
            BuiltIn::WriteLinesToFile => write_lines(alloc, dir, view, params, written),
            BuiltIn::ReadLinesFromFile => read_lines(alloc, dir, view, params),
            BuiltIn::Delete => delete(alloc, dir, view, params),
            BuiltIn::CreateItem => create_item(alloc, dir, view, params),
            BuiltIn::CreateProperty => create_property(alloc, params),
        }
    }
}

/// The output of a task, or the note of the check that it fails.
fn output_of(
    alloc: Global,
    name: &str,
    done: Result<TaskOutput, Failure>,
) -> Result<TaskOutput, NoMemory>
    ensures { IfOk result (λ output. (expected : Result TaskOutput Failure) → Gives done expected
        → output ≡ output_of name.now expected) }
{
    match done {
        Ok(output) => Ok(output),
        Err(failure) => failure.output(alloc, name),
    }
}
