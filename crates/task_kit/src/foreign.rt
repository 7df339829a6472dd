ghost use Rattle.std.specs.Prelude.{◌≡◌, IfOk, option_copied};
ghost use Rattle.msb_laws.specs.Results.{all_ok};
ghost use Rattle.task_trait.specs.Answers.{Gives};
ghost use Rattle.task_kit.specs.Foreign.{acted_by_tool, file_at, foreign_input, foreign_output};
ghost use Rattle.task_kit.specs.Progress.{Acts, Makes, made_by, output_with, started};

use crate::paths::path_in;
use crate::progress::{TaskProgress, output_with};
use msb_files::FileView;
use msb_paths::is_normal;
use msb_values::{Act, Item, List, Name, NoMemory, Text, Text8};
use std::alloc::Global;
use task_trait::{Failure, FileIn, Param, TaskOutput, ToolAnswer, ToolInput, items_of};

/// What a tool is handed: its parameters, which are without escapes already, and each file of its
/// parameter Sources with its content in the view. A path of Sources that can't be made normal is a
/// failure.
pub fn foreign_input(
    alloc: Global,
    dir: &str,
    view: &FileView<'_>,
    params: List<Param>,
) -> Result<ToolInput, Failure>
    ensures { Gives result (foreign_input dir.now view.now params) }
{
    let files = all_files(alloc, dir, view, items_of(params.as_slice(), "sources"))?;
    Ok(ToolInput { params, files })
}

fn all_files(
    alloc: Global,
    dir: &str,
    view: &FileView<'_>,
    items: &[Item],
) -> Result<List<FileIn>, Failure>
    ensures { Gives result (all_ok (file_at dir.now view.now) items.now) }
{
    let mut files = List::new(alloc);
    for item in items {
        let file = file_at(alloc, dir, view, item)?;
        files.push(file)?;
    }
    Ok(files)
}

fn file_at(alloc: Global, dir: &str, view: &FileView<'_>, item: &Item) -> Result<FileIn, Failure>
    ensures { Gives result (file_at dir.now view.now item.now) }
{
    let path = path_in(alloc, dir, "sources", item.ident.as_str())?;
    let content = copy_content(alloc, view.content(path.as_str()))?;
    Ok(FileIn { path, content })
}

fn copy_content(alloc: Global, bytes: Option<&[u8]>) -> Result<Option<Text8>, NoMemory>
    ensures { IfOk result (λ copy. copy ≡ option_copied bytes.entry) }
{
    match bytes {
        Some(bytes) => Ok(Some(Text8::of(alloc, bytes)?)),
        None => Ok(None),
    }
}

/// What is taken from a tool, in a run that has written this much before: an unknown task is a
/// failure, and so are a path that is not normal and a file that is too large, before which what
/// was done is kept.
pub fn foreign_output(
    alloc: Global,
    name: &Name,
    answer: ToolAnswer,
    written: u64,
) -> Result<TaskOutput, NoMemory>
    ensures { IfOk result (λ output. output ≡ foreign_output name.now written answer) }
{
    match answer {
        ToolAnswer::Unknown => Failure::UnknownTask.output(alloc, name.key()),
        ToolAnswer::Made(output) => check_acts(alloc, name.key(), output, written),
    }
}

fn check_acts(
    alloc: Global,
    name: &str,
    output: TaskOutput,
    written: u64,
) -> Result<TaskOutput, NoMemory>
    ensures { IfOk result
        (λ whole. whole ≡ output_with name.now output
        (made_by acted_by_tool (started written) output.acts)) }
{
    let TaskOutput {
        ok,
        outputs,
        acts,
        notes,
    } = output;
    let mut progress = TaskProgress::new(alloc, written);
    let work = act_all(alloc, &mut progress, acts.into_vec());
    let without_acts = TaskOutput {
        ok,
        outputs,
        acts: List::new(alloc),
        notes,
    };
    output_with(alloc, name, without_acts, progress, work)
}

fn act_all(alloc: Global, progress: &mut TaskProgress, acts: Vec<Act>) -> Result<(), Failure>
    ensures { Makes result progress.new (made_by acted_by_tool progress.old acts.items) }
{
    for act in acts {
        act_once(alloc, progress, act)?;
    }
    Ok(())
}

/// Writes or removes a file, whose path is to be normal.
fn act_once(alloc: Global, progress: &mut TaskProgress, act: Act) -> Result<(), Failure>
    ensures { Acts result progress.old progress.new (acted_by_tool progress.old act) }
{
    let path = Text::of(alloc, act.path())?;
    if !is_normal(act.path()) {
        return Err(Failure::BadPath(path));
    }
    progress.act(alloc, path.as_str(), act)
}
