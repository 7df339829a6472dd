ghost use Rattle.std.specs.Prelude.{◌≡◌, [], ◌∷◌, ◌++◌, IfOk, OnOk};
ghost use Rattle.msb_files.specs.Views.{content};
ghost use Rattle.task_trait.specs.Answers.{Gives};
ghost use Rattle.task_kit.specs.Lines.{
  kept_text,
  lines_of,
  output_written,
  write_lines,
  written_lines,
};
ghost use Rattle.task_kit.specs.Progress.{Acts};

use crate::paths::path_in;
use crate::progress::{TaskProgress, output_with, success};
use msb_files::FileView;
use msb_values::{Item, List, NoMemory, Put, Shared, Text, Text8};
use std::alloc::Global;
use task_trait::{Failure, Param, TaskOutput, check_known, items_of, needed_text, truth_at};

/// What a WriteLinesToFile task is to do.
#[derive(Clone, Copy)]
struct Writing<'a> {
    /// The path of the file as it is told.
    file: &'a str,
    overwrite: bool,
    lines: &'a [Item],
}

/// The lines behind what the file has, or instead of it. (WriteLinesToFile task.)
pub(crate) fn write_lines(
    alloc: Global,
    dir: &str,
    view: &FileView<'_>,
    params: &[Param],
    written: u64,
) -> Result<TaskOutput, Failure>
    ensures { Gives result (write_lines dir.now view.now params.now written) }
{
    check_known(alloc, "writelinestofile", params)?;
    let file = needed_text(alloc, params, "file")?;
    let path = path_in(alloc, dir, "file", file)?;
    let writing = Writing {
        file,
        overwrite: truth_at(alloc, params, "overwrite")?,
        lines: items_of(params, "lines"),
    };
    Ok(output_written(alloc, view, &writing, path, written)?)
}

fn output_written(
    alloc: Global,
    view: &FileView<'_>,
    writing: &Writing<'_>,
    path: Text,
    written: u64,
) -> Result<TaskOutput, NoMemory>
    ensures { IfOk result
        (λ output. output ≡ output_written view.now writing.now.file.now path writing.now.overwrite
        writing.now.lines.now written) }
{
    let mut progress = TaskProgress::new(alloc, written);
    let work = write_file(alloc, view, writing, path, &mut progress);
    let output = success(alloc, List::new(alloc));
    Ok(output_with(alloc, "writelinestofile", output, progress, work)?)
}

fn write_file(
    alloc: Global,
    view: &FileView<'_>,
    writing: &Writing<'_>,
    path: Text,
    progress: &mut TaskProgress,
) -> Result<(), Failure>
    ensures { Acts result progress.old progress.new
        (written_lines view.now writing.now.file.now path writing.now.overwrite
        writing.now.lines.now progress.old) }
{
    if !writing.overwrite && writing.lines.is_empty() {
        return Ok(());
    }
    let mut bytes = kept_text(alloc, view, writing.overwrite, path.as_str())?;
    push_lines(&mut bytes, writing.lines)?;
    let bytes = Shared::new(alloc, bytes)?;
    progress.write(alloc, writing.file, Put { path, bytes })
}

/// What a file keeps: all that it has, or nothing where it is overwritten.
fn kept_text(
    alloc: Global,
    view: &FileView<'_>,
    overwrite: bool,
    path: &str,
) -> Result<Text8, NoMemory>
    ensures { IfOk result (λ bytes. bytes ≡ kept_text overwrite (content view.now path.now)) }
{
    if overwrite {
        return Ok(Text8::new(alloc));
    }
    match view.content(path) {
        Some(present) => Text8::of(alloc, present),
        None => Ok(Text8::new(alloc)),
    }
}

/// Adds each line and LF.
fn push_lines(bytes: &mut Text8, lines: &[Item]) -> Result<(), NoMemory>
    ensures { OnOk result (bytes.new ≡ bytes.old ++ lines_of lines.now) }
{
    for line in lines {
        push_line(bytes, line.ident.as_str())?;
    }
    Ok(())
}

fn push_line(bytes: &mut Text8, line: &str) -> Result<(), NoMemory>
    ensures { OnOk result (bytes.new ≡ bytes.old ++ line.now ++ 10 ∷ []) }
{
    bytes.push_bytes(line.as_bytes())?;
    bytes.push_bytes(b"\n")
}
