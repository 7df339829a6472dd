ghost use Rattle.std.specs.Prelude.{◌≡◌, Some, IfOk, option_copied};
ghost use Rattle.msb_expand.specs.Functions.{plain_item};
ghost use Rattle.task_trait.specs.Answers.{Gives};
ghost use Rattle.task_trait.specs.declared.failures.Failure.TheVariants.{NotText};
ghost use Rattle.task_kit.specs.Read.{lines_in, lines_output, lines_read, read_lines};

use crate::paths::path_in;
use crate::progress::{output, success};
use msb_files::FileView;
use msb_values::{Item, List, NoMemory, Pairs, Text, trim};
use std::alloc::Global;
use std::str;
use task_trait::{Failure, Param, TaskOutput, check_known, needed_text};

/// The lines of the file, of which one that is missing has none. (ReadLinesFromFile task.)
pub(crate) fn read_lines(
    alloc: Global,
    dir: &str,
    view: &FileView<'_>,
    params: &[Param],
) -> Result<TaskOutput, Failure>
    ensures { Gives result (read_lines dir.now view.now params.now) }
{
    check_known(alloc, "readlinesfromfile", params)?;
    let file = needed_text(alloc, params, "file")?;
    let path = path_in(alloc, dir, "file", file)?;
    lines_read(alloc, file, view.content(path.as_str()))
}

fn lines_read(alloc: Global, file: &str, content: Option<&[u8]>) -> Result<TaskOutput, Failure>
    ensures { Gives result (lines_read file.now (option_copied content.entry)) }
{
    match content {
        Some(bytes) => lines_of_bytes(alloc, file, bytes),
        None => Ok(lines_output(alloc, List::new(alloc))?),
    }
}

fn lines_of_bytes(alloc: Global, file: &str, bytes: &[u8]) -> Result<TaskOutput, Failure>
    ensures { Gives result (lines_read file.now (Some bytes.now)) }
{
    match str::from_utf8(bytes) {
        Ok(text) => Ok(lines_output(alloc, lines_in(alloc, text)?)?),
        Err(_) => Err(Failure::NotText(Text::of(alloc, file)?)),
    }
}

/// The lines of a text, trimmed as the entries of a list, without the empty ones.
fn lines_in(alloc: Global, text: &str) -> Result<List<Item>, NoMemory>
    ensures { IfOk result (λ items. items ≡ lines_in text.now) }
{
    let mut items = List::new(alloc);
    for piece in text.split('\n') {
        let line = trim(piece);
        if !line.is_empty() {
            items.push(plain_item(alloc, line)?)?;
        }
    }
    Ok(items)
}

fn lines_output(alloc: Global, items: List<Item>) -> Result<TaskOutput, NoMemory>
    ensures { IfOk result (λ output. output ≡ lines_output items) }
{
    let mut outputs = List::new(alloc);
    outputs.push(output(alloc, "lines", items)?)?;
    Ok(success(alloc, outputs))
}

/// An item without metadata.
fn plain_item(alloc: Global, ident: &str) -> Result<Item, NoMemory>
    ensures { IfOk result (λ item. item ≡ plain_item ident.now) }
{
    Ok(Item {
        ident: Text::of(alloc, ident)?,
        recursive: Text::of(alloc, "")?,
        meta: Pairs::new(alloc),
    })
}
