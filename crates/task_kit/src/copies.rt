ghost use Rattle.std.specs.Prelude.{
  ◌≡◌,
  ◌++◌,
  List,
  Result,
  Some,
  length,
  IfOk,
  option_copied,
};
ghost use Rattle.std.specs.List.{zip};
ghost use Rattle.msb_laws.specs.Results.{all_ok};
ghost use Rattle.msb_paths.specs.Parts.{filename, extension};
ghost use Rattle.task_trait.specs.Answers.{Gives};
ghost use Rattle.task_trait.specs.declared.failures.Failure.TheVariants.{MissingSource};
ghost use Rattle.task_trait.specs.declared.failures.Failure.{Failure};
ghost use Rattle.task_kit.specs.declared.copies.Destination.{Destination};
ghost use Rattle.task_kit.specs.Copies.{
  all_below,
  all_copied,
  below_at,
  chosen,
  copied,
  copied_from,
  copied_to,
  copy,
  copy_outputs,
  destination_at,
  is_unchanged,
  item_copied,
  named_at,
  source_at,
  text_below,
  written_at,
};
ghost use Rattle.task_kit.specs.Progress.{Acts, Makes, made_by};

use crate::paths::path_in;
use crate::progress::{TaskProgress, output, output_with, success};
use msb_files::FileView;
use msb_paths::{NoRoom, join, parts};
use msb_values::{Copied, Item, List, NoMemory, Put, Shared, Text, Text8};
use std::alloc::Global;
use task_trait::{Failure, Param, TaskOutput, check_known, items_of, text_of, truth_at};

/// A source of a copy, with its normal path.
pub(crate) struct Source {
    item: Item,
    path: Text,
}

// A drop that is written out is proved here alone.
impl Drop for Source {
    fn drop(self) {
        let Source { item: _, path: _ } = self;
    }
}

/// A destination of a copy as it is told, with its normal path.
pub(crate) struct Destination {
    text: Text,
    path: Text,
}

// A drop that is written out is proved here alone.
impl Drop for Destination {
    fn drop(self) {
        let Destination { text: _, path: _ } = self;
    }
}

/// What a Copy task copies by. (Copy task.)
#[derive(Clone, Copy)]
struct CopyContext<'a> {
    alloc: Global,
    /// Files as they are before the task.
    view: &'a FileView<'a>,
    /// Whether a destination that has the bytes of its source already is left as it is.
    skip_unchanged: bool,
    /// The bytes that the run has written before the task.
    written: u64,
}

/// The copies of the sources at their destinations. (Copy task.)
pub(crate) fn copy(
    alloc: Global,
    dir: &str,
    view: &FileView<'_>,
    params: &[Param],
    written: u64,
) -> Result<TaskOutput, Failure>
    ensures { Gives result (copy dir.now view.now params.now written) }
{
    check_known(alloc, "copy", params)?;
    let items = items_of(params, "sourcefiles");
    let folder = text_of(params, "destinationfolder");
    let named = named_destinations(alloc, dir, items_of(params, "destinationfiles"))?;
    let below = all_below(alloc, dir, folder, items)?;
    let skip_unchanged = truth_at(alloc, params, "skipunchangedfiles")?;
    let sources = all_sources(alloc, dir, items)?;
    let destinations = choose_destinations(named, !folder.is_empty(), below);
    let context = CopyContext {
        alloc,
        view,
        skip_unchanged,
        written,
    };
    context.copy_to(sources.as_slice(), destinations)
}

fn named_destinations(
    alloc: Global,
    dir: &str,
    items: &[Item],
) -> Result<List<Destination>, Failure>
    ensures { Gives result (all_ok (named_at dir.now) items.now) }
{
    let mut all = List::new(alloc);
    for item in items {
        let named = destination_for(alloc, dir, item)?;
        all.push(named)?;
    }
    Ok(all)
}

fn destination_for(alloc: Global, dir: &str, item: &Item) -> Result<Destination, Failure>
    ensures { Gives result (named_at dir.now item.now) }
{
    destination_at(alloc, dir, "destinationfiles", item.ident.as_str())
}

/// The destinations that a folder gives the sources; none without a folder.
fn all_below(
    alloc: Global,
    dir: &str,
    folder: &str,
    sources: &[Item],
) -> Result<List<Destination>, Failure>
    ensures { Gives result (all_below dir.now folder.now sources.now) }
{
    if folder.is_empty() {
        return Ok(List::new(alloc));
    }
    each_below(alloc, dir, folder, sources)
}

fn each_below(
    alloc: Global,
    dir: &str,
    folder: &str,
    sources: &[Item],
) -> Result<List<Destination>, Failure>
    ensures { Gives result (all_ok (below_at dir.now folder.now) sources.now) }
{
    let mut all = List::new(alloc);
    for source in sources {
        let below = below_at(alloc, dir, folder, source)?;
        all.push(below)?;
    }
    Ok(all)
}

fn below_at(alloc: Global, dir: &str, folder: &str, source: &Item) -> Result<Destination, Failure>
    ensures { Gives result (below_at dir.now folder.now source.now) }
{
    let text = text_below(alloc, folder, source.ident.as_str())?;
    destination_at(alloc, dir, "destinationfolder", text.as_str())
}

/// The file's Filename and Extension in the folder.
fn text_below(alloc: Global, folder: &str, source: &str) -> Result<Text, NoMemory>
    ensures { IfOk result (λ text. text ≡ text_below folder.now source.now) }
{
    let file = file_of(alloc, source)?;
    match join(alloc, folder, file.as_str()) {
        Ok(text) => Text::of(alloc, text.as_str()),
        Err(NoRoom) => Err(NoMemory),
    }
}

/// The Filename and the Extension of a source.
fn file_of(alloc: Global, source: &str) -> Result<Text, NoMemory>
    ensures { IfOk result (λ file. file ≡ filename source.now ++ extension source.now) }
{
    match parts(alloc, source) {
        Ok(split) => {
            let mut file = Text::of(alloc, split.filename.as_str())?;
            file.push_str(split.extension.as_str())?;
            Ok(file)
        }
        Err(NoRoom) => Err(NoMemory),
    }
}

fn destination_at(alloc: Global, dir: &str, name: &str, text: &str) -> Result<Destination, Failure>
    ensures { Gives result (destination_at dir.now name.now text.now) }
{
    let path = path_in(alloc, dir, name, text)?;
    Ok(Destination {
        text: Text::of(alloc, text)?,
        path,
    })
}

fn all_sources(alloc: Global, dir: &str, items: &[Item]) -> Result<List<Source>, Failure>
    ensures { Gives result (all_ok (source_at dir.now) items.now) }
{
    let mut all = List::new(alloc);
    for item in items {
        let source = source_at(alloc, dir, item)?;
        all.push(source)?;
    }
    Ok(all)
}

fn source_at(alloc: Global, dir: &str, item: &Item) -> Result<Source, Failure>
    ensures { Gives result (source_at dir.now item.now) }
{
    let path = path_in(alloc, dir, "sourcefiles", item.ident.as_str())?;
    Ok(Source {
        item: item.copy()?,
        path,
    })
}

/// The destinations that are named, or those below the folder, if just one of both is given.
fn choose_destinations(
    named: List<Destination>,
    has_folder: bool,
    below: List<Destination>,
) -> Result<List<Destination>, Failure>
    ensures { Gives result (chosen named has_folder below) }
{
    match (named.is_empty(), has_folder) {
        (true, true) => Ok(below),
        (false, false) => Ok(named),
        _ => Err(Failure::Destinations),
    }
}

impl<'a> CopyContext<'a> {
    /// The sources at as many destinations; without sources nothing is copied, wherever to.
    fn copy_to(
        &self,
        sources: &[Source],
        destinations: Result<List<Destination>, Failure>,
    ) -> Result<TaskOutput, Failure>
        ensures { (all : Result (List Destination) Failure) → Gives destinations all
            → Gives result
            (copied_to self.now.view.now self.now.skip_unchanged self.now.written sources.now
            all) }
    {
        if sources.is_empty() {
            return Ok(self.copy_all(sources, &[])?);
        }
        let destinations = destinations?;
        if destinations.len() != sources.len() {
            return Err(Failure::Counts(sources.len(), destinations.len()));
        }
        Ok(self.copy_all(sources, destinations.as_slice())?)
    }

    fn copy_all(
        &self,
        sources: &[Source],
        destinations: &[Destination],
    ) -> Result<TaskOutput, NoMemory>
        requires { length destinations.now ≡ length sources.now }
        ensures { IfOk result
            (λ output. output
            ≡ all_copied self.now.view.now self.now.skip_unchanged self.now.written sources.now
            destinations.now) }
    {
        let mut progress = TaskProgress::new(self.alloc, self.written);
        let work = self.copy_each(&mut progress, sources, destinations);
        let outputs = copy_outputs(self.alloc, progress.items.as_slice())?;
        Ok(output_with(
            self.alloc,
            "copy",
            success(self.alloc, outputs),
            progress,
            work,
        )?)
    }

    fn copy_each(
        &self,
        progress: &mut TaskProgress,
        sources: &[Source],
        destinations: &[Destination],
    ) -> Result<(), Failure>
        requires { length destinations.now ≡ length sources.now }
        ensures { Makes result progress.new
            (made_by (copied self.now.view.now self.now.skip_unchanged) progress.old
            (zip sources.now destinations.now)) }
    {
        for (at, source) in sources.iter().enumerate() {
            self.copy_one(progress, source, &destinations[at])?;
        }
        Ok(())
    }

    fn copy_one(
        &self,
        progress: &mut TaskProgress,
        source: &Source,
        destination: &Destination,
    ) -> Result<(), Failure>
        ensures { Acts result progress.old progress.new
            (copied self.now.view.now self.now.skip_unchanged progress.old
            (source.now, destination.now)) }
    {
        match self.view.content(source.path.as_str()) {
            Some(bytes) => self.copy_bytes(progress, bytes, source, destination),
            None => Err(Failure::MissingSource(source.item.ident.copy()?)),
        }
    }

    fn copy_bytes(
        &self,
        progress: &mut TaskProgress,
        bytes: &[u8],
        source: &Source,
        destination: &Destination,
    ) -> Result<(), Failure>
        ensures { Acts result progress.old progress.new
            (copied_from (Some bytes.now) self.now.view.now self.now.skip_unchanged progress.old
            (source.now, destination.now)) }
    {
        self.write_at(progress, bytes, destination)?;
        progress.items.push(copied_item(source, destination)?)?;
        Ok(())
    }

    /// Writes the bytes, unless the destination has them already and is then left as it is.
    fn write_at(
        &self,
        progress: &mut TaskProgress,
        bytes: &[u8],
        destination: &Destination,
    ) -> Result<(), Failure>
        ensures { Acts result progress.old progress.new
            (written_at self.now.view.now self.now.skip_unchanged bytes.now destination.now
            progress.old) }
    {
        if self.skip_unchanged
            && is_unchanged(self.view.content(destination.path.as_str()), bytes)
        {
            return Ok(());
        }
        let put = Put {
            path: destination.path.copy()?,
            bytes: Shared::new(self.alloc, Text8::of(self.alloc, bytes)?)?,
        };
        progress.write(self.alloc, destination.text.as_str(), put)
    }
}

/// The copied items under both names of the task's outputs.
fn copy_outputs(alloc: Global, items: &[Item]) -> Result<List<Param>, NoMemory>
    ensures { IfOk result (λ outputs. outputs ≡ copy_outputs items.now) }
{
    let mut outputs = List::new(alloc);
    outputs.push(output(alloc, "destinationfiles", List::of(alloc, items)?)?)?;
    outputs.push(output(alloc, "copiedfiles", List::of(alloc, items)?)?)?;
    Ok(outputs)
}

fn is_unchanged(held: Option<&[u8]>, bytes: &[u8]) -> bool
    ensures { result ≡ is_unchanged (option_copied held.entry) bytes.now }
{
    match held {
        Some(held) => held == bytes,
        None => false,
    }
}

/// The source's item at its destination.
fn copied_item(source: &Source, destination: &Destination) -> Result<Item, NoMemory>
    ensures { IfOk result (λ item. item ≡ item_copied source.now destination.now) }
{
    Ok(Item {
        ident: destination.text.copy()?,
        recursive: source.item.recursive.copy()?,
        meta: source.item.meta.copy()?,
    })
}
