ghost use Rattle.std.specs.Prelude.{◌≡◌, [], ◌∷◌, ◌++◌, map, IfOk, OnOk, string_bytes, codes};
ghost use Rattle.std.specs.List.{flat_map};
ghost use Rattle.trial_set.specs.Projects.{
  name_of,
  file_of,
  output_of,
  next_file,
  file_list,
  call_text,
  output_text,
  calls_text,
  lines_text,
  write_text,
  target_text,
  build_text,
  project_text,
  root_text,
};

use crate::elements::element;
use msb_values::NoMemory;
use std::alloc::Global;
use std::fmt::Write;

/// The file of a project.
pub(crate) fn file_of(alloc: Global, number: u64) -> Result<String, NoMemory>
    ensures { IfOk result (λ file. string_bytes file ≡ file_of number) }
{
    Ok(format!(in alloc; "p{number}.proj")?)
}

/// The text of a project, which calls these.
pub(crate) fn project(alloc: Global, number: u64, calls: &[u64]) -> Result<String, NoMemory>
    ensures { IfOk result (λ text. string_bytes text ≡ project_text number calls.now) }
{
    let tasks = tasks(alloc, number, calls)?;
    let output = output_of(alloc, number)?;
    build(alloc, output.as_str(), &tasks)
}

/// The text of the project that calls all.
pub(crate) fn root(alloc: Global, all: &[u64]) -> Result<String, NoMemory>
    ensures { IfOk result (λ text. string_bytes text ≡ root_text all.now) }
{
    let tasks = one(alloc, call(alloc, all, &[])?)?;
    target(alloc, &[("Name", "Build")], &tasks)
}

/// The tasks of a project's target.
fn tasks(alloc: Global, number: u64, calls: &[u64]) -> Result<Vec<String>, NoMemory>
    ensures { IfOk result (λ tasks. map string_bytes tasks.items
        ≡ calls_text calls.now ++ write_text number ∷ []) }
{
    let mut tasks = call_if_any(alloc, calls)?;
    tasks.push(write(alloc, number)?)?;
    Ok(tasks)
}

/// The target Build, which writes this file.
fn build(alloc: Global, file: &str, tasks: &[String]) -> Result<String, NoMemory>
    ensures { IfOk result (λ text. string_bytes text
        ≡ build_text file.now (map string_bytes tasks.now)) }
{
    target(alloc, &[("Name", "Build"), ("Outputs", file)], tasks)
}

fn target(alloc: Global, attributes: &[(&str, &str)], tasks: &[String]) -> Result<String, NoMemory>
    ensures { IfOk result (λ text. string_bytes text
        ≡ target_text (map (λ p. (p.0.now, p.1.now)) attributes.now) (map string_bytes tasks.now)) }
{
    let targets = one(alloc, element(alloc, "Target", attributes, tasks)?)?;
    element(alloc, "Project", &[], &targets)
}

fn one(alloc: Global, text: String) -> Result<Vec<String>, NoMemory>
    ensures { IfOk result (λ texts. map string_bytes texts.items ≡ string_bytes text ∷ []) }
{
    let mut texts = Vec::new(alloc);
    texts.push(text)?;
    Ok(texts)
}

/// The call of the projects that a project calls, if there are any.
fn call_if_any(alloc: Global, calls: &[u64]) -> Result<Vec<String>, NoMemory>
    ensures { IfOk result (λ tasks. map string_bytes tasks.items ≡ calls_text calls.now) }
{
    let mut tasks = Vec::new(alloc);
    if !calls.is_empty() {
        let outputs = one(alloc, output(alloc)?)?;
        tasks.push(call(alloc, calls, &outputs)?)?;
    }
    Ok(tasks)
}

/// A task that calls projects at once.
fn call(alloc: Global, calls: &[u64], outputs: &[String]) -> Result<String, NoMemory>
    ensures { IfOk result (λ text. string_bytes text
        ≡ call_text calls.now (map string_bytes outputs.now)) }
{
    let files = file_list(alloc, calls)?;
    element(
        alloc,
        "MSBuild",
        &[("BuildInParallel", "true"), ("Projects", files.as_str())],
        outputs,
    )
}

/// What the projects return goes to the item O.
fn output(alloc: Global) -> Result<String, NoMemory>
    ensures { IfOk result (λ text. string_bytes text ≡ output_text) }
{
    element(
        alloc,
        "Output",
        &[("ItemName", "O"), ("TaskParameter", "TargetOutputs")],
        &[],
    )
}

/// A task that writes the project's name and what was returned to its file.
fn write(alloc: Global, number: u64) -> Result<String, NoMemory>
    ensures { IfOk result (λ text. string_bytes text ≡ write_text number) }
{
    let file = output_of(alloc, number)?;
    let lines = lines_of(alloc, number)?;
    write_lines(alloc, file.as_str(), lines.as_str())
}

fn lines_of(alloc: Global, number: u64) -> Result<String, NoMemory>
    ensures { IfOk result (λ lines. string_bytes lines ≡ name_of number ++ codes ";@(O)") }
{
    Ok(format!(in alloc; "p{number};@(O)")?)
}

fn write_lines<'a>(alloc: Global, file: &'a str, lines: &'a str) -> Result<String, NoMemory>
    ensures { IfOk result (λ text. string_bytes text ≡ lines_text file.now lines.now) }
{
    element(
        alloc,
        "WriteLinesToFile",
        &[("File", file), ("Lines", lines), ("Overwrite", "true")],
        &[],
    )
}

fn output_of(alloc: Global, number: u64) -> Result<String, NoMemory>
    ensures { IfOk result (λ file. string_bytes file ≡ output_of number) }
{
    Ok(format!(in alloc; "out/p{number}.txt")?)
}

/// Files of projects as a list.
fn file_list(alloc: Global, numbers: &[u64]) -> Result<String, NoMemory>
    ensures { IfOk result (λ list. string_bytes list ≡ file_list numbers.now) }
{
    let [first, rest @ ..] = numbers else {
        return Ok(String::new(alloc));
    };
    let mut list = file_of(alloc, *first)?;
    push_more(&mut list, rest)?;
    Ok(list)
}

fn push_more(list: &mut String, numbers: &[u64]) -> Result<(), NoMemory>
    ensures { OnOk result (string_bytes list.new
        ≡ string_bytes list.old ++ flat_map next_file numbers.now) }
{
    for number in numbers {
        write!(list, ";p{number}.proj")?;
    }
    Ok(())
}
