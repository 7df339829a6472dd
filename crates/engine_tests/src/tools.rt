//! Tools: two nodes that meet, how often they are called, what they are handed, and what is taken
//! from them.
ghost use Rattle.std.specs.Prelude.{[], true, false, codes};
ghost use Rattle.std.specs.Str.{bytes_eq};
ghost use Rattle.task_trait.specs.declared.tools.ToolAnswer.TheVariants.{Made, Unknown};

use crate::runs::{is_number, is_so, is_text, outside_of, status, status_alone, tree};
use gate_tools::Gate;
use msb_values::{Act, Copied, Item, List, Name, NoMemory, Note, Pairs, Put, Shared, Text, Text8};
use std::alloc::{AllocError, Global};
use std::fmt::Write;
use std::str;
use std::test::Fail;
use task_kit::foreign_output;
use task_trait::{Counted, FileIn, Param, TaskOutput, ToolAnswer, ToolInput, Tools};

/// Two projects that are called at once, each of which calls a third behind a gate.
const SET: [(&str, &str); 4] = [
    (
        "l.proj",
        r#"{"e":"Project","c":[{"e":"Target","a":{"Name":"Build"},"c":[
{"e":"Gate"},{"e":"MSBuild","a":{"Projects":"s.proj"}}]}]}"#,
    ),
    (
        "r.proj",
        r#"{"e":"Project","c":[{"e":"Target","a":{"Name":"Build"},"c":[
{"e":"Gate"},{"e":"MSBuild","a":{"Projects":"s.proj"}}]}]}"#,
    ),
    (
        "root.proj",
        r#"{"e":"Project","c":[{"e":"Target","a":{"Name":"Build"},"c":[
{"e":"MSBuild","a":{"Projects":"l.proj;r.proj","BuildInParallel":"true"}}]}]}"#,
    ),
    (
        "s.proj",
        r#"{"e":"Project","c":[{"e":"Target","a":{"Name":"Build"},"c":[{"e":"Tally"}]}]}"#,
    ),
];

const PRINTED: &str = "s.proj : build ran
l.proj : build ran
r.proj : build ran
root.proj : build ran
returned 0
build succeeded
";

/// The words of a build, and whether its nodes meet at the gate.
const BUILDS: [(&str, bool); 2] = [
    ("build root.proj", false),
    ("build root.proj --nodes 2", true),
];

// Two nodes meet at the gate and one meets nobody, and either way the third project is built once.
#[test]
fn two_nodes_work_at_once(rt: HostRuntime) -> Result<(), Fail> {
    for (line, met) in &BUILDS {
        let tools = Gate::new();
        let mut on = outside_of(rt.alloc(), tree(rt.alloc(), &SET)?, u64::MAX, None)?;
        let status = status(&rt, rt.alloc(), line, &mut on, &tools)?;
        is_number(&rt, u64::from(status), 0, line);
        is_text(&rt, on.sink.bytes(), PRINTED, line);
        is_so(&rt, tools.has_met() == *met, line);
        is_number(&rt, tools.tally(), 1, line);
    }
    Ok(())
}

/// Tools of one name, `echo`, which gives back the parameters that it is handed.
struct Echo;

impl Tools for Echo {
    ghost answer = { λ name input. elim (bytes_eq name (codes "echo")) [
      | true ↦ Made (record { ok = true; outputs = input.params; acts = []; notes = [] })
      | false
          ↦ Unknown
    ] };

    fn call(&self, alloc: Global, name: &Name, input: &ToolInput) -> Result<ToolAnswer, NoMemory> {
        if name.key() == "echo" {
            return Ok(ToolAnswer::Made(TaskOutput {
                ok: true,
                outputs: input.params.copy()?,
                acts: List::new(alloc),
                notes: List::new(alloc),
            }));
        }
        Ok(ToolAnswer::Unknown)
    }
}

/// A target that writes a file, one whose tasks are tools, and one that is up to date.
const ECHOES: [(&str, &str); 4] = [
    (
        "app/a.proj",
        r#"{"e":"Project","a":{"DefaultTargets":"New;Echoes;Old"},"c":[
{"e":"ItemGroup","c":[
{"e":"X","a":{"Include":"a","K":"red"}},
{"e":"X","a":{"Include":"b","K":"RED"}},
{"e":"X","a":{"Include":"c","K":"blue"}}]},
{"e":"Target","a":{"Name":"New"},"c":[
{"e":"WriteLinesToFile","a":{"File":"new.c","Overwrite":"true"}}]},
{"e":"Target","a":{"Name":"Echoes"},"c":[
{"e":"Echo","a":{"Sources":"one.c;new.c;no.c","Text":"a%3Bb"},"c":[
{"e":"Output","a":{"TaskParameter":"Text","ItemName":"Z"}}]},
{"e":"Message","a":{"Text":"[@(Z)] @(Z->Count())"}},
{"e":"Echo","a":{"Of":"@(X)","To":"%(X.K)"}},
{"e":"Compile","a":{"Sources":"one.c","ContinueOnError":"ErrorAndContinue"}},
{"e":"Compile","a":{"ContinueOnError":"WarnAndContinue"}},
{"e":"Echo","a":{"Sources":"../..","ContinueOnError":"ErrorAndContinue"}}]},
{"e":"Target","a":{"Name":"Old","Inputs":"two.c","Outputs":"two.o"},"c":[
{"e":"Echo","a":{"Objects":"x.o;y.o"}}]}]}"#,
    ),
    ("app/one.c", "1"),
    ("app/two.c", ""),
    ("app/two.o", ""),
];

const TOLD: &str = "app/a.proj : new ran
app/a.proj : echoes ran
  [a;b] 1
  error: compile: unknown task
  warning: compile: unknown task
  error: echo: bad sources
app/a.proj : old up to date
returned 1
  two.o
build succeeded
";

/// The calls of tools: their parameters with their items and metadata, and each file of Sources
/// with its content, if it is there.
const CALLED: &str = "echo sources: one.c new.c no.c text: a;b <app/one.c 1> <app/new.c > <app/no.c>
echo of: a k=red b k=RED to: red
echo of: c k=blue to: blue
compile sources: one.c <app/one.c 1>
compile
";

#[test]
fn tools_are_handed_parameters_and_files(rt: HostRuntime) -> Result<(), Fail> {
    let mut on = outside_of(rt.alloc(), tree(rt.alloc(), &ECHOES)?, u64::MAX, None)?;
    let mut tools = Counted::new(rt.alloc(), &Echo)?;
    let status = status_alone(rt.alloc(), "build app/a.proj", &mut on, &mut tools)?;
    is_number(&rt, u64::from(status), 0, "build app/a.proj");
    is_text(&rt, on.sink.bytes(), TOLD, "printed");
    let called = called(rt.alloc(), tools.calls().as_slice())?;
    is_text(&rt, called.as_bytes(), CALLED, "called");
    Ok(())
}

fn called(alloc: Global, calls: &[(Name, ToolInput)]) -> Result<String, Fail> {
    let mut shown = String::new(alloc);
    for (name, input) in calls {
        shown.push_str(name.key())?;
        push_params(&mut shown, input.params.as_slice())?;
        push_files(&mut shown, input.files.as_slice())?;
        shown.push('\n')?;
    }
    Ok(shown)
}

fn push_params(shown: &mut String, params: &[Param]) -> Result<(), AllocError> {
    for param in params {
        write!(shown, " {}:", param.name.key())?;
        push_items(shown, param.items.as_slice())?;
    }
    Ok(())
}

fn push_items(shown: &mut String, items: &[Item]) -> Result<(), AllocError> {
    for item in items {
        write!(shown, " {}", item.ident.as_str())?;
        push_metadata(shown, &item.meta)?;
    }
    Ok(())
}

fn push_metadata(shown: &mut String, pairs: &Pairs) -> Result<(), AllocError> {
    for (name, value) in pairs.iter() {
        write!(shown, " {}={}", name.key(), value.as_str())?;
    }
    Ok(())
}

fn push_files(shown: &mut String, files: &[FileIn]) -> Result<(), Fail> {
    for file in files {
        write!(shown, " <{}", file.path.as_str())?;
        if let Some(bytes) = &file.content {
            write!(shown, " {}", str::from_utf8(bytes.as_bytes())?)?;
        }
        shown.push('>')?;
    }
    Ok(())
}

/// Whether a tool succeeds, the paths at which it writes three bytes each, those behind a minus,
/// which it removes, how much its run has written before, and what is taken: whether it succeeded,
/// how many acts, and the last note.
type Taken = (bool, &'static str, u64, &'static str);

const TAKEN: [Taken; 14] = [
    (true, "a,b.c/...", 67_108_858, "true 2 note"),
    (false, "a,a b/ü", 0, "false 2 note"),
    (true, "a,b/c", 67_108_859, "false 1 tool: too large b/c"),
    (true, "a,./b,c", 0, "false 1 tool: bad path ./b"),
    (true, "a,-b,-a", 67_108_861, "true 3 note"),
    (true, "a,-./b,c", 0, "false 1 tool: bad path ./b"),
    (true, "/a", 67_108_864, "false 0 tool: bad path /a"),
    (true, "", 0, "false 0 tool: bad path "),
    (true, "a/", 0, "false 0 tool: bad path a/"),
    (true, "a//b", 0, "false 0 tool: bad path a//b"),
    (true, "a/./b", 0, "false 0 tool: bad path a/./b"),
    (true, "..", 0, "false 0 tool: bad path .."),
    (true, "a\\b", 0, "false 0 tool: bad path a\\b"),
    (true, "a\tb", 0, "false 0 tool: bad path a\tb"),
];

#[test]
fn answers_of_tools_are_taken(rt: HostRuntime) -> Result<(), Fail> {
    let name = Name::read(rt.alloc(), "Tool")?;
    for (ok, paths, written, want) in &TAKEN {
        let made = ToolAnswer::Made(make_output(rt.alloc(), *ok, paths)?);
        let taken = foreign_output(rt.alloc(), &name, made, *written)?;
        is_text(
            &rt,
            show_output(rt.alloc(), &taken)?.as_bytes(),
            want,
            paths,
        );
    }
    Ok(())
}

fn make_output(alloc: Global, ok: bool, paths: &str) -> Result<TaskOutput, NoMemory> {
    let mut notes = List::new(alloc);
    notes.push(Note::Message(Text::of(alloc, "note")?))?;
    Ok(TaskOutput {
        ok,
        outputs: List::new(alloc),
        acts: acts(alloc, paths)?,
        notes,
    })
}

fn acts(alloc: Global, paths: &str) -> Result<List<Act>, NoMemory> {
    let mut acts = List::new(alloc);
    for path in paths.split(',') {
        acts.push(act(alloc, path)?)?;
    }
    Ok(acts)
}

fn act(alloc: Global, path: &str) -> Result<Act, NoMemory> {
    if let Some(removed) = path.strip_prefix('-') {
        return Ok(Act::Remove(Text::of(alloc, removed)?));
    }
    Ok(Act::Write(Put {
        path: Text::of(alloc, path)?,
        bytes: Shared::new(alloc, Text8::of(alloc, b"abc")?)?,
    }))
}

fn show_output(alloc: Global, output: &TaskOutput) -> Result<String, AllocError> {
    let note = match output.notes.as_slice().last() {
        Some(Note::Message(text)) => text.as_str(),
        Some(Note::Fail(text)) => text.as_str(),
        _ => "another note",
    };
    format!(in alloc; "{} {} {note}", output.ok, output.acts.len())
}
