//! Each call of a store, and the write of a sink, fails in turn.
use crate::runs::{
    Outside, has_file, is_number, is_so, is_text, outside_of, status, status_alone, tree,
};
use file_store::{MemSink, Sink, Store, Tree};
use std::alloc::Global;
use std::process::Abort;
use std::sync::Wait;
use std::test::Fail;
use std::thread::Threads;
use task_trait::{Counted, NoTools};
use trial_set::make;

/// The words of a build that calls three projects, and of one that calls itself.
const BUILD: &str = "build app/app.proj --nodes 8";

const CIRCLE: &str = "build app/app.proj --target Circle --nodes 8";

const LIBRARY: &str = r#"{"e":"Project","c":[{"e":"Import","a":{"Project":"../common.props"}},
{"e":"ItemGroup","c":[{"e":"Src","a":{"Include":"*.c"}}]}]}"#;

const APP: &str = r#"{"e":"Project","a":{"DefaultTargets":"Link"},"c":[
{"e":"Import","a":{"Project":"../common.props"}},
{"e":"Target","a":{"Name":"Link"},"c":[
{"e":"MSBuild","a":{"Projects":"../a/a.proj;../b/b.proj;../c/c.proj","BuildInParallel":"true"},
"c":[{"e":"Output","a":{"TaskParameter":"TargetOutputs","ItemName":"O"}}]},
{"e":"WriteLinesToFile","a":{"File":"$(Out)/app.txt","Lines":"@(O)","Overwrite":"true"}}]},
{"e":"Target","a":{"Name":"Circle"},"c":[
{"e":"WriteLinesToFile","a":{"File":"a","Lines":"a"}},
{"e":"MSBuild","a":{"Projects":"app.proj","Targets":"Circle"}}]}]}"#;

const COMMON: &str = r#"{"e":"Project","c":[
{"e":"PropertyGroup","c":[{"e":"Out","t":"$(MSBuildThisFileDirectory)out"}]},
{"e":"Target","a":{"Name":"Build","Inputs":"@(Src)","Outputs":"@(Src->'$(Out)/%(Filename).o')"},
"c":[{"e":"Copy",
"a":{"SourceFiles":"@(Src)","DestinationFiles":"@(Src->'$(Out)/%(Filename).o')"}}]}]}"#;

const FILES: [(&str, &str); 9] = [
    ("a/a.proj", LIBRARY),
    ("a/a1.c", "int a1;\n"),
    ("a/a2.c", "int a2;\n"),
    ("app/app.proj", APP),
    ("b/b.c", "int b;\n"),
    ("b/b.proj", LIBRARY),
    ("c/c.c", "int c;\n"),
    ("c/c.proj", LIBRARY),
    ("common.props", COMMON),
];

/// The files that the build writes, in order.
const WRITTEN: [(&str, &str); 5] = [
    ("out/a1.o", "int a1;\n"),
    ("out/a2.o", "int a2;\n"),
    ("out/b.o", "int b;\n"),
    ("out/c.o", "int c;\n"),
    ("out/app.txt", "/out/a1.o\n/out/a2.o\n/out/b.o\n/out/c.o\n"),
];

const REPORT: &str = "a/a.proj : build ran
b/b.proj : build ran
c/c.proj : build ran
app/app.proj : link ran
returned 0
build succeeded
";

const TRIAL: &str = "trial 7 size 2 nodes 2\nruns 3\nfiles 2\nbytes 17\nequal\n";

/// Words, the call of the store that fails (0 is its listing, 1 to 9 are its reads, and 10 to 14
/// its writes), the write of the sink that does, the status, what is printed, and how many files
/// are written.
type Row = (&'static str, u64, Option<u64>, u64, &'static str, u64);

/// No call of the store has this number.
const NO_CALL: u64 = 15;

const ROWS: [Row; 24] = [
    (BUILD, NO_CALL, None, 0, REPORT, 5),
    (BUILD, 0, None, 5, "store fault\n", 0),
    (BUILD, 1, None, 5, "store fault a/a.proj\n", 0),
    (BUILD, 2, None, 5, "store fault a/a1.c\n", 0),
    (BUILD, 3, None, 5, "store fault a/a2.c\n", 0),
    (BUILD, 4, None, 5, "store fault app/app.proj\n", 0),
    (BUILD, 5, None, 5, "store fault b/b.c\n", 0),
    (BUILD, 6, None, 5, "store fault b/b.proj\n", 0),
    (BUILD, 7, None, 5, "store fault c/c.c\n", 0),
    (BUILD, 8, None, 5, "store fault c/c.proj\n", 0),
    (BUILD, 9, None, 5, "store fault common.props\n", 0),
    (BUILD, 10, None, 5, "store fault out/a1.o\n", 0),
    (BUILD, 11, None, 5, "store fault out/a2.o\n", 1),
    (BUILD, 12, None, 5, "store fault out/b.o\n", 2),
    (BUILD, 13, None, 5, "store fault out/c.o\n", 3),
    (BUILD, 14, None, 5, "store fault out/app.txt\n", 4),
    (BUILD, NO_CALL, Some(0), 6, "", 5),
    (BUILD, 0, Some(0), 5, "", 0),
    (BUILD, 14, Some(0), 5, "", 4),
    (CIRCLE, NO_CALL, Some(0), 4, "", 0),
    ("build no.proj", NO_CALL, Some(0), 3, "", 0),
    ("build", NO_CALL, Some(0), 2, "", 0),
    ("trial 7 --size 2 --nodes 2", 0, None, 0, TRIAL, 0),
    ("trial 7 --size 2 --nodes 2", 0, Some(0), 6, "", 0),
];

// On one node and on several. Behind a failure of the store the next build makes all files.
#[test]
fn failing_calls_are_told(rt: HostRuntime) -> Result<(), Fail> {
    for row in &ROWS {
        is_told_alone(&rt, rt.alloc(), row)?;
        is_told(&rt, rt.alloc(), row)?;
    }
    Ok(())
}

fn is_told_alone<R: Abort>(rt: &R, alloc: Global, row: &Row) -> Result<(), Fail> {
    let mut on = outside_of(alloc, tree(alloc, &FILES)?, row.1, row.2)?;
    let mut tools = Counted::new(alloc, &NoTools)?;
    let answer = status_alone(alloc, row.0, &mut on, &mut tools)?;
    ends(rt, row, answer, &on);
    Ok(())
}

fn is_told<R: Threads + Wait + Sync + Abort>(rt: &R, alloc: Global, row: &Row) -> Result<(), Fail> {
    let mut on = outside_of(alloc, tree(alloc, &FILES)?, row.1, row.2)?;
    let answer = status(rt, alloc, row.0, &mut on, &NoTools)?;
    ends(rt, row, answer, &on);
    if answer == 5 {
        let next = status(rt, alloc, row.0, &mut on, &NoTools)?;
        is_number(rt, u64::from(next), 0, row.0);
        has_written(rt, on.store.tree(), WRITTEN.len() as u64, row.0);
    }
    Ok(())
}

fn ends<R: Abort>(rt: &R, row: &Row, status: u8, on: &Outside) {
    let (line, _, _, want, printed, written) = row;
    is_number(rt, u64::from(status), *want, line);
    is_text(rt, on.sink.bytes(), printed, line);
    has_written(rt, on.store.tree(), *written, printed);
    is_number(rt, on.store.faults(), u64::from(status == 5), line);
    is_number(rt, on.sink.faults(), u64::from(row.2.is_some()), line);
}

/// The first of the files, so many, are there, and no others.
fn has_written<R: Abort>(rt: &R, tree: &Tree, count: u64, line: &str) {
    is_number(
        rt,
        tree.files.len() as u64,
        count.saturating_add(FILES.len() as u64),
        line,
    );
    for (path, text) in WRITTEN.iter().take(count as usize) {
        has_file(rt, tree, path, text);
    }
}

#[test]
fn a_chosen_write_of_a_sink_fails(rt: HostRuntime) -> Result<(), Fail> {
    let mut sink = MemSink::new(rt.alloc(), Some(1))?;
    for (text, is_ok) in &[("one", true), ("two", false), ("three", true)] {
        is_so(&rt, sink.write(text.as_bytes()).is_ok() == *is_ok, text);
    }
    is_text(&rt, sink.bytes(), "onethree", "bytes");
    is_number(&rt, sink.faults(), 1, "faults");
    Ok(())
}

/// The files of the set of seed 7 and size 2, without their line breaks. The first draw is
/// 1,059,165,278, so project 2 draws two numbers, both 1.
const SEVEN: [(&str, &str); 3] = [
    (
        "all.proj",
        r#"{"c":[{"a":{"Name":"Build"},
"c":[{"a":{"BuildInParallel":"true","Projects":"p1.proj;p2.proj"},"e":"MSBuild"}],
"e":"Target"}],"e":"Project"}"#,
    ),
    (
        "p1.proj",
        r#"{"c":[{"a":{"Name":"Build","Outputs":"out/p1.txt"},
"c":[{"a":{"File":"out/p1.txt","Lines":"p1;@(O)","Overwrite":"true"},"e":"WriteLinesToFile"}],
"e":"Target"}],"e":"Project"}"#,
    ),
    (
        "p2.proj",
        r#"{"c":[{"a":{"Name":"Build","Outputs":"out/p2.txt"},
"c":[{"a":{"BuildInParallel":"true","Projects":"p1.proj"},
"c":[{"a":{"ItemName":"O","TaskParameter":"TargetOutputs"},"e":"Output"}],"e":"MSBuild"},
{"a":{"File":"out/p2.txt","Lines":"p2;@(O)","Overwrite":"true"},"e":"WriteLinesToFile"}],
"e":"Target"}],"e":"Project"}"#,
    ),
];

#[test]
fn the_set_of_a_seed_is_made(rt: HostRuntime) -> Result<(), Fail> {
    let set = make(rt.alloc(), 7, 2)?;
    for (path, text) in &SEVEN {
        let text = text.replace(rt.alloc(), "\n", "")?;
        has_file(&rt, &set, path, text.as_str());
    }
    is_number(
        &rt,
        set.files.len() as u64,
        3,
        "all.proj, p1.proj and p2.proj",
    );
    is_number(
        &rt,
        make(rt.alloc(), 7, 0)?.files.len() as u64,
        1,
        "all.proj",
    );
    Ok(())
}
