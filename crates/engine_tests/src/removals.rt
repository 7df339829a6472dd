//! Each act of a commit that removes files, and of one that makes them anew, fails in turn.
use crate::runs::{
    Outside, has_file, is_number, is_so, is_text, outside_of, status, status_alone, tree,
};
use file_store::{MemStore, Store, Tree};
use std::alloc::Global;
use std::process::Abort;
use std::sync::Wait;
use std::test::Fail;
use std::thread::Threads;
use task_trait::{Counted, NoTools};

const PROJECT: &str = r#"{"e":"Project","c":[
{"e":"ItemGroup","c":[{"e":"C","a":{"Include":"1.c;2.c;3.c"}}]},
{"e":"Target","a":{"Name":"Build","Inputs":"@(C)","Outputs":"@(C->'o/%(Filename).o')"},"c":[
{"e":"Copy","a":{"SourceFiles":"@(C)","DestinationFiles":"@(C->'o/%(Filename).o')"}}]},
{"e":"Target","a":{"Name":"Clean"},"c":[
{"e":"Delete","a":{"Files":"@(C->'o/%(Filename).o')"}}]},
{"e":"Target","a":{"Name":"Rebuild","DependsOnTargets":"Clean;Build"}}]}"#;

const FILES: [(&str, &str); 7] = [
    ("1.c", "one\n"),
    ("2.c", "two\n"),
    ("3.c", "three\n"),
    ("a.proj", PROJECT),
    ("o/1.o", "old\n"),
    ("o/2.o", "old\n"),
    ("o/3.o", "old\n"),
];

/// The outputs as they are made anew, in order.
const MADE: [(&str, &str); 3] = [("o/1.o", "one\n"), ("o/2.o", "two\n"), ("o/3.o", "three\n")];

const CLEAN: &str = "build a.proj --target Clean --nodes 8";

const REBUILD: &str = "build a.proj --target Rebuild --nodes 8";

const CLEANED: &str = "a.proj : clean ran\nreturned 0\nbuild succeeded\n";

const REBUILT: &str =
    "a.proj : clean ran\na.proj : build ran\na.proj : rebuild ran\nreturned 0\nbuild succeeded\n";

/// Words, the call of the store that fails (0 is its listing, 1 to 7 are its reads, and 8 to 10 its
/// acts), the status, what is printed, and how many acts are done.
type Row = (&'static str, u64, u64, &'static str, u64);

/// No call of the store has this number.
const NO_CALL: u64 = 11;

const ROWS: [Row; 10] = [
    (CLEAN, NO_CALL, 0, CLEANED, 3),
    (CLEAN, 7, 5, "store fault o/3.o\n", 0),
    (CLEAN, 8, 5, "store fault o/1.o\n", 0),
    (CLEAN, 9, 5, "store fault o/2.o\n", 1),
    (CLEAN, 10, 5, "store fault o/3.o\n", 2),
    (REBUILD, NO_CALL, 0, REBUILT, 3),
    (REBUILD, 7, 5, "store fault o/3.o\n", 0),
    (REBUILD, 8, 5, "store fault o/1.o\n", 0),
    (REBUILD, 9, 5, "store fault o/2.o\n", 1),
    (REBUILD, 10, 5, "store fault o/3.o\n", 2),
];

// On one node and on several. Behind a failure of the store the next build does all acts.
#[test]
fn failing_acts_are_told(rt: HostRuntime) -> Result<(), Fail> {
    for row in &ROWS {
        is_told_alone(&rt, rt.alloc(), row)?;
        is_told(&rt, rt.alloc(), row)?;
    }
    Ok(())
}

fn is_told_alone<R: Abort>(rt: &R, alloc: Global, row: &Row) -> Result<(), Fail> {
    let mut on = outside_of(alloc, tree(alloc, &FILES)?, row.1, None)?;
    let mut tools = Counted::new(alloc, &NoTools)?;
    let answer = status_alone(alloc, row.0, &mut on, &mut tools)?;
    ends(rt, row, answer, &on);
    Ok(())
}

fn is_told<R: Threads + Wait + Sync + Abort>(rt: &R, alloc: Global, row: &Row) -> Result<(), Fail> {
    let mut on = outside_of(alloc, tree(alloc, &FILES)?, row.1, None)?;
    let answer = status(rt, alloc, row.0, &mut on, &NoTools)?;
    ends(rt, row, answer, &on);
    if answer == 5 {
        let next = status(rt, alloc, row.0, &mut on, &NoTools)?;
        is_number(rt, u64::from(next), 0, row.0);
        has_done(rt, on.store.tree(), row.0, MADE.len() as u64);
    }
    Ok(())
}

fn ends<R: Abort>(rt: &R, row: &Row, status: u8, on: &Outside) {
    let (line, _, want, printed, done) = row;
    is_number(rt, u64::from(status), *want, line);
    is_text(rt, on.sink.bytes(), printed, line);
    has_done(rt, on.store.tree(), line, *done);
    is_number(rt, on.store.faults(), u64::from(status == 5), line);
}

/// The first of the acts, so many, are done: the output is gone, or made anew. The others are as
/// they were.
fn has_done<R: Abort>(rt: &R, tree: &Tree, line: &str, done: u64) {
    for (place, (path, text)) in MADE.iter().enumerate() {
        if place as u64 >= done {
            has_file(rt, tree, path, "old\n");
        } else if line == REBUILD {
            has_file(rt, tree, path, text);
        } else {
            is_so(rt, tree.find(path).is_none(), path);
        }
    }
    let gone = if line == CLEAN { done } else { 0 };
    let left = (FILES.len() as u64).saturating_sub(gone);
    is_number(rt, tree.files.len() as u64, left, line);
}

// A removal has its number among the calls. Where no file is, all stays as it is.
#[test]
fn a_chosen_removal_of_a_store_fails(rt: HostRuntime) -> Result<(), Fail> {
    let alloc = rt.alloc();
    let mut fail = Vec::new(alloc);
    fail.push(2)?;
    let mut store = MemStore::new(alloc, tree(alloc, &FILES)?, fail)?;
    for (path, is_ok, left) in &[("o/4.o", true, 7), ("o/1.o", true, 6), ("o/2.o", false, 6)] {
        is_so(&rt, store.remove(alloc, path).is_ok() == *is_ok, path);
        is_number(&rt, store.tree().files.len() as u64, *left, path);
    }
    has_file(&rt, store.tree(), "o/2.o", "old\n");
    is_number(&rt, store.faults(), 1, "faults");
    Ok(())
}
