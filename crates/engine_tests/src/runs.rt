//! What tests share: files, words, runs, and comparisons.
use file_store::{File, MemSink, MemStore, Tree};
use msb_program::{run, run_alone};
use msb_values::{List, NoMemory, Text, Text8};
use std::alloc::{AllocError, Global};
use std::process::Abort;
use std::str;
use std::sync::Wait;
use std::test::Fail;
use std::thread::Threads;
use task_trait::{Counted, Tools};

/// What was got is what was wanted; the line tells which row it is of.
pub fn is_text<R: Abort>(rt: &R, got: &[u8], want: &str, line: &str) {
    let text = match str::from_utf8(got) {
        Ok(text) => text,
        Err(_) => "no text",
    };
    assert_eq!(*rt; text, want, "{line}");
}

pub fn is_number<R: Abort>(rt: &R, got: u64, want: u64, line: &str) {
    assert_eq!(*rt; got, want, "{line}");
}

pub fn is_so<R: Abort>(rt: &R, holds: bool, line: &str) {
    assert!(*rt; holds, "{line}");
}

/// The tree has this file with this text.
pub fn has_file<R: Abort>(rt: &R, tree: &Tree, path: &str, text: &str) {
    match tree.find(path) {
        Some(file) => is_text(rt, file.bytes.as_bytes(), text, path),
        None => is_so(rt, false, path),
    }
}

/// The tree of these files, which stand in byte order of their paths.
pub fn tree(alloc: Global, files: &[(&str, &str)]) -> Result<Tree, Fail> {
    let mut list = List::new(alloc);
    for (path, text) in files {
        list.push(file(alloc, path, text)?)?;
    }
    Ok(Tree::of(list).ok_or("the paths are in order")?)
}

pub fn file(alloc: Global, path: &str, text: &str) -> Result<File, NoMemory> {
    Ok(File {
        path: Text::of(alloc, path)?,
        bytes: Text8::of(alloc, text.as_bytes())?,
        stamp: 1,
    })
}

/// What a run works on.
#[derive(Drop)]
pub struct Outside {
    pub store: MemStore,
    pub sink: MemSink,
}

/// A store of a tree, whose call of this number fails, and a sink whose write of that one does.
pub fn outside_of(
    alloc: Global,
    tree: Tree,
    fail: u64,
    fail_at: Option<u64>,
) -> Result<Outside, Fail> {
    let mut failing = Vec::new(alloc);
    failing.push(fail)?;
    Ok(Outside {
        store: MemStore::new(alloc, tree, failing)?,
        sink: MemSink::new(alloc, fail_at)?,
    })
}

/// The words of a line.
fn words(alloc: Global, line: &str) -> Result<Vec<String>, AllocError> {
    let mut words = Vec::new(alloc);
    for word in line.split_whitespace() {
        words.push(String::from_str(alloc, word)?)?;
    }
    Ok(words)
}

/// The status of the words of a line.
pub fn status<R: Threads + Wait + Sync, T: Tools + Sync>(
    rt: &R,
    alloc: Global,
    line: &str,
    on: &mut Outside,
    tools: &T,
) -> Result<u8, AllocError> {
    let words = words(alloc, line)?;
    Ok(run(rt, alloc, &words, &mut on.store, &mut on.sink, tools))
}

/// The status of the words of a line on one node.
pub fn status_alone<T: Tools>(
    alloc: Global,
    line: &str,
    on: &mut Outside,
    tools: &mut Counted<'_, T>,
) -> Result<u8, AllocError> {
    let words = words(alloc, line)?;
    Ok(run_alone(alloc, &words, &mut on.store, &mut on.sink, tools))
}
