//! Real folders that one thread reads, and several.
use crate::DirStore;
use file_store::{Entry, Store};
use std::alloc::{AllocError, Global};
use std::path::PathBuf;
use std::process::Abort;
use std::test::Fail;
use std::{env, fs, io, process, str};

/// How many files a test reads: many times as many as a thread takes at a time, and more below one
/// folder than a thread looks at before it leaves the rest.
const FILES: usize = 1500;

/// How many of them stand beside the folder in which all others are: enough to be shared out.
const BESIDE: usize = 200;

/// How many threads read them.
const THREADS: usize = 4;

/// How long a path of the system may be, with the byte that ends it.
const LONGEST_PATH: usize = 4096;

fn temp_folder(rt: &HostRuntime, test: &str) -> io::Result<PathBuf> {
    let id = process::id(rt.process());
    let name = format!(in rt.alloc(); "host_files_{test}_{id}")?;
    Ok(env::temp_dir(rt)?.join(rt.alloc(), name.as_str())?)
}

// What was got is what was wanted.
fn is_text<R: Abort>(rt: &R, got: &str, want: &str) {
    assert_eq!(*rt; got, want);
}

// All files are told, each by its path twice and more.
fn is_long<R: Abort>(rt: &R, told: &str) {
    assert!(*rt; told.len() > 20 * FILES, "{told}");
}

#[test]
fn several_threads_read_the_same(rt: HostRuntime) -> Result<(), Fail> {
    let folder = temp_folder(&rt, "threads")?;
    let mut alone = DirStore::new(&rt, rt.alloc(), folder.as_str())?;
    write_files(rt.alloc(), &mut alone)?;
    let mut together = DirStore::new(&rt, rt.alloc(), folder.as_str())?;
    together.read_ahead(rt.alloc(), THREADS);
    let want = told(rt.alloc(), &mut alone)?;
    let got = told(rt.alloc(), &mut together)?;
    is_text(&rt, got.as_str(), want.as_str());
    is_long(&rt, want.as_str());
    Ok(fs::remove_dir_all(&rt, folder.as_str())?)
}

#[test]
fn several_threads_tell_a_fault(rt: HostRuntime) -> Result<(), Fail> {
    let folder = temp_folder(&rt, "fault")?;
    let mut store = DirStore::new(&rt, rt.alloc(), folder.as_str())?;
    write_files(rt.alloc(), &mut store)?;
    let long = long_path(rt.alloc(), folder.as_str())?;
    let mut alone = DirStore::new(&rt, rt.alloc(), long.as_str())?;
    let mut together = DirStore::new(&rt, rt.alloc(), long.as_str())?;
    together.read_ahead(rt.alloc(), THREADS);
    let want = told(rt.alloc(), &mut alone)?;
    let got = told(rt.alloc(), &mut together)?;
    is_text(&rt, got.as_str(), want.as_str());
    is_text(&rt, want.as_str(), "1 fault");
    Ok(fs::remove_dir_all(&rt, folder.as_str())?)
}

// Files beside a folder and in folders below it, and one whose path begins as that of a folder.
fn write_files<S: Store>(alloc: Global, store: &mut S) -> Result<(), Fail> {
    for number in 0..FILES {
        let path = path_of(alloc, number)?;
        let done = store.write(alloc, path.as_str(), path.as_bytes());
        done.ok().ok_or("a write")?;
    }
    Ok(store.write(alloc, "b/0-1", b"0-1").ok().ok_or("a write")?)
}

fn path_of(alloc: Global, number: usize) -> Result<String, AllocError> {
    if number < BESIDE {
        return format!(in alloc; "a file {number}");
    }
    let (outer, inner) = (number % 7, number % 5);
    format!(in alloc; "b/{outer}/{inner}/file {number}")
}

// A path of the folder by which the paths of its files are too long for the system, and its own is
// not.
fn long_path(alloc: Global, folder: &str) -> Result<String, Fail> {
    let mut path = String::from_str(alloc, folder)?;
    let steps = LONGEST_PATH.saturating_sub(folder.len() + 8) / 2;
    for _ in 0..steps {
        path.push_str("/.")?;
    }
    Ok(path)
}

// What a store tells of its files: of each a line, with its bytes.
fn told<S: Store>(alloc: Global, store: &mut S) -> Result<String, Fail> {
    let mut told = String::new(alloc);
    let Ok(entries) = store.list(alloc) else {
        let faults = store.faults();
        return Ok(format!(in alloc; "{faults} fault")?);
    };
    for entry in entries.as_slice() {
        let line = line_of(alloc, store, entry)?;
        told.push_str(line.as_str())?;
    }
    Ok(told)
}

fn line_of<S: Store>(alloc: Global, store: &mut S, entry: &Entry) -> Result<String, Fail> {
    let (path, size, stamp) = (entry.path.as_str(), entry.size, entry.stamp);
    let bytes = store.read(alloc, path, size).ok().ok_or("a read")?;
    let text = str::from_utf8(bytes.as_bytes()).ok().ok_or("a text")?;
    Ok(format!(in alloc; "{path} {size} {stamp} {text}\n")?)
}
