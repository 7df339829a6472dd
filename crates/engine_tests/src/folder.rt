//! The store of a real folder, at what a build does not ask of it.
use crate::runs::{is_number, is_so};
use file_store::{Store, StoreError};
use host_files::DirStore;
use msb_values::{NoMemory, Text8};
use std::alloc::Global;
use std::path::PathBuf;
use std::process::Abort;
use std::test::Fail;
use std::{env, fs, io, process};

fn temp_folder(rt: &HostRuntime) -> io::Result<PathBuf> {
    let id = process::id(rt.process());
    let name = format!(in rt.alloc(); "engine_tests_{id}")?;
    Ok(env::temp_dir(rt)?.join(rt.alloc(), name.as_str())?)
}

#[test]
fn a_front_of_a_file_is_read(rt: HostRuntime) -> Result<(), Fail> {
    let folder = temp_folder(&rt)?;
    let store = DirStore::new(&rt, rt.alloc(), folder.as_str());
    is_front_read(&rt, rt.alloc(), store)?;
    Ok(fs::remove_dir_all(&rt, folder.as_str())?)
}

// A file of three bytes is written, and then two of them are read, and the folder.
fn is_front_read<R: Abort, S: Store + Drop>(
    rt: &R,
    alloc: Global,
    store: Result<S, NoMemory>,
) -> Result<(), NoMemory> {
    let mut store = store?;
    is_so(rt, store.write(alloc, "b/c d", b"one").is_ok(), "a write");
    is_so(rt, is_front(store.read(alloc, "b/c d", 2)), "a front");
    is_so(rt, store.read(alloc, "b", 2).is_err(), "a folder");
    is_number(rt, store.faults(), 1, "faults");
    Ok(())
}

fn is_front(read: Result<Text8, StoreError>) -> bool {
    match read {
        Ok(front) => front.as_bytes() == b"on".as_slice(),
        Err(_) => false,
    }
}
