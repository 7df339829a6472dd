//! The removal of a file of a real folder. No contract says what a folder holds, so all here is
//! trusted.
use crate::place::{is_gone, join};
use msb_paths::is_normal;
use std::alloc::Global;
use std::io::ErrorKind;
use std::rt::Files;
use std::{fs, io};

/// Takes the file at a path away, and its folder stays, be it empty or not. Where no file is, all
/// stays as it is. A link, a pipe or a device at the path is taken away as a file is, and what it
/// names stays; a folder there is an error.
pub(crate) fn remove_file<R: Files>(rt: &(&R, Global), folder: &str, path: &str) -> io::Result<()> {
    if !is_normal(path) {
        return Err(io::Error::from(ErrorKind::InvalidInput));
    }
    match unlink(rt, folder, path) {
        Err(error) if is_gone(&error) => Ok(()),
        done => done,
    }
}

fn unlink<R: Files>(rt: &(&R, Global), folder: &str, path: &str) -> io::Result<()> {
    if let Some((parents, _)) = path.rsplit_once('/') {
        refuse_links(rt, folder, parents)?;
    }
    let whole = join(rt.alloc(), folder, path)?;
    fs::remove_file(rt, whole.as_str())
}

// A link on the way to a file, also one to a folder, is an error, as it is to a file that is
// written.
fn refuse_links<R: Files>(rt: &(&R, Global), folder: &str, parents: &str) -> io::Result<()> {
    let mut whole = String::from_str(rt.alloc(), folder)?;
    for name in parents.split('/') {
        whole = join(rt.alloc(), whole.as_str(), name)?;
        if fs::symlink_metadata(rt, whole.as_str())?.is_symlink() {
            return Err(io::Error::from(ErrorKind::InvalidInput));
        }
    }
    Ok(())
}
