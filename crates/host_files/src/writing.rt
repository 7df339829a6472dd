//! The writing of a whole file into a real folder. No contract says what a folder holds, so all
//! here is trusted.
use crate::place::join;
use msb_paths::is_normal;
use std::alloc::Global;
use std::fs::{File, OpenFile, OpenOptions, Permissions};
use std::io::{ErrorKind, Write};
use std::rt::Files;
use std::{fs, io};

/// How the name of a new file begins until it is whole. No listing has such a name.
pub(crate) const NEW: &str = ".msb-";

/// Gives a path just these bytes: they are written to a new file beside it, which then takes its
/// name. So a file there is whole at each moment, a link, a pipe or a device is replaced, and what
/// it names stays as it is.
pub(crate) fn write_file<R: Files>(
    rt: &(&R, Global),
    folder: &str,
    path: &str,
    bytes: &[u8],
) -> io::Result<()> {
    if !is_normal(path) {
        return Err(io::Error::from(ErrorKind::InvalidInput));
    }
    let parent = make_folders(rt, folder, path)?;
    let whole = join(rt.alloc(), folder, path)?;
    let old = old_permissions(rt, whole.as_str())?;
    let (new, mut file) = new_file(rt, parent.as_str())?;
    let done = match fill(&mut file, old, bytes) {
        Ok(()) => fs::rename(rt, new.as_str(), whole.as_str()),
        Err(error) => Err(error),
    };
    if done.is_err() {
        let _ = fs::remove_file(rt, new.as_str());
    }
    done
}

// Makes the folders on the way to a file that are not there, and gives the path of the last one.
fn make_folders<R: Files>(rt: &(&R, Global), folder: &str, path: &str) -> io::Result<String> {
    fs::create_dir_all(rt, folder)?;
    let mut whole = String::from_str(rt.alloc(), folder)?;
    let Some((parents, _)) = path.rsplit_once('/') else {
        return Ok(whole);
    };
    for name in parents.split('/') {
        whole = join(rt.alloc(), whole.as_str(), name)?;
        make_folder(rt, whole.as_str())?;
    }
    Ok(whole)
}

// Makes a folder where none is. A link, also one to a folder, is none, and what has its name is an
// error.
fn make_folder<R: Files>(rt: &(&R, Global), path: &str) -> io::Result<()> {
    let made = fs::create_dir(rt, path);
    if made.is_err() && fs::symlink_metadata(rt, path)?.is_dir() {
        return Ok(());
    }
    made
}

// The permissions of the file at a path, if one is there. One that may not be written is an error.
fn old_permissions<R: Files>(rt: &(&R, Global), path: &str) -> io::Result<Option<Permissions>> {
    match fs::symlink_metadata(rt, path) {
        Ok(data) if data.is_file() => {
            OpenOptions::new().write(true).open(rt, path)?;
            Ok(Some(data.permissions()))
        }
        Err(error) if error.kind() != ErrorKind::NotFound => Err(error),
        _ => Ok(None),
    }
}

// A new file in a folder, by the first name that is free, and its path.
fn new_file<R: Files>(rt: &(&R, Global), parent: &str) -> io::Result<(String, R::File)> {
    for number in 0..u64::MAX {
        let name = format!(in rt.alloc(); "{NEW}{number}")?;
        let path = join(rt.alloc(), parent, name.as_str())?;
        match File::create_new(rt, path.as_str()) {
            Err(error) if error.kind() == ErrorKind::AlreadyExists => {}
            made => return Ok((path, made?)),
        }
    }
    Err(io::Error::from(ErrorKind::AlreadyExists))
}

// Permissions come first, so that nobody reads what the old file kept from them.
fn fill<F: Write + OpenFile>(
    file: &mut F,
    permissions: Option<Permissions>,
    bytes: &[u8],
) -> io::Result<()> {
    if let Some(permissions) = permissions {
        file.set_permissions(permissions)?;
    }
    file.write_all(bytes)
}
