//! A real folder, and the paths in it.
use std::alloc::{AllocError, Global};
use std::io;
use std::io::ErrorKind;
use std::rt::Files;

/// A real folder, and what reaches it.
#[derive(Clone, Copy)]
pub(crate) struct Place<'a, R: Files> {
    pub(crate) rt: &'a R,
    pub(crate) alloc: Global,
    /// The path of the folder.
    pub(crate) folder: &'a str,
}

impl<'a, R: Files> Place<'a, R> {
    /// Puts the path by which the system has a path of the folder in place of a text, whose memory
    /// serves for many paths.
    pub(crate) fn put_path(&self, whole: &mut String, path: &str) -> Result<(), AllocError> {
        whole.clear();
        push_joined(whole, self.folder, path)
    }
}

/// The path of a name in a folder.
pub(crate) fn join(alloc: Global, folder: &str, name: &str) -> Result<String, AllocError> {
    let length = folder.len().saturating_add(name.len());
    let mut path = String::with_capacity(alloc, length.saturating_add(1))?;
    push_joined(&mut path, folder, name)?;
    Ok(path)
}

fn push_joined(path: &mut String, folder: &str, name: &str) -> Result<(), AllocError> {
    path.push_str(folder)?;
    if !folder.is_empty() && !folder.ends_with('/') {
        path.push('/')?;
    }
    path.push_str(name)
}

/// No file has the name, or what stands on the way to it is no folder.
pub(crate) fn is_gone(error: &io::Error) -> bool {
    matches!(error.kind(), ErrorKind::NotFound | ErrorKind::NotADirectory)
}
