ghost use Rattle.std.specs.Prelude.{◌≡◌, ◌-◌, ◌≤◌, length, take, IfOk};
ghost use Rattle.std.specs.Str.{IsCharBoundary};
ghost use Rattle.msb_paths.specs.Parts.{file_of, file_name, relative_dir, filename, extension};

use crate::segments::is_separator;
use crate::{NoRoom, Word};
use std::alloc::Global;

/// The parts of an item's identity, as MSBuild's well-known item metadata names them.
pub struct Split {
    /// The identity through its last `/` or `\`, else empty.
    pub relative_dir: Word,
    /// What follows, up to its last `.`, or all of it without one.
    pub filename: Word,
    /// The rest, from that last `.` on.
    pub extension: Word,
}

// A drop that is written out is proved here alone.
impl Drop for Split {
    fn drop(self) {
        let Split {
            relative_dir: _,
            filename: _,
            extension: _,
        } = self;
    }
}

impl Split {
    /// RelativeDir, Filename and Extension.
    pub fn parts(self) -> (Word, Word, Word)
        ensures relative_dir { result.0 ≡ self.relative_dir }
        ensures filename { result.1 ≡ self.filename }
        ensures extension { result.2 ≡ self.extension }
    {
        let Split {
            relative_dir,
            filename,
            extension,
        } = self;
        (relative_dir, filename, extension)
    }
}

/// Parts an unescaped identity into RelativeDir, Filename and Extension.
pub fn parts(alloc: Global, text: &str) -> Result<Split, NoRoom>
    ensures relative_dir { IfOk result (λ split. split.relative_dir ≡ relative_dir text.now) }
    ensures filename { IfOk result (λ split. split.filename ≡ filename text.now) }
    ensures extension { IfOk result (λ split. split.extension ≡ extension text.now) }
{
    let (folder, file) = text.split_at(folder_len(text));
    let (filename, extension) = file.split_at(filename_len(file));
    Ok(Split {
        relative_dir: Word::of(alloc, folder)?,
        filename: Word::of(alloc, filename)?,
        extension: Word::of(alloc, extension)?,
    })
}

/// The length of the part through the last separator.
fn folder_len(text: &str) -> usize
    ensures within { result ≤ length text.now }
    ensures value { result ≡ length text.now - length (file_of text.now) }
    ensures boundary { IsCharBoundary text.now result }
{
    let bytes = text.as_bytes();
    let mut end = bytes.len();
    while end > 0 {
        if is_separator(bytes[end - 1]) {
            return end;
        }
        end -= 1;
    }
    0
}

/// The length of a file's name up to its last dot.
fn filename_len(file: &str) -> usize
    ensures value { take result file.now ≡ file_name file.now }
    ensures len { result ≡ length (file_name file.now) }
    ensures boundary { IsCharBoundary file.now result }
{
    match file.rfind('.') {
        Some(at) => at,
        None => file.len(),
    }
}
