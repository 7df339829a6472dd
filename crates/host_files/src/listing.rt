//! The listing of a real folder. No contract says what a folder holds, so all here that has no
//! clause is trusted.
ghost use Rattle.std.specs.Prelude.{◌≡◌, ◌<ℤ◌, ◌+◌, ◌*◌, ◌^◌, ◌-◌, ℕ, pos, min};

use crate::place::{Place, is_gone, join};
use crate::reading::{Budget, ReadFile, read_file};
use crate::sharing::in_stretches;
use crate::writing::NEW;
use file_store::Entry;
use msb_values::Text;
use std::alloc::{AllocError, Global};
use std::fs::Metadata;
use std::io::{ErrorKind, Read};
use std::os::unix::fs::MetadataExt;
use std::rt::Files;
use std::thread::Threads;
use std::{fs, io, mem, str};

/// How many bytes of names are read at once.
const NAMES: usize = 16 * 1024;

/// How many paths for each thread are enough to be shared out.
const ENOUGH: usize = 8;

/// How many paths a thread looks at, of those that it took and below, before it leaves the rest, so
/// that others can share it.
const MOST: usize = 512;

/// A file that was found, with its bytes where they were read.
#[derive(Drop)]
pub(crate) struct FoundFile {
    pub(crate) entry: Entry,
    pub(crate) read: Option<ReadFile>,
}

/// What was found in folders: files, and paths that were not looked at yet.
#[derive(Drop)]
pub(crate) struct Found {
    files: Vec<FoundFile>,
    // The next one comes last.
    left: Vec<String>,
}

impl Found {
    fn append(&mut self, mut more: Found) -> Result<(), AllocError> {
        self.files.append(&mut more.files)?;
        self.left.append(&mut more.left)
    }
}

/// A walk through folders, with memory that serves at each path.
#[derive(Drop)]
struct Walk {
    found: Found,
    whole: String,
    names: Vec<u8>,
}

/// All regular files in a folder and below, in byte order of their paths, without following links.
/// A name that vanishes meanwhile is not there. `look` looks at some paths, and may leave some of
/// what is below.
pub(crate) fn find_in_order<R: Files, F: Fn(&[String]) -> io::Result<Found>>(
    place: &Place<'_, R>,
    look: &F,
) -> io::Result<Vec<FoundFile>>
    requires { F.IsAlwaysCallable look.now }
{
    let mut files = find_files(place, look)?;
    files.sort_by(|a: &FoundFile, b: &FoundFile| a.entry.path.cmp(&b.entry.path))?;
    Ok(files)
}

fn find_files<R: Files, F: Fn(&[String]) -> io::Result<Found>>(
    place: &Place<'_, R>,
    look: &F,
) -> io::Result<Vec<FoundFile>>
    requires { F.IsAlwaysCallable look.now }
{
    let mut walk = Walk::new(place.alloc);
    place.put_path(&mut walk.whole, "")?;
    walk.add_names(place, "")?;
    let mut all = walk.into_found();
    for _ in 0..u64::MAX {
        if all.left.is_empty() {
            return Ok(all.files);
        }
        let mut paths = mem::replace(&mut all.left, Vec::new(place.alloc));
        paths.sort()?;
        all.append(look(&paths)?)?;
    }
    Err(io::Error::from(ErrorKind::Other))
}

/// Looks at these paths and at what is below, in so many threads. Where there are few, this thread
/// looks at each, and what is below is left: there may be enough to be shared out. Which error is
/// told, where there are several, depends on the folder and the number of threads alone.
pub(crate) fn look_in_threads<R: Files + Threads + Sync>(
    place: &Place<'_, R>,
    budget: &Budget,
    paths: &[String],
    threads: usize,
) -> io::Result<Found>
where
    R::File: Send,
    R::Dir: Send,
{
    if paths.len() < threads.saturating_mul(ENOUGH) {
        return look_at_each(place, budget, paths);
    }
    let look = |some: &[String]| look_below(place, budget, some, MOST);
    let mut all = Found {
        files: Vec::new(place.alloc),
        left: Vec::new(place.alloc),
    };
    for (_, found) in in_stretches(place.rt, place.alloc, paths, threads, &look)? {
        all.append(found?)?;
    }
    Ok(all)
}

// Looks at these paths, and leaves what is below.
fn look_at_each<R: Files>(
    place: &Place<'_, R>,
    budget: &Budget,
    paths: &[String],
) -> io::Result<Found> {
    let mut walk = Walk::new(place.alloc);
    for path in paths {
        walk.look_at(place, budget, String::from_str(place.alloc, path.as_str())?)?;
    }
    Ok(walk.into_found())
}

/// Looks at these paths and at what is below, at so many paths in all. It goes through a folder
/// before it looks at the name behind it, so that it finds files almost in the order of a listing.
pub(crate) fn look_below<R: Files>(
    place: &Place<'_, R>,
    budget: &Budget,
    paths: &[String],
    most: usize,
) -> io::Result<Found> {
    let mut walk = Walk::new(place.alloc);
    walk.found.left = Vec::from_clones(place.alloc, paths)?;
    walk.found.left.reverse();
    for _ in 0..most {
        let Some(path) = walk.found.left.pop() else {
            break;
        };
        walk.look_at(place, budget, path)?;
    }
    Ok(walk.into_found())
}

impl Walk {
    fn new(alloc: Global) -> Walk {
        Walk {
            found: Found {
                files: Vec::new(alloc),
                left: Vec::new(alloc),
            },
            whole: String::new(alloc),
            names: Vec::new(alloc),
        }
    }

    fn into_found(self) -> Found {
        let Walk {
            found,
            whole: _,
            names: _,
        } = self;
        found
    }

    // A regular file is found, the names in a folder are left to be looked at, and anything else is
    // passed over.
    fn look_at<R: Files>(
        &mut self,
        place: &Place<'_, R>,
        budget: &Budget,
        path: String,
    ) -> io::Result<()> {
        place.put_path(&mut self.whole, path.as_str())?;
        let data = match fs::symlink_metadata(place.rt, self.whole.as_str()) {
            Err(error) if is_gone(&error) => return Ok(()),
            data => data?,
        };
        if data.is_file() {
            self.add_file(place, budget, path, &data)?;
        } else if data.is_dir() {
            match self.add_names(place, path.as_str()) {
                Err(error) if is_gone(&error) => {}
                added => added?,
            }
        }
        Ok(())
    }

    // Adds a file, whose path for the system is `whole`, with its bytes where they may be read with
    // the listing. One that has vanished is not there. One that can't be read is, so that its path
    // is told when it is read for itself.
    fn add_file<R: Files>(
        &mut self,
        place: &Place<'_, R>,
        budget: &Budget,
        path: String,
        data: &Metadata,
    ) -> io::Result<()> {
        let mut read = None;
        if budget.allows(data.len()) {
            match read_file(place, self.whole.as_str(), data.len() as usize, data.len()) {
                Ok(bytes) => {
                    let path = String::from_str(place.alloc, path.as_str())?;
                    read = Some(ReadFile { path, bytes });
                }
                Err(error) if is_gone(&error) => return Ok(()),
                Err(_) => {}
            }
        }
        let entry = entry_of(path, data);
        self.found.files.push(FoundFile { entry, read })?;
        Ok(())
    }

    // Leaves the paths of the names in a folder, whose path for the system is `whole`.
    fn add_names<R: Files>(&mut self, place: &Place<'_, R>, folder: &str) -> io::Result<()> {
        if !self.whole.is_empty() {
            self.whole.push('/')?;
        }
        if self.names.is_empty() {
            self.names = vec![in place.alloc; 0; NAMES]?;
        }
        let mut open = place.rt.open_dir(self.whole.as_str())?;
        let known = self.found.left.len();
        for _ in 0..u64::MAX {
            let count = open.read(&mut self.names)?;
            if count == 0 {
                break;
            }
            take_names(
                place.alloc,
                folder,
                &self.names[..count],
                &mut self.found.left,
            )?;
        }
        if let Some(added) = self.found.left.as_mut_slice().get_mut(known..) {
            added.sort_by(place.alloc, |a: &String, b: &String| b.cmp(a))?;
        }
        Ok(())
    }
}

// Adds the paths of these names, which end in a NUL. The folder itself and the one above it are
// among them.
fn take_names(
    alloc: Global,
    folder: &str,
    names: &[u8],
    paths: &mut Vec<String>,
) -> io::Result<()> {
    for name in names.split(|byte| *byte == 0) {
        let Ok(name) = str::from_utf8(name) else {
            return Err(io::Error::from(ErrorKind::InvalidFilename));
        };
        if !matches!(name, "" | "." | "..") && !name.starts_with(NEW) {
            paths.push(join(alloc, folder, name)?)?;
        }
    }
    Ok(())
}

fn entry_of(path: String, data: &Metadata) -> Entry {
    let nanoseconds = u64::try_from(data.mtime_nsec()).unwrap_or(0);
    Entry {
        path: Text::from(path),
        size: data.len(),
        stamp: stamp_of(data.mtime(), nanoseconds),
    }
}

// A time since 1970 in nanoseconds, as far as they can be counted, and 0 for an earlier time.
fn stamp_of(seconds: i64, nanoseconds: u64) -> u64
    ensures early { seconds <ℤ pos 0 → result ≡ 0 }
    ensures since { (n : ℕ) → seconds ≡ pos n
        → result ≡ min (n * 1000000000 + nanoseconds) (2 ^ 64 - 1) }
{
    match u64::try_from(seconds) {
        Ok(seconds) => seconds
            .saturating_mul(1_000_000_000)
            .saturating_add(nanoseconds),
        Err(_) => 0,
    }
}
