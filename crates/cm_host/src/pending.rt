//! Files that are put where the user wants them: each is made ready, and then filled or let go.

ghost use Rattle.std.specs.Prelude.{◌≡◌, [], IsErrOf};

use cm_bits::Std;
use cm_system::{PutFault, Written};
use std::alloc::Global;
use std::fs::{File, OpenFile, Permissions};
use std::io::ErrorKind;
use std::rt::Files;
use std::{fs, io};

/// How many names are tried for a file beside another.
const MOST_NAMES: u32 = 100;

/// A file that was made ready, and is not yet where it was wanted.
#[derive(Drop)]
pub struct PendingFile<F> {
    path: String,
    /// The file that is to take this place; none where what stands there is no plain file, and is written as it stands.
    beside: Option<NewFile<F>>,
}

/// A new file beside another, under a name that no other had.
#[derive(Drop)]
struct NewFile<F> {
    name: String,
    file: F,
}

/// Makes a file ready that is to stand where the path says. In place of a plain file, which a link may lead to, it is
/// to come whole or not at all, with that file's permissions; a file that nobody may write stays, and so does a folder.
/// What is no plain file, as a terminal, is to be written where it stands: it is not opened before, since that may
/// empty it, or wait for somebody who reads.
pub fn make_ready<R: Files + AllocGlobal>(
    rt: &R,
    alloc: Global,
    path: &str,
) -> Result<PendingFile<R::File>, PutFault>
    ensures nowhere { path.now ≡ [] → IsErrOf result PutFault.Write }
{
    if path.is_empty() {
        return Err(PutFault::Write);
    }
    let Ok(found) = fs::metadata(rt, path) else {
        return match fs::symlink_metadata(rt, path) {
            Ok(_) => in_place(alloc, path),
            Err(_) => beside(rt, alloc, path, None),
        };
    };
    if found.is_dir() {
        return Err(PutFault::Write);
    }
    if !found.is_file() {
        return in_place(alloc, path);
    }
    let permissions = found.permissions();
    if permissions.readonly() {
        return Err(PutFault::Write);
    }
    match fs::canonicalize(rt, path) {
        Ok(path) => beside(rt, alloc, path.as_str(), Some(permissions)),
        Err(error) if error.kind() == ErrorKind::OutOfMemory => Err(PutFault::Memory),
        Err(_) => Err(PutFault::Write),
    }
}

/// Puts a file of these bytes where the path says: made ready, and filled at once.
pub fn put_file<R: Files + AllocGlobal, T: Written>(
    rt: &R,
    alloc: Global,
    path: &str,
    image: T,
) -> Result<(), PutFault>
    ensures nowhere { path.now ≡ [] → IsErrOf result PutFault.Write }
{
    match make_ready(rt, alloc, path) {
        Ok(pending) => pending.fill(rt, image),
        Err(fault) => Err(fault),
    }
}

/// What stands at the path, to be written there.
fn in_place<F>(alloc: Global, path: &str) -> Result<PendingFile<F>, PutFault> {
    Ok(PendingFile {
        path: text(alloc, path)?,
        beside: None,
    })
}

/// A new file beside that of this path, with these permissions, if any are told.
fn beside<R: Files>(
    rt: &R,
    alloc: Global,
    path: &str,
    permissions: Option<Permissions>,
) -> Result<PendingFile<R::File>, PutFault> {
    let path = text(alloc, path)?;
    let new = create_beside(rt, alloc, path.as_str())?;
    if let Some(permissions) = permissions {
        if new.file.set_permissions(permissions).is_err() {
            new.remove(rt);
            return Err(PutFault::Write);
        }
    }
    Ok(PendingFile {
        path,
        beside: Some(new),
    })
}

/// A new file beside that of this path, named as it with `.part` behind, or with `.part1`, `.part2` and so on.
fn create_beside<R: Files>(
    rt: &R,
    alloc: Global,
    path: &str,
) -> Result<NewFile<R::File>, PutFault> {
    for count in 0..MOST_NAMES {
        let name = match count {
            0 => format!(in alloc; "{path}.part"),
            _ => format!(in alloc; "{path}.part{count}"),
        };
        let Ok(name) = name else {
            return Err(PutFault::Memory);
        };
        match File::create_new(rt, name.as_str()) {
            Ok(file) => return Ok(NewFile { name, file }),
            Err(error) if error.kind() == ErrorKind::AlreadyExists => {}
            Err(_) => break,
        }
    }
    Err(PutFault::Write)
}

fn text(alloc: Global, path: &str) -> Result<String, PutFault> {
    match String::from_str(alloc, path) {
        Ok(text) => Ok(text),
        Err(_) => Err(PutFault::Memory),
    }
}

impl<F: io::Write + Drop> PendingFile<F> {
    /// Puts the bytes of this where the file was wanted. Where that cannot be done a new file is taken away again.
    pub fn fill<R: Files, T: Written>(self, rt: &R, image: T) -> Result<(), PutFault>
        ensures memory { ¬ IsErrOf result PutFault.Memory }
    {
        let PendingFile { path, beside } = self;
        match beside {
            Some(new) => new.replace(rt, path.as_str(), image),
            None => match fs::create(rt, path.as_str()) {
                Ok(mut file) => write(&mut file, image),
                Err(_) => Err(PutFault::Write),
            },
        }
    }

    /// Takes a new file away; what stands where it was wanted is as it was.
    pub fn let_go<R: Files>(self, rt: &R) {
        let PendingFile {
            path: _path,
            beside,
        } = self;
        if let Some(new) = beside {
            new.remove(rt);
        }
    }
}

impl<F: io::Write + Drop> NewFile<F> {
    /// Takes these bytes, and then the place that the path says; or is taken away.
    fn replace<R: Files, T: Written>(mut self, rt: &R, path: &str, image: T) -> Result<(), PutFault>
        ensures memory { ¬ IsErrOf result PutFault.Memory }
    {
        let replaced = match write(&mut self.file, image) {
            Ok(()) => self.rename(rt, path),
            Err(fault) => Err(fault),
        };
        if replaced.is_err() {
            self.remove(rt);
        }
        replaced
    }

    fn rename<R: Files>(&self, rt: &R, path: &str) -> Result<(), PutFault>
        ensures memory { ¬ IsErrOf result PutFault.Memory }
    {
        match fs::rename(rt, self.name.as_str(), path) {
            Ok(()) => Ok(()),
            Err(_) => Err(PutFault::Write),
        }
    }

    fn remove<R: Files>(self, rt: &R) {
        let _ = fs::remove_file(rt, self.name.as_str());
    }
}

fn write<W: io::Write, T: Written>(writer: &mut W, image: T) -> Result<(), PutFault>
    ensures memory { ¬ IsErrOf result PutFault.Memory }
{
    image.write(&mut Std::new(writer))
}
