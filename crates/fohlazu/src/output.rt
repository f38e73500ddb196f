//! The output of a command: standard output, or a file that is replaced as a whole.

use crate::input::RunState;
use std::fs::{File, OpenOptions, Permissions};
use std::io::{Error, ErrorKind, Write};
use std::os::unix::fs::{MetadataExt, OpenOptionsExt, PermissionsExt};
use std::path::{Path, PathBuf};
use std::{fs, io};

/// A file that is written beside its place, and put there once it is whole.
#[derive(Drop)]
pub(crate) struct Replacement<'a> {
    rt: &'a HostRuntime,
    /// Where it goes. Symbolic links are followed.
    place: PathBuf,
    /// The mode of the file that it replaces.
    mode: Option<u32>,
    /// The file that is written, and its name, from the first byte on.
    written: Option<(PathBuf, File)>,
    /// Why the last write failed.
    failure: Option<Error>,
}

impl<'a> Replacement<'a> {
    /// A file called `name`, which replaces a regular one if there is one. Nothing is written yet.
    ///
    /// # Errors
    ///
    /// The error of the system call that failed; `InvalidInput` if `name` is that of a file which is not a regular one.
    pub(crate) fn new(rt: &'a HostRuntime, name: &str) -> io::Result<Replacement<'a>> {
        let place = match fs::canonicalize(rt, name) {
            Err(error) if error.kind() == ErrorKind::NotFound => {
                Path::new(name).to_path_buf(rt.alloc())?
            }
            place => place?,
        };
        let mode = match fs::symlink_metadata(rt, place.as_path()) {
            Ok(metadata) if metadata.is_file() => Some(metadata.permissions().mode()),
            Ok(_) => return Err(Error::new(ErrorKind::InvalidInput, "not a regular file")),
            Err(error) if error.kind() == ErrorKind::NotFound => None,
            Err(error) => return Err(error),
        };
        // No file is read for a folder that is none.
        fs::metadata(rt, folder_of(place.as_path()))?;
        Ok(Replacement {
            rt,
            place,
            mode,
            written: None,
            failure: None,
        })
    }

    /// Puts the file in its place, with the mode of what it replaces, and makes sure that the disk has it.
    ///
    /// # Errors
    ///
    /// The error of the system call that failed. What was written is then removed, and the place stays as it was. If
    /// only the last call fails, by which the disk gets the new name, the file stands in its place.
    pub(crate) fn finish(mut self) -> io::Result<()> {
        self.file()?;
        let done = self.put();
        if done.is_err() {
            self.remove();
        }
        done
    }

    /// Removes what is written, so that the place stays as it was.
    ///
    /// # Errors
    ///
    /// The error of the last write, if that failed.
    pub(crate) fn give_up(self) -> io::Result<()> {
        self.remove();
        self.failure.map_or(Ok(()), Err)
    }

    /// Renames the file that is written, once the disk has it. The error is that of the system call that failed.
    fn put(&self) -> io::Result<()> {
        let Some((name, file)) = &self.written else {
            return Ok(());
        };
        if let Some(mode) = self.mode {
            file.set_permissions(Permissions::from_mode(mode))?;
        }
        file.sync_all()?;
        // Opened first, so that nothing is replaced where it cannot be.
        let folder = File::open(self.rt, folder_of(self.place.as_path()))?;
        fs::rename(self.rt, name.as_path(), self.place.as_path())?;
        folder.sync_all()
    }

    /// Removes what is written. An error of that is passed over, since another one is reported.
    fn remove(&self) {
        if let Some((name, _)) = &self.written {
            let _ = fs::remove_file(self.rt, name.as_path());
        }
    }

    /// The file that is written, which the first call creates. The error is that of the system call that failed.
    fn file(&mut self) -> io::Result<&mut File> {
        let rt = self.rt;
        let place = self.place.as_path();
        let mode = self.mode.unwrap_or(0o666);
        let (_, file) = self
            .written
            .get_or_try_insert_with(|| create_beside(rt, place, mode))?;
        Ok(file)
    }
}

impl Write for Replacement<'_> {
    fn write(&mut self, buf: &[u8]) -> io::Result<usize> {
        let done = match self.file() {
            Ok(file) => file.write(buf),
            Err(error) => Err(error),
        };
        self.failure = done.err();
        done
    }

    fn flush(&mut self) -> io::Result<()> {
        Ok(())
    }
}

/// Whether the names `one` and `other` lead to one regular file; false if either cannot be looked up.
pub(crate) fn is_same_file(rt: &HostRuntime, one: &str, other: &str) -> bool {
    match (fs::metadata(rt, one), fs::metadata(rt, other)) {
        (Ok(one), Ok(other)) => one.is_file()
            && one.dev() == other.dev()
            && one.ino() == other.ino(),
        _ => false,
    }
}

/// Standard output. It takes the line of progress away first, which may stand on the same terminal.
#[derive(Drop)]
pub(crate) struct StandardOutput<'a>(pub(crate) &'a HostRuntime, pub(crate) &'a RunState);

impl Write for StandardOutput<'_> {
    fn write(&mut self, buf: &[u8]) -> io::Result<usize> {
        self.1.clear_progress(self.0);
        let done = self.0.stdout().write(buf);
        self.1.failure.set(done.err());
        done
    }

    fn flush(&mut self) -> io::Result<()> {
        let done = self.0.stdout().flush();
        self.1.failure.set(done.err());
        done
    }
}

/// The folder that a file stands in.
fn folder_of(path: Path<'_>) -> Path<'_> {
    match path.parent() {
        Some(folder) if !folder.as_str().is_empty() => folder,
        _ => Path::new("."),
    }
}

/// A new file in the folder of `place`, with the mode `mode` less the umask, and its name.
///
/// # Errors
///
/// The error of the system call that failed; `AlreadyExists` if the folder has 1000 such files.
fn create_beside(rt: &HostRuntime, place: Path<'_>, mode: u32) -> io::Result<(PathBuf, File)> {
    let mut options = OpenOptions::new();
    options.write(true).create_new(true).mode(mode);
    for number in 0..1000 {
        let name = format!(in rt.alloc(); ".fohlazu-{number}")?;
        let path = folder_of(place).join(rt.alloc(), name.as_str())?;
        match options.open(rt, path.as_path()) {
            Ok(file) => return Ok((path, file)),
            Err(error) if error.kind() != ErrorKind::AlreadyExists => return Err(error),
            Err(_) => {}
        }
    }
    Err(Error::new(ErrorKind::AlreadyExists, "too many files .fohlazu-N"))
}
