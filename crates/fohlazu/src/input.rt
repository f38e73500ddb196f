//! Inputs by their names.

ghost use Rattle.std.specs.Counts.{IsPrefixLen};
ghost use Rattle.std.specs.Prelude.{IfOk};

use crate::args::Escaped;
use crate::progress::Progress;
use crate::watch::CheckpointWatch;
use std::cell::Cell;
use std::fs::File;
use std::io;
use std::io::{Error, ErrorKind, Read};

/// What is noted while arguments and inputs are read.
#[derive(Default, Drop)]
pub(crate) struct RunState {
    /// Why a read, or a write to standard output, last failed.
    pub(crate) failure: Cell<Option<Error>>,
    /// Whether a line of progress stands on standard error.
    pub(crate) is_shown: Cell<bool>,
    /// Whether a proof is verified without numbers to compare its own with.
    pub(crate) lacks_numbers: Cell<bool>,
}

impl RunState {
    /// Takes the line of progress away.
    pub(crate) fn clear_progress(&self, rt: &HostRuntime) {
        if self.is_shown.replace(false) {
            let _ = eprint!(rt; "\r\u{1b}[K");
        }
    }
}

/// An input that is opened when it is first read: a file, or standard input by the name `-`.
#[derive(Drop)]
pub(crate) struct Input<'a> {
    rt: &'a HostRuntime,
    name: &'a str,
    /// The file that is open, and how many of the bytes have not been read that it had when it was opened, if it is a
    /// regular one.
    file: Option<(File, u64)>,
    progress: Option<Progress<'a>>,
    /// Looks for a second checkpoint, until the first end of a text that is one.
    watch: Option<CheckpointWatch>,
    /// What was read, if it is to be read again, and is no regular file, which is opened again.
    cache: Option<Vec<u8>>,
    /// How many bytes of the cache have been read since the last rewind.
    cache_read: usize,
    state: &'a RunState,
}

impl<'a> Input<'a> {
    /// The input called `name`, not opened yet. If `shows_progress`, a terminal on standard error shows how far it is
    /// read. `state` takes why a read fails.
    pub(crate) fn new(
        rt: &'a HostRuntime,
        name: &'a str,
        shows_progress: bool,
        state: &'a RunState,
    ) -> Input<'a> {
        Input {
            rt,
            name,
            file: None,
            progress: Progress::start(rt, shows_progress),
            watch: None,
            cache: None,
            cache_read: 0,
            state,
        }
    }

    /// The input called `name`, which is a checkpoint or a part: a line on standard error warns of a second one in it.
    pub(crate) fn checkpoint(rt: &'a HostRuntime, name: &'a str, state: &'a RunState) -> Input<'a> {
        let mut input = Input::new(rt, name, false, state);
        input.watch = Some(CheckpointWatch::default());
        input
    }

    /// The same input, which can be read again from its beginning.
    pub(crate) fn rereadable(mut self) -> Input<'a> {
        self.cache = Some(Vec::new(self.rt.alloc()));
        self
    }

    /// Goes back to the beginning of an input that is `rereadable`. A regular file is opened again.
    pub(crate) fn rewind(&mut self) {
        if self.cache.is_none() {
            self.file = None;
        }
        self.cache_read = 0;
        if self.watch.is_some() {
            self.watch = Some(CheckpointWatch::default());
        }
        self.progress = Progress::start(self.rt, self.progress.is_some());
    }

    /// Warns if what was read has a second checkpoint. It does so once.
    fn warn_of_second(&mut self) {
        if self.watch.take().is_some_and(|watch| watch.has_second()) {
            let why = "it has more than one checkpoint: only the first is read";
            let _ = eprintln!(self.rt; "fohlazu: {}: {why}", Escaped(self.name));
        }
    }

    /// Reads the next bytes of the cache to the front of `buf`, and returns how many. If there are none, it reads the
    /// next bytes of the input, with the errors of [`read_next`](Self::read_next), and caches them if the input is to
    /// be read again.
    fn read_cached(&mut self, buf: &mut [u8]) -> io::Result<usize>
        ensures { IfOk result (λ count. IsPrefixLen count buf.new) }
    {
        if let Some(cache) = &self.cache {
            let rest = cache.get(self.cache_read..).unwrap_or(&[]);
            if !rest.is_empty() {
                let count = rest.len().min(buf.len());
                buf[..count].copy_from_slice(&rest[..count]);
                self.cache_read = self.cache_read.saturating_add(count);
                return Ok(count);
            }
        }
        let count = self.read_next(buf)?;
        if let Some(cache) = &mut self.cache {
            cache.extend_from_slice(&buf[..count])?;
            self.cache_read = cache.len();
        }
        Ok(count)
    }

    /// Reads the next bytes of the input to the front of `buf`, and returns how many. The first call opens the file.
    /// The error is that of the system call that failed; `UnexpectedEof` if a regular file has become shorter.
    fn read_next(&mut self, buf: &mut [u8]) -> io::Result<usize>
        ensures { IfOk result (λ count. IsPrefixLen count buf.new) }
    {
        if self.name == "-" {
            return self.rt.stdin().read(buf);
        }
        if self.file.is_none() {
            // A regular file is to give as many bytes as it has now.
            let file = File::open(self.rt, self.name)?;
            let metadata = file.metadata()?;
            let len = metadata.is_file().then_some(metadata.len()).unwrap_or(0);
            if metadata.is_file() {
                self.cache = None;
            }
            self.file = Some((file, len));
        }
        // It is open by now.
        let Some((file, left)) = &mut self.file else {
            return Ok(0);
        };
        let count = file.read(buf)?;
        if count == 0 && *left > 0 {
            return Err(Error::new(ErrorKind::UnexpectedEof, "it shrank while it was read"));
        }
        *left = left.saturating_sub(count as u64);
        Ok(count)
    }
}

impl<'a> Read for Input<'a> {
    fn read(&mut self, buf: &mut [u8]) -> io::Result<usize> {
        let state = self.state;
        let count = self
            .read_cached(buf)
            .inspect_err(|error| state.failure.set(Some(*error)))?;
        if let Some(watch) = &mut self.watch {
            watch.read(&buf[..count]);
        }
        if count == 0 {
            self.warn_of_second();
        }
        if let Some(progress) = &mut self.progress {
            let left = self.file.as_ref().map_or(0, |(_, left)| *left);
            if progress.add(count, left) {
                state.is_shown.set(true);
            }
        }
        Ok(count)
    }
}
