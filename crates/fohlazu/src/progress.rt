//! How far a file is read.

use std::io::IsTerminal;
use std::time::{Duration, Instant};

/// A line on standard error that says how far a file is read, after a second and then each quarter of one.
#[derive(Drop)]
pub(crate) struct Progress<'a> {
    rt: &'a HostRuntime,
    start: Instant,
    /// The time of the next line, from the start.
    next: Duration,
    read: u64,
    /// Whether it is known how much is left.
    has_size: bool,
}

impl<'a> Progress<'a> {
    /// The progress of an input that is read from now on. `None` if `is_wanted` is false, standard error is no
    /// terminal, or the clock can't be read.
    pub(crate) fn start(rt: &'a HostRuntime, is_wanted: bool) -> Option<Progress<'a>> {
        if !is_wanted || !rt.stderr().is_terminal() {
            return None;
        }
        let start = Instant::now(rt).ok()?;
        Some(Progress {
            rt,
            start,
            next: Duration::from_secs(1),
            read: 0,
            has_size: false,
        })
    }

    /// Counts `count` bytes that were read, where at least `left` follow. Returns whether it printed a line.
    pub(crate) fn add(&mut self, count: usize, left: u64) -> bool {
        self.read = self.read.saturating_add(count as u64);
        self.has_size = self.has_size || left > 0;
        let Ok(elapsed) = self.start.elapsed(self.rt) else {
            return false;
        };
        if elapsed < self.next {
            return false;
        }
        self.next = elapsed.saturating_add(Duration::from_millis(250));
        let millis = u64::try_from(elapsed.as_millis())
            .unwrap_or(u64::MAX)
            .max(1);
        let per_second = self.read.saturating_mul(1000) / millis;
        let (read, rate) = (self.read >> 20, per_second >> 20);
        let _ = if self.has_size {
            let all = self.read.saturating_add(left) >> 20;
            let seconds = left / per_second.max(1);
            eprint!(self.rt; "\r{read} of {all} MiB, {rate} MiB/s, {seconds} s left\u{1b}[K")
        } else {
            eprint!(self.rt; "\r{read} MiB, {rate} MiB/s\u{1b}[K")
        };
        true
    }
}
