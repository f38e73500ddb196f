//! Which failures of a writer are tried again, and that the output is flushed: no clause says so.

use crate::{WriteFailed, write_whole};
use std::alloc::Global;
use std::io;
use std::io::{Error, ErrorKind, Write};
use std::test::Fail;

/// Takes a few bytes a write, and fails as it is told.
#[derive(Drop)]
struct Faulty {
    taken: Vec<u8>,
    /// How many bytes a write takes at most.
    most: usize,
    /// How the next write fails, if it does.
    failure: Option<ErrorKind>,
    /// Whether the output was flushed after its last write.
    is_flushed: bool,
    /// Whether a flush fails.
    flush_fails: bool,
}

impl Faulty {
    /// A writer that takes at most `most` bytes a write, the first of which may fail.
    fn new(alloc: Global, most: usize, failure: Option<ErrorKind>) -> Faulty {
        Faulty {
            taken: Vec::new(alloc),
            most,
            failure,
            is_flushed: false,
            flush_fails: false,
        }
    }
}

impl Write for Faulty {
    fn write(&mut self, buf: &[u8]) -> io::Result<usize> {
        if let Some(failure) = self.failure.take() {
            return Err(Error::from(failure));
        }
        self.is_flushed = false;
        let count = buf.len().min(self.most);
        match self.taken.extend_from_slice(&buf[..count]) {
            Ok(()) => Ok(count),
            Err(_) => Err(Error::from(ErrorKind::OutOfMemory)),
        }
    }

    fn flush(&mut self) -> io::Result<()> {
        if self.flush_fails {
            return Err(Error::from(ErrorKind::StorageFull));
        }
        self.is_flushed = true;
        Ok(())
    }
}

#[test]
fn a_text_is_written_whole_and_flushed(rt: HostRuntime) -> Result<(), Fail> {
    let mut output = Faulty::new(rt.alloc(), 2, None);
    assert_eq!(rt; write_whole(&mut output, b"seven b"), Ok(()));
    assert_eq!(rt; output.taken.as_slice(), b"seven b".as_slice());
    assert!(rt; output.is_flushed);
    Ok(())
}

#[test]
fn an_interrupted_write_is_tried_again(rt: HostRuntime) -> Result<(), Fail> {
    let mut output = Faulty::new(rt.alloc(), 5, Some(ErrorKind::Interrupted));
    assert_eq!(rt; write_whole(&mut output, b"seven b"), Ok(()));
    assert_eq!(rt; output.taken.as_slice(), b"seven b".as_slice());
    Ok(())
}

#[test]
fn no_other_failure_is_tried_again(rt: HostRuntime) -> Result<(), Fail> {
    for kind in [
        ErrorKind::WouldBlock,
        ErrorKind::TimedOut,
        ErrorKind::StorageFull,
    ] {
        let mut output = Faulty::new(rt.alloc(), 5, Some(kind));
        assert_eq!(rt; write_whole(&mut output, b"seven b"), Err(WriteFailed));
        assert!(rt; output.taken.is_empty());
    }
    Ok(())
}

#[test]
fn a_write_of_no_byte_is_a_failure(rt: HostRuntime) -> Result<(), Fail> {
    let mut output = Faulty::new(rt.alloc(), 0, None);
    assert_eq!(rt; write_whole(&mut output, b"seven b"), Err(WriteFailed));
    Ok(())
}

#[test]
fn a_failed_flush_is_a_failure(rt: HostRuntime) -> Result<(), Fail> {
    let mut output = Faulty::new(rt.alloc(), 9, None);
    output.flush_fails = true;
    assert_eq!(rt; write_whole(&mut output, b"seven b"), Err(WriteFailed));
    assert_eq!(rt; output.taken.as_slice(), b"seven b".as_slice());
    Ok(())
}
