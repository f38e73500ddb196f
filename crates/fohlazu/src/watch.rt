//! Watches a checkpoint for a second one below it: the lines of that one are extension lines of the first.

/// What has come of a checkpoint.
#[derive(Default, Drop)]
pub(crate) struct CheckpointWatch {
    /// How many lines have ended.
    lines: usize,
    /// How many bytes the open line has.
    len: usize,
    /// How many of these are digits.
    digits: usize,
    /// The last byte of the open line.
    last: u8,
    /// Whether the last line that ended is a number.
    is_after_number: bool,
    /// Whether a blank line has ended: signatures follow it.
    is_after_blank: bool,
    /// Whether a second checkpoint has come.
    has_second: bool,
}

impl CheckpointWatch {
    /// Whether a second checkpoint has come: its number and its root, from the fifth line on and ahead of the first
    /// blank line.
    pub(crate) fn has_second(&self) -> bool {
        self.has_second
    }

    /// Reads `bytes`, the next of the text.
    pub(crate) fn read(&mut self, bytes: &[u8]) {
        for byte in bytes {
            if *byte == b'\n' {
                self.end_line();
            } else {
                self.len = self.len.saturating_add(1);
                self.digits = self.digits.saturating_add(byte.is_ascii_digit() as usize);
                self.last = *byte;
            }
        }
    }

    /// Ends the open line. A root is 32 bytes, which have 44 characters in base64, the last one `=`.
    fn end_line(&mut self) {
        let is_root = self.len == 44 && self.last == b'=';
        if self.lines >= 5 && self.is_after_number && is_root && !self.is_after_blank {
            self.has_second = true;
        }
        self.is_after_number = self.len > 0 && self.digits == self.len;
        self.is_after_blank = self.is_after_blank || self.len == 0;
        self.lines = self.lines.saturating_add(1);
        self.len = 0;
        self.digits = 0;
    }
}
