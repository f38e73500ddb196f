//! A case: what its line says, and what is answered.

use crate::field::{Field, Item, show_list};
use crate::scheme::Cap;
use p3_merkle_tree::{CapRule, MerkleTreeError};
use p3_support::matrix::Dimensions;
use std::alloc::{AllocError, AllocFailed, Global};
use std::fmt;
use std::fmt::Write;

/// Why a case has no answer of its own.
#[derive(Drop)]
pub enum Fault {
    /// A call refuses its arguments, which is an answer, too.
    Refused(MerkleTreeError),
    /// An answer is not as it should be, in this way.
    Wrong(&'static str),
    /// The line can't be read, for this reason.
    Unreadable(&'static str),
}

impl From<MerkleTreeError> for Fault {
    fn from(error: MerkleTreeError) -> Fault {
        Fault::Refused(error)
    }
}

impl From<AllocError> for Fault {
    fn from(_error: AllocError) -> Fault {
        Fault::Refused(MerkleTreeError::OutOfMemory)
    }
}

impl<T: Drop> From<AllocFailed<T>> for Fault {
    fn from(_error: AllocFailed<T>) -> Fault {
        Fault::Refused(MerkleTreeError::OutOfMemory)
    }
}

impl From<fmt::Error> for Fault {
    fn from(_error: fmt::Error) -> Fault {
        Fault::Refused(MerkleTreeError::OutOfMemory)
    }
}

/// The answer of a call that is compared with other answers. Fails where memory ran out.
pub fn compared<A: Drop>(
    answer: Result<A, MerkleTreeError>,
) -> Result<Result<A, MerkleTreeError>, Fault> {
    match answer {
        Err(MerkleTreeError::OutOfMemory) => Err(Fault::Refused(MerkleTreeError::OutOfMemory)),
        answer => Ok(answer),
    }
}

/// A case as far as it has been read and answered.
#[derive(Drop)]
pub struct Case<'a> {
    /// Where memory comes from.
    pub alloc: Global,
    /// What has not been read: at the end the expected answer.
    pub rest: &'a str,
    /// The rule of a cap that names none.
    pub rule: CapRule,
    /// Whether a cap has been read that names no rule, so that the answer must hold under both rules.
    pub is_for_any_rule: bool,
    /// The answer as far as it has been written.
    pub answer: String,
}

impl<'a> Case<'a> {
    /// The case of a line.
    pub fn of(alloc: Global, line: &'a str, rule: CapRule) -> Case<'a> {
        Case {
            alloc,
            rest: line,
            rule,
            is_for_any_rule: false,
            answer: String::new(alloc),
        }
    }

    /// The same case with no answer yet.
    pub fn again(&self) -> Case<'a> {
        Case::of(self.alloc, self.rest, self.rule)
    }

    /// The next field, without the blanks around it; empty where there is none, which no kind of field may be.
    pub fn take(&mut self) -> &'a str {
        let (field, rest) = self.rest.split_once('|').unwrap_or((self.rest, ""));
        self.rest = rest;
        field.trim()
    }

    /// The value that the next field is, or the next fields are.
    pub fn read<V: Field>(&mut self) -> Result<V, Fault> {
        V::read(self)
    }

    /// The cap that the next field is: its height, with `l` after it under the lowered rule, with `f` under the fixed
    /// one.
    pub fn cap(&mut self) -> Result<Cap, Fault> {
        let field = self.take();
        let (height, rule) = if let Some(height) = field.strip_suffix('l') {
            (height, CapRule::Lowered)
        } else if let Some(height) = field.strip_suffix('f') {
            (height, CapRule::Fixed)
        } else {
            self.is_for_any_rule = true;
            (field, self.rule)
        };
        let height = usize::parse(self.alloc, height)?;
        Ok(Cap { height, rule })
    }

    /// The dimensions of columns, whose heights are the next field.
    pub fn columns(&mut self) -> Result<Vec<Dimensions>, Fault> {
        let heights: Vec<usize> = self.read()?;
        let mut columns = Vec::new(self.alloc);
        for height in &heights {
            let (width, height) = (1, *height);
            columns.push(Dimensions { width, height })?;
        }
        Ok(columns)
    }

    /// Begins the next field of the answer.
    pub fn begin(&mut self) -> Result<(), Fault> {
        if !self.answer.is_empty() {
            self.answer.push_str(" | ")?;
        }
        Ok(())
    }

    /// Writes a field of the answer, or several.
    pub fn write<V: Field>(&mut self, value: &V) -> Result<(), Fault> {
        value.write(self)
    }

    /// Writes a list as a field of the answer.
    pub fn list<T: Item>(&mut self, items: &[T]) -> Result<(), Fault> {
        self.begin()?;
        show_list(items, &mut self.answer)
    }

    /// Writes `accepted`, or the text of the error, as a field of the answer.
    pub fn verdict(&mut self, verdict: &Result<(), MerkleTreeError>) -> Result<(), Fault> {
        self.begin()?;
        match verdict {
            Ok(()) => self.answer.push_str("accepted")?,
            Err(error) => write!(self.answer, "{error}")?,
        }
        Ok(())
    }

    /// Takes the outcome of the calls: the text of a refusal, or of what is wrong with an answer, becomes the answer.
    /// Fails where memory ran out or the line can't be read.
    pub fn settle(&mut self, outcome: Result<(), Fault>) -> Result<(), Fault> {
        match outcome {
            Ok(()) => Ok(()),
            Err(Fault::Refused(error)) => {
                self.answer = String::new(self.alloc);
                self.verdict(&compared(Err(error))?)
            }
            Err(Fault::Wrong(way)) => {
                self.answer = String::from_str(self.alloc, way)?;
                Ok(())
            }
            Err(fault) => Err(fault),
        }
    }

    /// Fails where `again`, the same case with the outcome of another scheme, has another answer than this settled one.
    pub fn check_alike(
        &self,
        mut again: Case<'_>,
        outcome: Result<(), Fault>,
    ) -> Result<(), Fault> {
        again.settle(outcome)?;
        if again.answer != self.answer {
            return Err(Fault::Wrong("another scheme answers otherwise"));
        }
        Ok(())
    }
}
