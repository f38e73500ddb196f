//! Values of cases and answers as numbers: a list is its length and its items, a digest its words alone.

use p3_merkle_tree::{MerkleTreeError, PrunedProof};
use p3_support::matrix::Dimensions;
use std::alloc::{AllocError, AllocFailed, Global};

/// Why a case has no answer of its own.
#[derive(Debug, PartialEq, Eq, Drop)]
pub enum Fault {
    /// A call refuses its arguments, which is an answer, too.
    Refused(MerkleTreeError),
    /// Another scheme of the same functions answers otherwise.
    Disputed,
    /// The line is no case.
    NoCase,
}

impl From<MerkleTreeError> for Fault {
    fn from(error: MerkleTreeError) -> Fault {
        Fault::Refused(error)
    }
}

impl From<AllocError> for Fault {
    fn from(_error: AllocError) -> Fault {
        Fault::Refused(MerkleTreeError::OutOfMemory)
    }
}

impl<T: Drop> From<AllocFailed<T>> for Fault {
    fn from(_error: AllocFailed<T>) -> Fault {
        Fault::Refused(MerkleTreeError::OutOfMemory)
    }
}

/// The numbers of a case. The first `next` have been read.
#[derive(Clone, Copy)]
pub struct Numbers<'a> {
    /// Where memory comes from.
    pub alloc: Global,
    numbers: &'a [u64],
    next: usize,
}

impl<'a> Numbers<'a> {
    /// These numbers, all unread.
    pub fn new(alloc: Global, numbers: &'a [u64]) -> Numbers<'a> {
        Numbers {
            alloc,
            numbers,
            next: 0,
        }
    }

    /// The next number.
    pub fn number(&mut self) -> Result<u64, Fault> {
        let Some(number) = self.numbers.get(self.next) else {
            return Err(Fault::NoCase);
        };
        self.next = self.next.saturating_add(1);
        Ok(*number)
    }

    /// The next value.
    pub fn read<V: Part>(&mut self) -> Result<V, Fault> {
        V::read(self)
    }

    /// Fails if there are more numbers.
    pub fn end(&self) -> Result<(), Fault> {
        if self.next < self.numbers.len() {
            return Err(Fault::NoCase);
        }
        Ok(())
    }

    /// `HEIGHT WIDTH`.
    pub fn sizes(&mut self) -> Result<Dimensions, Fault> {
        let height = usize::read(self)?;
        let width = usize::read(self)?;
        Ok(Dimensions { width, height })
    }

    /// A list of dimensions.
    pub fn dimensions(&mut self) -> Result<Vec<Dimensions>, Fault> {
        let mut dimensions = Vec::new(self.alloc);
        for _ in 0..usize::read(self)? {
            dimensions.push(self.sizes()?)?;
        }
        Ok(dimensions)
    }
}

/// A value that cases and answers have.
pub trait Part: Sized + Drop {
    /// Reads the value.
    fn read(numbers: &mut Numbers<'_>) -> Result<Self, Fault>;

    /// Adds the value to an answer.
    fn write(&self, answer: &mut Vec<u64>) -> Result<(), AllocError>;
}

impl Part for usize {
    fn read(numbers: &mut Numbers<'_>) -> Result<usize, Fault> {
        Ok(numbers.number()? as usize)
    }

    fn write(&self, answer: &mut Vec<u64>) -> Result<(), AllocError> {
        Ok(answer.push(*self as u64)?)
    }
}

impl Part for u32 {
    fn read(numbers: &mut Numbers<'_>) -> Result<u32, Fault> {
        u32::try_from(numbers.number()?).map_err(|_| Fault::NoCase)
    }

    fn write(&self, answer: &mut Vec<u64>) -> Result<(), AllocError> {
        Ok(answer.push(u64::from(*self))?)
    }
}

impl Part for u8 {
    fn read(numbers: &mut Numbers<'_>) -> Result<u8, Fault> {
        u8::try_from(numbers.number()?).map_err(|_| Fault::NoCase)
    }

    fn write(&self, answer: &mut Vec<u64>) -> Result<(), AllocError> {
        Ok(answer.push(u64::from(*self))?)
    }
}

impl<T: Part + Default + Copy, const D: usize> Part for [T; D] {
    fn read(numbers: &mut Numbers<'_>) -> Result<[T; D], Fault> {
        let mut words = [T::default(); D];
        for place in 0..D {
            words[place] = T::read(numbers)?;
        }
        Ok(words)
    }

    fn write(&self, answer: &mut Vec<u64>) -> Result<(), AllocError> {
        for word in self {
            word.write(answer)?;
        }
        Ok(())
    }
}

impl<T: Part> Part for Vec<T> {
    fn read(numbers: &mut Numbers<'_>) -> Result<Vec<T>, Fault> {
        let mut items = Vec::new(numbers.alloc);
        for _ in 0..usize::read(numbers)? {
            items.push(T::read(numbers)?)?;
        }
        Ok(items)
    }

    fn write(&self, answer: &mut Vec<u64>) -> Result<(), AllocError> {
        self.len().write(answer)?;
        for item in self {
            item.write(answer)?;
        }
        Ok(())
    }
}

impl<A: Part, B: Part> Part for (A, B) {
    fn read(numbers: &mut Numbers<'_>) -> Result<(A, B), Fault> {
        let first = A::read(numbers)?;
        Ok((first, B::read(numbers)?))
    }

    fn write(&self, answer: &mut Vec<u64>) -> Result<(), AllocError> {
        self.0.write(answer)?;
        self.1.write(answer)
    }
}

impl<X: Part> Part for PrunedProof<X> {
    fn read(numbers: &mut Numbers<'_>) -> Result<PrunedProof<X>, Fault> {
        let sibling_hashes = Vec::read(numbers)?;
        Ok(PrunedProof { sibling_hashes })
    }

    fn write(&self, answer: &mut Vec<u64>) -> Result<(), AllocError> {
        self.sibling_hashes.write(answer)
    }
}
