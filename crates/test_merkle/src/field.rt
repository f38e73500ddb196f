//! How values are written, in cases and answers. What stands often in a list is written once, with its count:
//! `NUMBER*COUNT`, `WIDTHxHEIGHT*COUNT`, `ROW times COUNT`, `ROWS sets COUNT`. `FIRST..END` are the numbers from one up
//! to another.

use crate::case::{Case, Fault};
use hex::FromHex;
use p3_merkle_tree::PrunedProof;
use p3_support::matrix::Dimensions;
use std::alloc::Global;
use std::fmt::Write;

/// How a list is written.
#[derive(Clone, Copy)]
pub struct List {
    /// What stands between two items.
    between: &'static str,
    /// What stands between an item and its count.
    times: &'static str,
    /// An empty list.
    none: &'static str,
}

/// Numbers.
pub const NUMBERS: List = List {
    between: " ",
    times: "*",
    none: "-",
};

/// Lists of numbers.
pub const ROWS: List = List {
    between: "; ",
    times: " times ",
    none: "none",
};

/// Lists of rows.
const SETS: List = List {
    between: " / ",
    times: " sets ",
    none: "-",
};

/// A value in a text, alone or in a list.
pub trait Item: Sized + Drop {
    /// How a list of such values is written.
    const LIST: List;

    /// How a list of such lists is written.
    const LISTS: List;

    /// The value that a text is.
    fn parse(alloc: Global, text: &str) -> Result<Self, Fault>;

    /// Writes the value.
    fn show(&self, answer: &mut String) -> Result<(), Fault>;

    /// Adds a value to a list, so often.
    fn push_often(
        alloc: Global,
        text: &str,
        count: usize,
        items: &mut Vec<Self>,
    ) -> Result<(), Fault> {
        for _ in 0..count {
            items.push(Self::parse(alloc, text)?)?;
        }
        Ok(())
    }
}

/// Writes a list.
pub fn show_list<T: Item>(items: &[T], answer: &mut String) -> Result<(), Fault> {
    for (place, item) in items.iter().enumerate() {
        if place > 0 {
            answer.push_str(T::LIST.between)?;
        }
        item.show(answer)?;
    }
    if items.is_empty() {
        answer.push_str(T::LIST.none)?;
    }
    Ok(())
}

impl<T: Item> Item for Vec<T> {
    const LIST: List = T::LISTS;

    const LISTS: List = SETS;

    fn parse(alloc: Global, text: &str) -> Result<Vec<T>, Fault> {
        let mut items = Vec::new(alloc);
        if text != T::LIST.none {
            for part in text.split(T::LIST.between) {
                let (item, count) = part.split_once(T::LIST.times).unwrap_or((part, "1"));
                T::push_often(alloc, item, usize::parse(alloc, count)?, &mut items)?;
            }
        }
        Ok(items)
    }

    fn show(&self, answer: &mut String) -> Result<(), Fault> {
        show_list(self, answer)
    }
}

/// Why a text is no number.
fn no_number() -> Fault {
    Fault::Unreadable("a number is wrong or missing")
}

impl Item for usize {
    const LIST: List = NUMBERS;

    const LISTS: List = ROWS;

    fn parse(_alloc: Global, text: &str) -> Result<usize, Fault> {
        text.parse().map_err(|_| no_number())
    }

    fn show(&self, answer: &mut String) -> Result<(), Fault> {
        Ok(write!(answer, "{self}")?)
    }

    fn push_often(
        alloc: Global,
        text: &str,
        count: usize,
        items: &mut Vec<usize>,
    ) -> Result<(), Fault> {
        let Some((first, end)) = text.split_once("..") else {
            for _ in 0..count {
                items.push(usize::parse(alloc, text)?)?;
            }
            return Ok(());
        };
        for number in usize::parse(alloc, first)?..usize::parse(alloc, end)? {
            items.push(number)?;
        }
        Ok(())
    }
}

impl Item for u32 {
    const LIST: List = NUMBERS;

    const LISTS: List = ROWS;

    fn parse(_alloc: Global, text: &str) -> Result<u32, Fault> {
        text.parse().map_err(|_| no_number())
    }

    fn show(&self, answer: &mut String) -> Result<(), Fault> {
        Ok(write!(answer, "{self}")?)
    }
}

impl Item for u8 {
    const LIST: List = NUMBERS;

    const LISTS: List = ROWS;

    fn parse(_alloc: Global, text: &str) -> Result<u8, Fault> {
        text.parse().map_err(|_| no_number())
    }

    fn show(&self, answer: &mut String) -> Result<(), Fault> {
        Ok(write!(answer, "{self}")?)
    }
}

impl Item for [u32; 1] {
    const LIST: List = NUMBERS;

    const LISTS: List = ROWS;

    fn parse(alloc: Global, text: &str) -> Result<[u32; 1], Fault> {
        Ok([u32::parse(alloc, text)?])
    }

    fn show(&self, answer: &mut String) -> Result<(), Fault> {
        self[0].show(answer)
    }
}

/// A digest of SHA-256 has two hexadecimal digits for each byte.
impl Item for [u8; 32] {
    const LIST: List = NUMBERS;

    const LISTS: List = ROWS;

    fn parse(_alloc: Global, text: &str) -> Result<[u8; 32], Fault> {
        <[u8; 32] as FromHex>::from_hex(text).map_err(|_| no_number())
    }

    fn show(&self, answer: &mut String) -> Result<(), Fault> {
        for byte in self {
            write!(answer, "{byte:02x}")?;
        }
        Ok(())
    }
}

impl Item for Dimensions {
    const LIST: List = List {
        between: " ",
        times: "*",
        none: "none",
    };

    const LISTS: List = ROWS;

    fn parse(alloc: Global, text: &str) -> Result<Dimensions, Fault> {
        let (width, height) = text.split_once('x').ok_or(no_number())?;
        Ok(Dimensions {
            width: usize::parse(alloc, width)?,
            height: usize::parse(alloc, height)?,
        })
    }

    fn show(&self, answer: &mut String) -> Result<(), Fault> {
        Ok(write!(answer, "{}x{}", self.width, self.height)?)
    }
}

/// A value that is one field of a line, or several.
pub trait Field: Sized + Drop {
    /// Reads the value.
    fn read(case: &mut Case<'_>) -> Result<Self, Fault>;

    /// Writes the value.
    fn write(&self, case: &mut Case<'_>) -> Result<(), Fault>;
}

impl Field for usize {
    fn read(case: &mut Case<'_>) -> Result<usize, Fault> {
        usize::parse(case.alloc, case.take())
    }

    fn write(&self, case: &mut Case<'_>) -> Result<(), Fault> {
        case.begin()?;
        self.show(&mut case.answer)
    }
}

impl<T: Item> Field for Vec<T> {
    fn read(case: &mut Case<'_>) -> Result<Vec<T>, Fault> {
        Vec::parse(case.alloc, case.take())
    }

    fn write(&self, case: &mut Case<'_>) -> Result<(), Fault> {
        case.list(self)
    }
}

impl<X: Item> Field for PrunedProof<X> {
    fn read(case: &mut Case<'_>) -> Result<PrunedProof<X>, Fault> {
        let sibling_hashes = Vec::parse(case.alloc, case.take())?;
        Ok(PrunedProof { sibling_hashes })
    }

    fn write(&self, case: &mut Case<'_>) -> Result<(), Fault> {
        case.list(&self.sibling_hashes)
    }
}

impl<A: Field, B: Field> Field for (A, B) {
    fn read(case: &mut Case<'_>) -> Result<(A, B), Fault> {
        let first = A::read(case)?;
        Ok((first, B::read(case)?))
    }

    fn write(&self, case: &mut Case<'_>) -> Result<(), Fault> {
        self.0.write(case)?;
        self.1.write(case)
    }
}
