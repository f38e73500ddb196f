//! Whether clones and copies are what they were made from, how values are printed, and whether `==` holds of equal
//! values alone. Each answer is false if memory runs out.

use std::alloc::{AllocError, Global};
use std::fmt::Debug;

/// Whether two values are printed alike.
pub fn are_printed_alike<T: Debug>(alloc: Global, first: &T, second: &T) -> bool {
    match (
        format!(in alloc; "{first:?}"),
        format!(in alloc; "{second:?}"),
    ) {
        (Ok(first), Ok(second)) => first.as_str() == second.as_str(),
        _ => false,
    }
}

/// Whether a value is printed as this text.
pub fn is_printed<T: Debug>(alloc: Global, value: &T, expected: &str) -> bool {
    match format!(in alloc; "{value:?}") {
        Ok(text) => text.as_str() == expected,
        Err(_) => false,
    }
}

/// Whether a clone of a value is printed as the value.
pub fn is_printed_as_its_clone<T: Clone + Debug + Drop>(alloc: Global, value: &T) -> bool {
    let clone: Result<T, AllocError> = value.clone();
    match &clone {
        Ok(clone) => are_printed_alike(alloc, value, clone),
        Err(_) => false,
    }
}

/// Whether a clone of a value and a copy of it are printed as the value.
pub fn is_printed_as_its_copies<T: Copy + Debug>(alloc: Global, value: T) -> bool {
    let copy = value;
    are_printed_alike(alloc, &value, &copy) && is_printed_as_its_clone(alloc, &value)
}

/// Whether a clone of a value equals it.
pub fn equals_its_clone<T: Clone + PartialEq + Drop>(value: &T) -> bool {
    let clone: Result<T, AllocError> = value.clone();
    match &clone {
        Ok(clone) => *value == *clone,
        Err(_) => false,
    }
}

/// Whether `==` holds of the values at equal positions of both slices, and of no others.
pub fn are_told_apart<T: PartialEq>(first: &[T], second: &[T]) -> bool {
    for (i, left) in first.iter().enumerate() {
        for (j, right) in second.iter().enumerate() {
            if (*left == *right) != (i == j) {
                return false;
            }
        }
    }
    first.len() == second.len()
}
