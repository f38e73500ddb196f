//! What a caller says of a tree and its matrices.

ghost use Rattle.std.specs.Prelude.{◌≡◌};
ghost use Rattle.fohlazu_c.specs.Openings.{rule_shown};

use p3_merkle_core::cap::CapRule;

/// What a tree was built with.
#[repr(C)]
#[derive(Clone, Copy)]
pub struct TreeSetting {
    /// The cap height, in levels below the root. The cap is nearer to the root where the tree has fewer levels, or,
    /// under `Lowered`, where a matrix is injected above that layer.
    pub cap_height: usize,
    /// How many children a node has at most: 2, 4 or 8.
    pub arity: u8,
    /// The rule of caps: 0 for `Lowered`, 1 for `Fixed`.
    pub cap_rule: u8,
}

/// The dimensions of a matrix.
#[repr(C)]
#[derive(Clone, Copy)]
pub struct MatrixSize {
    /// How many rows it has.
    pub height: usize,
    /// How many bytes a row has.
    pub width: usize,
}

/// The rule of caps of a number: `Lowered` of 0, `Fixed` of 1, `None` of any other.
pub fn rule(number: u8) -> Option<CapRule>
    ensures { result ≡ rule_shown number }
{
    match number {
        0 => Some(CapRule::Lowered),
        1 => Some(CapRule::Fixed),
        _ => None,
    }
}
