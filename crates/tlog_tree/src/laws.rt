//! A law of the definitions, as the contract of a function that does nothing.
ghost use Rattle.tlog_tree.specs.Parts.{RootIsOfParts};

/// The root of the parts' roots, taken as leaf hashes, is the root of all their leaf hashes. All parts but the last
/// have one size, a power of two; the last has from 1 leaf hash to as many.
pub fn root_of_parts()
    ensures { RootIsOfParts }
{}
