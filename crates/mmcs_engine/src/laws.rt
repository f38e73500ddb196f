//! What follows from the meaning of arguments and of inputs.

ghost use Rattle.std.specs.Prelude.{◌≡◌, ◌↔◌, ℕ, true, List, ◌∷◌, ◌++◌, All, Result};
ghost use Rattle.mmcs_engine.specs.declared.command.Command.{Command};
ghost use Rattle.mmcs_engine.specs.declared.fault.Fault.{Fault};
ghost use Rattle.mmcs_engine.specs.Input.{is_blank, pieces_of, StandsFor};
ghost use Rattle.mmcs_engine.specs.Args.{AreArgs};
ghost use Rattle.mmcs_engine.specs.Program.{IsOutcome};

/// Arguments are those of at most one command with its indices, an input stands for at most one list of matrices, and
/// arguments and an input have at most one outcome. So an input has at most one first faulty line, with one error, and
/// an input that has one stands for no matrices.
pub fn meanings_are_unique()
    ensures command { (args : List (List ℕ)) (c d : Command) (is js : List ℕ) →
        AreArgs args c is → AreArgs args d js → (c ≡ d) × (is ≡ js) }
    ensures outcome { (args : List (List ℕ)) (input : List ℕ) (o p : Result (List ℕ) Fault) →
        IsOutcome args input o → IsOutcome args input p → o ≡ p }
    ensures matrices { (limit : ℕ) (input : List ℕ) (ms ns : List (List (List ℕ))) →
        StandsFor limit input ms → StandsFor limit input ns → ms ≡ ns }
{}

/// All arguments and inputs have an outcome by definition: the usage, the error of the first faulty line, a refusal of
/// the tree, or a text. This holds for all lists of numbers, whether they are bytes or not.
pub fn each_input_has_an_outcome()
    ensures { (args : List (List ℕ)) (input : List ℕ) →
        (outcome : Result (List ℕ) Fault) × IsOutcome args input outcome }
{}

/// Blank lines before the first row and after the last one do not matter, so the last line feed may be missing. Two
/// inputs with a blank line between them stand for the matrices of the first followed by those of the second.
pub fn blank_lines_separate_matrices()
    ensures front { (limit : ℕ) (blank input : List ℕ) (matrices : List (List (List ℕ))) →
        All (λ piece. is_blank piece ≡ true) (pieces_of blank) →
        StandsFor limit (blank ++ 10 ∷ input) matrices ↔ StandsFor limit input matrices }
    ensures end { (limit : ℕ) (input blank : List ℕ) (matrices : List (List (List ℕ))) →
        All (λ piece. is_blank piece ≡ true) (pieces_of blank) →
        StandsFor limit (input ++ 10 ∷ blank) matrices ↔ StandsFor limit input matrices }
    ensures between { (limit : ℕ) (front back : List ℕ) (ms ns : List (List (List ℕ))) →
        StandsFor limit front ms → StandsFor limit back ns →
        StandsFor limit (front ++ 10 ∷ 10 ∷ back) (ms ++ ns) }
{}
