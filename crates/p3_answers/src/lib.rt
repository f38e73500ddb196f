//! What a call answers that may refuse its input: the first reason that applies, or that memory ran out. There are
//! definitions alone, in `specs/Answers.antt`, and no code.
#![tactic(auto)]
