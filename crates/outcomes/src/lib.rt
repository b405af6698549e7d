//! The words in which definitions say what a call answers: steps that may find nothing or be refused, what a fault of
//! the code says next to them, lines of text and lists of bytes. Definitions and lemmas alone: it has no code.
#![tactic(auto)]
