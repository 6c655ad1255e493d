//! `lexeme_at` finds the kind and the end of the lexeme or gap at a byte offset of a source text.
//! `logos_token` calls `lexeme_at` to read tokens.

#![tactic(auto)]

pub mod lexeme;
