//! Re-exports the errors of patterns from `logos_pattern_tokens`.

pub use logos_pattern_tokens::error::{Kind, PatternError};
