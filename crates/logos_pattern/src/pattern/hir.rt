//! Re-exports the trees of patterns from `logos_hir`.

pub use logos_hir::hir::{Class, Hir, Look, Range};
