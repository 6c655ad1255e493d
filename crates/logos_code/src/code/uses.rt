//! `uses_of` computes the use of the matches of each leaf. A lexer reads a use with one load at the
//! end of a match. Called by `construction`.

ghost use Rattle.std.specs.Prelude.{◌≡◌, IfOk, map};
ghost use Rattle.logos_code.specs.Views.{use_of, use_by};

use super::{CodeLeaf, CodeParts};
use logos_pattern::leaf::VariantKind;
use std::alloc::{AllocError, Global};

/// The use of a leaf's matches, in two bytes. A lexer reads the two bytes instead of a `CodeLeaf`,
/// which is larger.
#[derive(Clone, Copy)]
pub(crate) struct LeafUse {
    /// Whether the matches are skipped.
    pub skips: bool,
    /// Whether a callback is called for each match.
    pub calls_back: bool,
}

/// Returns the uses of all leaves, in the order of their numbers.
///
/// # Errors
///
/// Returns `AllocError` if memory runs out.
pub(super) fn uses_of(alloc: Global, parts: &CodeParts) -> Result<Vec<LeafUse>, AllocError>
    ensures { IfOk result (λ uses. map use_by uses.items ≡ map use_of parts.now.leaves.items) }
{
    let mut uses = Vec::new(alloc);
    for leaf in &parts.leaves {
        uses.push(leaf_use(leaf))?;
    }
    Ok(uses)
}

/// Returns the use of a leaf's matches.
fn leaf_use(leaf: &CodeLeaf) -> LeafUse
    ensures { use_by result ≡ use_of leaf.now }
{
    LeafUse {
        skips: matches!(leaf.kind, VariantKind::Skip),
        calls_back: leaf.callback.is_some(),
    }
}
