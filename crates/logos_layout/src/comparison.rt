//! Compares the tokens of two texts. Used by `layout`, `inner_attributes` and `writer`.

ghost use Rattle.std.specs.Prelude.{IfOk, IfSome, IsTrue, string_bytes};
ghost use Rattle.logos_layout.specs.Imports.{ArePrinted, SpellsSame};

use logos_token::error::Memory;
use logos_token::token::{TokenError, print, tokenize};
use std::alloc::Global;

/// Returns whether `text` and `other` spell tokens that are equal except for their spans. Returns
/// `false` if one of the texts cannot be read into tokens.
pub(crate) fn spell_same(alloc: Global, text: &str, other: &str) -> Result<bool, Memory>
    ensures { IfOk result (λ same. IsTrue same → SpellsSame text.now other.now) }
{
    let Some(one) = printed_again(alloc, text)? else {
        return Ok(false);
    };
    let Some(two) = printed_again(alloc, other)? else {
        return Ok(false);
    };
    Ok(one.as_str() == two.as_str())
}

/// Returns whether `printed` is the text that `print` returns for all tokens of `text`. Returns
/// `false` if `text` cannot be read into tokens.
pub(crate) fn prints_as(alloc: Global, text: &str, printed: &str) -> Result<bool, Memory>
    ensures { IfOk result (λ same. IsTrue same → ArePrinted text.now printed.now) }
{
    match printed_again(alloc, text)? {
        Some(again) => Ok(again.as_str() == printed),
        None => Ok(false),
    }
}

/// Returns the text that `print` returns for all tokens of a text, or `None` if the text cannot be
/// read into tokens.
fn printed_again(alloc: Global, text: &str) -> Result<Option<String>, Memory>
    ensures { IfOk result (λ found.
        IfSome found (λ shown. ArePrinted text.now (string_bytes shown))) }
{
    match tokenize(alloc, text) {
        Ok(stream) => match print(alloc, stream.run()) {
            Ok(text) => Ok(Some(text)),
            Err(Memory) => Err(Memory),
        },
        Err(TokenError::Memory) => Err(Memory),
        Err(_) => Ok(None),
    }
}
