//! The type `Names`, which contains the shape of generated code and the name and the type of the
//! enum. `code` creates one value of this type for all printers.

ghost use Rattle.std.specs.Prelude.{◌≡◌};

use logos_code::code::{CodeParts, Config};
use logos_token::token::Ident;

/// The values that all printers of generated code use: the shape of the code, the name of the enum,
/// and the printed type of the enum.
#[derive(Clone, Copy)]
pub(crate) struct Names<'p> {
    pub(crate) shape: Config,
    pub(crate) name: Ident<'p>,
    pub(crate) this: &'p str,
}

impl<'p> Names<'p> {
    /// Returns the names for the text of the code with the parts `parts`. `this` is the printed
    /// type of the enum.
    pub(crate) fn new(parts: &'p CodeParts<'_>, this: &'p str) -> Names<'p>
        ensures shape { result.shape ≡ parts.now.header.shape }
        ensures name { result.name ≡ parts.now.header.name }
        ensures this { result.this.now ≡ this.now }
    {
        Names {
            shape: parts.header.shape,
            name: parts.header.name,
            this,
        }
    }
}
