//! Laws of lexemes: the bytes with which literals and comments begin. No code calls these
//! functions: the contract of each is a proved law.

ghost use Rattle.std.specs.Prelude.{codes};
ghost use Rattle.logos_laws.specs.lexemes.Imports.{Apostrophes, Block, Bytes, C, Doc, Gap, Line, OpensBlock, OpensBlockDoc, OpensBy, OpensLine, OpensLineDoc, OpensNumber, OpensRaw, Quotes, Text};

/// A number begins with a digit, and a string begins with a quote. The other literals begin with
/// letters before a quote, `#` or `'`, or with `'`. Comments begin with two characters, and the
/// bytes after these characters decide whether a comment is documentation.
pub fn openings_by_text()
    ensures numbers { OpensNumber }
    ensures strings { OpensBy (codes "\"") (Quotes Text) × OpensBy (codes "b\"") (Quotes Bytes)
        × OpensBy (codes "c\"") (Quotes C) }
    ensures raw_strings { OpensRaw Text (codes "r") × OpensRaw Bytes (codes "br")
        × OpensRaw C (codes "cr") }
    ensures characters { OpensBy (codes "b'") (Apostrophes Bytes)
        × OpensBy (codes "'\\") (Apostrophes Text) }
    ensures lines { OpensBy (codes "//!") (Line Doc) × OpensLineDoc
        × OpensBy (codes "////") (Line Gap) × OpensLine }
    ensures blocks { OpensBy (codes "/*!") (Block Doc) × OpensBlockDoc
        × OpensBy (codes "/***") (Block Gap) × OpensBy (codes "/**/") (Block Gap) × OpensBlock }
{}
