//! Laws that restate definitions of other crates in a form that is easier to check by reading. For
//! example, `pieces_in_turn` describes the pieces of an attribute one after another, and
//! `strips_by_parts` describes the result of stripping part by part.
//!
//! No code calls these functions: the contract of each is a proved law.

ghost use Rattle.std.specs.Prelude.{◌≡◌, ◌<◌, ◌≤◌, ◌↔◌, ℕ, suc, ◌+◌, ◌-◌, ◌^◌, ◌++◌, min, Bool, List, Ok, Option, IfSome};
ghost use Rattle.logos_laws.specs.readings.Imports.{EnumValue, Piece, Reads, TokenList, pieces, stripped, in_file, moved, InReport, OccurInOrder, ArePieces, EnumStays, IsBytes, Matches, MatchesInOrder, SomeMatches, Tree, repetition, trees, alternation_of, concat_of, repetition_of};
ghost use Rattle.logos_laws.specs.readings.Imports.{AreFew, AreOfVariant, CodeLeaf, HaveNoSets, Refused, SourceValue, all_faults, all_lines, code_variant, lines_from, refused_texts, variant_line};

/// The pieces of a list of tokens are the first piece, followed by the pieces of the tokens after
/// the first piece and the comma that ends this piece.
pub fn pieces_in_turn()
    ensures are { (run : TokenList) → ArePieces run (pieces run) }
    ensures only { (run : TokenList) (list : List Piece) → ArePieces run list →
        list ≡ pieces run }
{}

/// Stripping an enum removes exactly the helper attributes of the enum, of its variants and of
/// their fields, and the entries of the enum's `derive`s that name the macro. All other tokens are
/// unchanged.
pub fn strips_by_parts()
    ensures are { (tokens : TokenList) (value : EnumValue) → Reads tokens (Ok value) →
        EnumStays value tokens (stripped tokens) }
    ensures only { (tokens remaining : TokenList) (value : EnumValue) →
        EnumStays value tokens remaining → remaining ≡ stripped tokens }
{}

/// The offset of a point in a file is the sum of its offset in a part of the file and the offset of
/// this part, if the sum is less than 2^64.
pub fn offsets_are_sums()
    ensures report { (begin offset : ℕ) → offset + begin < 2 ^ 64 →
        in_file begin offset ≡ offset + begin }
    ensures rows { (begin offset : ℕ) → offset + begin < 2 ^ 64 →
        moved begin offset ≡ begin + offset }
{}

/// The lines of a report occur one after another in the text of the report. The law uses the
/// definition of `OccurInOrder` that is also used for generated code.
pub fn report_lines_occur()
    ensures { (is_colored : Bool) (lines : List (List ℕ)) (whole : List ℕ) →
        InReport is_colored lines whole → OccurInOrder lines whole }
{}

/// The builders do not change the matches of trees. The result for parts has exactly the matches of
/// the parts one after another, the result for branches has exactly the matches of the branches,
/// and the result for a repetition has exactly the matches of the repetition.
pub fn builders_change_no_match()
    ensures parts { (parts : List Tree) (bytes : List ℕ) (from to : ℕ) →
        Matches (concat_of parts) bytes from to ↔ MatchesInOrder (trees parts) bytes from to }
    ensures branches { (branches : List Tree) (bytes : List ℕ) → IsBytes bytes →
        (from to : ℕ) →
        Matches (alternation_of branches) bytes from to
        ↔ SomeMatches (trees branches) bytes from to }
    ensures counts { (least : ℕ) (most : Option ℕ) (greedy : Bool) (body : Tree)
        (bytes : List ℕ) (from to : ℕ) → IfSome most (λ m. least ≤ m) →
        Matches (repetition_of least most greedy body) bytes from to
        ↔ Matches (repetition least most greedy body) bytes from to }
{}

/// A report consists of exactly the lines of each fault, in the order of the faults, if at most 50
/// faults have the same code and no set of ambiguous leaves has a clue.
pub fn short_reports_are_whole()
    ensures { (is_colored : Bool) (source : SourceValue) (parts : List Refused) →
        HaveNoSets parts → AreFew (all_faults parts) →
        refused_texts is_colored source parts ≡ all_lines is_colored source parts }
{}

/// If consecutive leaves are the remaining leaves of a variant, the next line of the totals
/// contains the sum of the numbers of items of these leaves, or 2^64 - 1 if the sum is greater.
/// There is no such line if the sum is 0. The lines of the later leaves follow.
pub fn totals_are_sums()
    ensures { (leaves : List CodeLeaf) (counts : List ℕ) (from size last total left : ℕ) →
        AreOfVariant leaves counts from size last total →
        lines_from leaves counts from 0 (size + left)
        ≡ variant_line (code_variant leaves last) (min total (2 ^ 64 - 1))
        ++ lines_from leaves counts (suc last) 0 left }
{}
