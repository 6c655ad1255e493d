//! Defines subpatterns: patterns with names, which other patterns use as `(?&name)`.
//!
//! `source` makes the subpatterns of a lexer once, after it has read all attributes of the enum.

ghost use Rattle.std.specs.Prelude.{◌≡◌, ◌++◌, ◌∷◌, [], ◌<◌, IfOk, IfSome, OnOk, string_bytes, ℕ, List, map, option_map, OnErr, chars, vec_len, None};
ghost use Rattle.logos_leaf.specs.subpattern.Imports.{list_all, previous, ident_slice, literal_view, named_literal_view, AddsFault, is_word, is_name, flags_of, pattern_text, wrapped, subpattern_name, subpattern_twice, utf8_subpattern, utf8_text, Bor, IsReport, text_of, subst_report, stored_report, tested_report, IsAdded, AreAdded, IsTested, put_stored, stored_at, slot_in, FindSlots};
ghost use Rattle.logos_leaf.specs.subpattern.StoredViews.{stored_of};

pub mod fault;
mod origin;
mod substitution;

use crate::subpattern::fault::{ReadingMode, read_pattern};
use crate::subpattern::origin::{Making, WrittenPattern};
use crate::subpattern::substitution::substituted;
use logos_attribute::reports::report_named;
use logos_pattern::pattern::Literal;
use logos_token::error::{Errors, FaultCode, Memory};
use logos_token::token::{Ident, Span};
use logos_type_params::reports::report_previous;
use std::alloc::Global;
use std::collections::HashMap;
use std::mem;

/// A pattern with a name by which other patterns use it.
#[derive(Drop)]
pub struct Subpattern<'s> {
    name: Ident<'s>,
    /// The text of the pattern, in a group that sets the pattern's flags. Each use of an earlier
    /// subpattern is replaced by the text of that subpattern.
    pattern: String,
}

/// The subpatterns of a lexer.
#[derive(Drop)]
pub struct Subpatterns<'s> {
    /// The subpatterns, in the order in which their names first occur.
    list: Vec<Subpattern<'s>>,
    /// The index in `list` of each subpattern, by name.
    slots: HashMap<&'s str, usize>,
    ghost found: { FindSlots (map stored_of list.items) slots.entries },
}

/// The mode in which the text of a subpattern is tested. The group around the text sets its own
/// flags.
const TEST_MODE: ReadingMode = ReadingMode {
    is_literal: false,
    unicode: true,
    ignore_case: false,
};

/// Returns whether `byte` can occur in the name of a subpattern.
fn is_word(byte: u8) -> bool
    ensures { result ≡ is_word byte }
{
    ((b'/' < byte) & (byte < b':'))
        | ((b'@' < byte) & (byte < b'['))
        | (((b'`' < byte) & (byte < b'{')) | (byte == b'_'))
}

/// Returns whether each of `bytes` can occur in the name of a subpattern.
fn are_words(bytes: &[u8]) -> bool
    ensures { result ≡ list_all is_word bytes.now }
{
    for byte in bytes {
        if !is_word(*byte) {
            return false;
        }
    }
    true
}

/// Returns whether `text` can be the name of a subpattern, that is, whether it consists of one or
/// more ASCII letters, digits and `_`.
fn is_name(text: &str) -> bool
    ensures { result ≡ is_name text.now }
{
    let bytes = text.as_bytes();
    if bytes.is_empty() {
        return false;
    }
    are_words(bytes)
}

/// Returns the text that opens the group of a subpattern and sets the flags of the group. The text
/// is `(?u:` for a string, and `(?-u:` for a byte string.
pub(crate) fn flags_of(literal: &Literal<'_>) -> &'static str
    ensures { result.now ≡ flags_of (literal_view literal.now).held }
{
    match literal {
        Literal::Utf8(_) => "(?u:",
        Literal::Bytes(_) => "(?-u:",
    }
}

/// Returns the pattern text that the value of `literal` spells.
///
/// # Errors
///
/// Returns `Memory` if memory runs out.
pub fn pattern_text(alloc: Global, literal: &Literal<'_>) -> Result<String, Memory>
    ensures { IfOk result (λ text. string_bytes text ≡ pattern_text (literal_view literal.now).held) }
{
    match literal {
        Literal::Utf8(_) => literal.escape(alloc, false),
        Literal::Bytes(_) => literal.escape(alloc, false),
    }
}

/// Returns the pattern text of `literal`, in a group that sets the pattern's flags. Other patterns
/// contain a subpattern in this form.
pub(crate) fn wrapped(alloc: Global, literal: &Literal<'_>) -> Result<String, Memory>
    ensures { IfOk result (λ text. string_bytes text ≡ wrapped (literal_view literal.now).held) }
{
    let regex = pattern_text(alloc, literal)?;
    let mut text = String::from_str(alloc, flags_of(literal))?;
    text.push_str(regex.as_str())?;
    text.push_str(")")?;
    Ok(text)
}

/// Reports that `name` cannot be the name of a subpattern.
fn report_name(name: Ident<'_>, errors: &mut Errors) -> Result<(), Memory>
    ensures { OnOk result
        (AddsFault (subpattern_name (ident_slice name.entry)) errors.old errors.new) }
{
    report_named(
        errors,
        FaultCode::SubpatternName,
        "Invalid subpattern name: `",
        name,
        "`",
    )
}

/// Reports that an earlier subpattern is also called `name`.
fn report_second(name: Ident<'_>, errors: &mut Errors) -> Result<(), Memory>
    ensures { OnOk result
        (AddsFault (subpattern_twice (ident_slice name.entry)) errors.old errors.new) }
{
    report_named(
        errors,
        FaultCode::SubpatternTwice,
        "Subpattern `",
        name,
        "` already exists",
    )
}

/// Reports that an earlier subpattern is also called `name`. Then reports `former`, the span of the
/// earlier subpattern's name.
fn report_twice(name: Ident<'_>, former: Span, errors: &mut Errors) -> Result<(), Memory>
    ensures { OnOk result (errors.new ≡ errors.old
        ++ (subpattern_twice (ident_slice name.entry) ∷ previous former ∷ [])) }
{
    report_second(name, errors)?;
    report_previous(errors, former)?;
    Ok(())
}

/// Returns the message for a subpattern that can match invalid UTF-8. `named` contains the name and
/// the literal of the subpattern.
fn utf8_text(alloc: Global, named: &(Ident<'_>, Literal<'_>)) -> Result<String, Memory>
    ensures { IfOk result (λ text. string_bytes text ≡ utf8_text (named_literal_view named.now)) }
{
    let name = named.0.text;
    let source = named.1.token().text;
    let text = format!(in alloc;
        "UTF-8 mode is requested, but the subpattern {name} = {source} can match invalid utf8.\nYou can disable UTF-8 mode with #[logos(utf8 = false)]"
    )?;
    Ok(text)
}

/// Reports that a subpattern can match invalid UTF-8. `named` contains the name and the literal of
/// the subpattern.
fn report_utf8(named: &(Ident<'_>, Literal<'_>), errors: &mut Errors) -> Result<(), Memory>
    ensures { OnOk result
        (AddsFault (utf8_subpattern (named_literal_view named.now)) errors.old errors.new) }
{
    let text = utf8_text(errors.alloc(), named)?;
    errors.err(FaultCode::Utf8Subpattern, text.as_str(), named.1.span())
}

impl<'s> Subpatterns<'s> {
    ghost use Rattle.logos_leaf.specs.subpattern.SubpatternViews.{names_of};

    /// Returns the index of the subpattern that is called `name`, or `None` if there is no such
    /// subpattern.
    fn slot(&self, name: &str) -> Option<usize>
        ensures slot { result ≡ slot_in (names_of self.now) name.now }
        ensures within { IfSome result (λ slot. slot < vec_len self.now.list) }
    {
        let slot = self.slots.get(name)?;
        Some(*slot)
    }

    /// Returns the text of the subpattern that is called `name`, or `None` if there is no such
    /// subpattern.
    pub(crate) fn find(&self, name: &str) -> Option<&str>
        ensures { option_map (λ (text : Bor (List ℕ)). text.now) result
            ≡ text_of (names_of self.now) name.now }
    {
        let slot = self.slot(name)?;
        Some(self.list[slot].pattern.as_str())
    }

    /// Returns the length in bytes of the text of the subpattern that is called `name`, and the
    /// span of the name in the subpattern's definition. Returns `None` if there is no such
    /// subpattern.
    pub(crate) fn stored(&self, name: &str) -> Option<(usize, Span)> {
        let slot = self.slot(name)?;
        let subpattern = &self.list[slot];
        Some((subpattern.pattern.len(), subpattern.name.span))
    }

    /// Appends a subpattern whose name is new. After an error, the subpatterns are unchanged.
    fn push(&mut self, subpattern: Subpattern<'s>) -> Result<(), Memory>
        requires { slot_in (names_of self.old) subpattern.name.text.now ≡ None }
        ensures ok { OnOk result
            (names_of self.new ≡ names_of self.old ++ stored_of subpattern.entry ∷ []) }
        ensures err { OnErr result (names_of self.new ≡ names_of self.old) }
    {
        self.list.reserve(1)?;
        self.slots.insert(subpattern.name.text, self.list.len())?;
        self.list.push(subpattern)?;
        Ok(())
    }

    /// Replaces the subpattern with the same name, and returns the former subpattern. If there is
    /// no subpattern with this name, appends `subpattern` and returns `None`. After an error, the
    /// subpatterns are unchanged.
    fn put(&mut self, subpattern: Subpattern<'s>) -> Result<Option<Subpattern<'s>>, Memory>
        ensures former { IfOk result (λ former. option_map stored_of former
            ≡ stored_at (names_of self.old) subpattern.entry.name.text.now) }
        ensures put { OnOk result
            (names_of self.new ≡ put_stored (stored_of subpattern.entry) (names_of self.old)) }
        ensures err { OnErr result (names_of self.new ≡ names_of self.old) }
    {
        let Some(slot) = self.slot(subpattern.name.text) else {
            self.push(subpattern)?;
            return Ok(None);
        };
        Ok(Some(mem::replace(&mut self.list[slot], subpattern)))
    }

    /// Stores the subpattern `name` with the text `pattern`. If a subpattern with this name already
    /// exists, replaces it and reports both names.
    fn store(&mut self, name: Ident<'s>, pattern: String, errors: &mut Errors) -> Result<(), Memory>
        ensures { OnOk result (IsReport
            (stored_report (ident_slice name.entry) (string_bytes pattern) (names_of self.old))
            (names_of self.new) errors.old errors.new) }
    {
        let subpattern = Subpattern { name, pattern };
        if let Some(former) = self.put(subpattern)? {
            report_twice(name, former.name.span, errors)?;
        }
        Ok(())
    }

    /// Stores a subpattern with the text `pattern`. If `refused` is `true`, reports instead that
    /// the subpattern can match invalid UTF-8. `named` contains the name and the literal of the
    /// subpattern.
    fn store_tested(
        &mut self,
        refused: bool,
        named: &(Ident<'s>, Literal<'s>),
        pattern: String,
        errors: &mut Errors,
    ) -> Result<(), Memory>
        ensures { OnOk result (IsReport
            (tested_report refused (named_literal_view named.now) (string_bytes pattern)
            (names_of self.old))
            (names_of self.new) errors.old errors.new) }
    {
        if refused {
            return report_utf8(named, errors);
        }
        self.store(named.0, pattern, errors)
    }

    /// Reads `text`, the text of a subpattern, as a pattern. Stores the subpattern if the text can
    /// be read and, in UTF-8 mode, the pattern cannot match invalid UTF-8. Otherwise reports the
    /// fault. `named` contains the name and the literal of the subpattern.
    fn test(
        &mut self,
        utf8_mode: bool,
        named: &(Ident<'s>, Literal<'s>),
        text: String,
        errors: &mut Errors,
    ) -> Result<(), Memory>
        ensures { OnOk result
            (IsTested utf8_mode (named_literal_view named.now) (string_bytes text)
            (names_of self.old) (names_of self.new) errors.old errors.new) }
    {
        let literal = &named.1;
        let making = Making::Grouped(self);
        let written = WrittenPattern { literal, making };
        let read = read_pattern(text.as_str(), written, TEST_MODE, errors)?;
        let Some(pattern) = read else {
            return Ok(());
        };
        let refused = utf8_mode & !pattern.is_utf8();
        self.store_tested(refused, named, text, errors)
    }

    /// Adds a subpattern after all earlier ones, or reports the fault that prevents it. `named`
    /// contains the name and the literal of the subpattern.
    fn add(
        &mut self,
        utf8_mode: bool,
        named: &(Ident<'s>, Literal<'s>),
        errors: &mut Errors,
    ) -> Result<(), Memory>
        ensures { OnOk result
            (IsAdded utf8_mode (named_literal_view named.now)
            (names_of self.old) (names_of self.new) errors.old errors.new) }
    {
        if !is_name(named.0.text) {
            return report_name(named.0, errors);
        }
        let text = wrapped(errors.alloc(), &named.1)?;
        let whole = substituted(self, text.as_str(), named.1.span(), errors)?;
        let Some(whole) = whole else {
            return Ok(());
        };
        self.test(utf8_mode, named, whole, errors)
    }

    /// Returns the subpatterns with the names and literals in `list`, and reports their faults.
    /// After an error, `errors` may already contain some of these faults.
    fn add_all(
        list: &[(Ident<'s>, Literal<'s>)],
        utf8_mode: bool,
        errors: &mut Errors,
    ) -> Result<Subpatterns<'s>, Memory>
        ensures { IfOk result (λ subpatterns.
            AreAdded utf8_mode (map named_literal_view list.now) [] (names_of subpatterns)
            errors.old errors.new) }
    {
        let mut subpatterns = Subpatterns {
            list: Vec::new(errors.alloc()),
            slots: HashMap::new(errors.alloc()),
        };
        for named in list {
            subpatterns.add(utf8_mode, named, errors)?;
        }
        Ok(subpatterns)
    }

    /// Returns the subpatterns with the names and literals in `list`.
    ///
    /// A subpattern can use the subpatterns that precede it in `list`. A later subpattern replaces
    /// an earlier one with the same name. Reports all faults. A subpattern with a fault of its own
    /// is omitted.
    ///
    /// # Errors
    ///
    /// Returns `Memory` if memory runs out. The faults are then unchanged.
    pub fn new(
        alloc: Global,
        list: &[(Ident<'s>, Literal<'s>)],
        utf8_mode: bool,
        errors: &mut Errors,
    ) -> Result<Subpatterns<'s>, Memory>
        ensures ok { IfOk result (λ subpatterns.
            AreAdded utf8_mode (map named_literal_view list.now) [] (names_of subpatterns)
            errors.old errors.new) }
        ensures unreported { OnErr result (errors.new ≡ errors.old) }
    {
        let mut found = Errors::new(alloc);
        let subpatterns = Subpatterns::add_all(list, utf8_mode, &mut found)?;
        errors.append(found)?;
        Ok(subpatterns)
    }

    /// Returns `pattern` with each `(?&name)` replaced by the text of the subpattern `name`.
    /// Searches `pattern` from left to right, and does not search the substituted texts. If
    /// subpatterns are missing, reports each use of a missing subpattern at `span` and returns
    /// `None`.
    ///
    /// # Errors
    ///
    /// Returns `Memory` if memory runs out. The faults are then unchanged.
    pub fn subst_subpatterns(
        &self,
        alloc: Global,
        pattern: &str,
        span: Span,
        errors: &mut Errors,
    ) -> Result<Option<String>, Memory>
        ensures ok { IfOk result (λ text.
            IsReport (subst_report (names_of self.now) span (chars pattern.now))
            (option_map string_bytes text) errors.old errors.new) }
        ensures unreported { OnErr result (errors.new ≡ errors.old) }
    {
        let mut missing = Errors::new(alloc);
        let text = substituted(self, pattern, span, &mut missing)?;
        errors.append(missing)?;
        Ok(text)
    }
}
