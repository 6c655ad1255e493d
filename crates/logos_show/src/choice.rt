//! Selects the enum of a file whose lexer is requested. Used by the modules that answer questions
//! about a lexer.

ghost use Rattle.std.specs.Prelude.{◌≡◌, ◌↔◌, ℕ, List, IfErr, IfOk, IfSome, IsTrue, None, Some, option_map, string_bytes};
ghost use Rattle.logos_show.specs.Views.{Fault, Gains, HasName, IsCause, IsChosen, IsChosenIn, IsLexerOf, IsNextChoice, IsNoMisuse, IsPathOf, IsSeveralText, IsUnreadable, Refuses, RefusesBy, chosen_first, first_deriving, help_text, name_requested, name_text, no_lexer_text, other_text, several_text};

use crate::candidates::{is_named, named_enum};
use crate::program::Task;
use crate::refusals::{refused, write_note};
use logos_codegen::Refusal;
use logos_codegen::error::Memory;
use logos_file_warnings::Showing;
use logos_host::Failure;
use logos_options::OptionName;
use logos_page::Page;
use logos_report::{Part, Source};
use logos_rust_file::{FoundEnum, enums_in, path_of};
use std::alloc::{AllocError, Global};
use std::io::Write;

/// The first two enums that derive `Logos` and have different paths, as far as the enums of a file
/// have been searched.
#[derive(Clone, Copy)]
struct Choice {
    /// The first enum that derives `Logos`, or `None` if none was found.
    first: Option<FoundEnum>,
    /// The first enum after `first` that derives `Logos` and has a different path, or `None` if
    /// none was found.
    second: Option<FoundEnum>,
}

/// The enums that a name selects. If no name is given, these are all enums that derive `Logos`.
#[derive(Clone, Copy)]
pub(crate) enum Chosen {
    Nothing,
    One(FoundEnum),
    /// Several enums: the first one, and the first later one with a different path.
    Several(FoundEnum, FoundEnum),
}

/// Returns the requested enum of a file. Without a name, this is the first enum that derives
/// `Logos`, and a note is written to standard error if enums with different paths derive `Logos`.
///
/// # Errors
///
/// Returns `Refused` if the file cannot be read into tokens, has no requested enum, or has several
/// enums with the requested name. Returns `Memory` if memory runs out.
pub(crate) fn lexer_in<'w, E: Write>(
    alloc: Global,
    task: Task<'w>,
    source: &Source<'_>,
    err: &mut E,
) -> Result<FoundEnum, Failure<'w>>
    ensures failed { IfErr result IsNoMisuse }
    ensures chosen { IfOk result (IsLexerOf source.now.text
        (name_requested task.entry.order.settings)) }
    ensures refused { IfErr result (RefusesBy (IsCause source.now
        (name_requested task.entry.order.settings))) }
{
    match found_in(alloc, task, source)? {
        Chosen::One(one) => Ok(one),
        Chosen::Several(one, other) => one_of(task, source, (one, other), err),
        Chosen::Nothing => Err(no_lexer(
            alloc,
            source.path(),
            task.order.settings.value(OptionName::Enum),
        )),
    }
}

/// Returns the first of two enums and writes a note to standard error if no name is given. Returns
/// `Refused` if a name is given.
fn one_of<'w, E: Write>(
    task: Task<'w>,
    source: &Source<'_>,
    enums: (FoundEnum, FoundEnum),
    err: &mut E,
) -> Result<FoundEnum, Failure<'w>>
    ensures failed { IfErr result IsNoMisuse }
    ensures first { IfOk result (λ one. (one ≡ enums.0)
        × (name_requested task.entry.order.settings ≡ None)) }
    ensures refused { IfErr result (RefusesBy (λ shown. (name : List ℕ)
        × (name_requested task.entry.order.settings ≡ Some name)
        × IsSeveralText source.now name enums.0 enums.1 shown)) }
{
    let alloc = task.showing.alloc;
    if let Some(name) = task.order.settings.value(OptionName::Enum) {
        return Err(several(alloc, source, name, enums));
    }
    let note = first_text(alloc, source, enums)?;
    write_note(err, note.as_bytes());
    Ok(enums.0)
}

/// Returns the note that the first of two enums was selected, with help for selecting the second.
fn first_text(
    alloc: Global,
    source: &Source<'_>,
    enums: (FoundEnum, FoundEnum),
) -> Result<String, Memory> {
    let one = path_of(alloc, source.text(), enums.0)?;
    let other = path_of(alloc, source.text(), enums.1)?;
    let mut page = Page::new(alloc, false);
    page.push("note: several enums in ");
    page.push_shown(source.path());
    page.push(" derive `Logos`, and this is about the first, `");
    page.push_shown(one.as_str());
    page.push("`\nhelp: give the path of another one, as in `--enum ");
    page.push_shown(other.as_str());
    page.push("`\n");
    Ok(page.finish()?)
}

/// Returns the requested enums of a file. The result is never `Nothing`.
///
/// # Errors
///
/// Returns `Refused` if the file cannot be read into tokens or has no requested enum, and `Memory`
/// if memory runs out.
pub(crate) fn found_in<'w>(
    alloc: Global,
    task: Task<'w>,
    source: &Source<'_>,
) -> Result<Chosen, Failure<'w>>
    ensures failed { IfErr result IsNoMisuse }
    ensures chosen { IfOk result (IsChosenIn source.now.text
        (name_requested task.entry.order.settings)) }
    ensures refused { IfErr result (RefusesBy (IsCause source.now
        (name_requested task.entry.order.settings))) }
{
    let found = match enums_in(alloc, source.text()) {
        Ok(found) => found,
        Err(refusal) => return Err(unread(alloc, task.showing, source, refusal)),
    };
    match enum_meant(
        alloc,
        source,
        &found,
        task.order.settings.value(OptionName::Enum),
    )? {
        Chosen::Nothing => Err(no_lexer(
            alloc,
            source.path(),
            task.order.settings.value(OptionName::Enum),
        )),
        some => Ok(some),
    }
}

/// Returns the refusal of a file that cannot be read into tokens. The refusal contains the faults
/// of the file. Returns `Memory` if memory runs out.
fn unread(
    alloc: Global,
    showing: Showing,
    source: &Source<'_>,
    refusal: Refusal,
) -> Failure<'static>
    requires { Refuses (IsUnreadable source.now.text) refusal }
    ensures failed { IsNoMisuse result }
    ensures refused { RefusesBy (λ shown. (faults : List Fault)
        × IsUnreadable source.now.text faults) result }
{
    let Refusal::Errors(errors) = refusal else {
        return Failure::Memory;
    };
    let whole = Part { source, offset: 0 };
    refused(alloc, whole, showing, Refusal::Errors(errors))
}

/// Returns the refusal of a file in which no enum derives `Logos`, or no enum with the requested
/// name does. Returns `Memory` if memory runs out.
fn no_lexer(alloc: Global, file: &str, name: Option<&str>) -> Failure<'static>
    ensures failed { IsNoMisuse result }
    ensures refused { RefusesBy (λ shown.
        shown ≡ no_lexer_text file.now (option_map (λ name. name.now) name.entry)) result }
{
    match no_lexer_text(alloc, file, name) {
        Ok(text) => Failure::Refused(text),
        Err(AllocError) => Failure::Memory,
    }
}

/// Returns the message that no enum in `file` derives `Logos`, or that no enum with the name `name`
/// does.
fn no_lexer_text(alloc: Global, file: &str, name: Option<&str>) -> Result<String, AllocError>
    ensures { IfOk result (λ text. string_bytes text
        ≡ no_lexer_text file.now (option_map (λ name. name.now) name.entry)) }
{
    let mut page = Page::new(alloc, false);
    page.push("error: no enum ");
    push_name(&mut page, name);
    page.push("in ");
    page.push_shown(file);
    page.push(" derives `Logos`\n");
    page.finish()
}

/// Returns the refusal of a name that selects several enums. `enums` contains two of these enums.
/// The two enums have different paths. Returns `Memory` if memory runs out.
fn several(
    alloc: Global,
    source: &Source<'_>,
    name: &str,
    enums: (FoundEnum, FoundEnum),
) -> Failure<'static>
    ensures failed { IsNoMisuse result }
    ensures refused { RefusesBy (IsSeveralText source.now name.now enums.0 enums.1) result }
{
    match several_text(alloc, source, name, enums) {
        Ok(text) => Failure::Refused(text),
        Err(Memory) => Failure::Memory,
    }
}

/// Returns the message that several enums have the name `name`, with the paths of the two enums in
/// `enums`.
fn several_text(
    alloc: Global,
    source: &Source<'_>,
    name: &str,
    enums: (FoundEnum, FoundEnum),
) -> Result<String, Memory>
    ensures { IfOk result (λ text.
        IsSeveralText source.now name.now enums.0 enums.1 (string_bytes text)) }
{
    let one = path_of(alloc, source.text(), enums.0)?;
    let other = path_of(alloc, source.text(), enums.1)?;
    let mut page = Page::new(alloc, false);
    push_several(&mut page, source.path(), name);
    push_name(&mut page, Some(one.as_str()));
    push_other(&mut page, other.as_str());
    push_help(&mut page, one.as_str());
    Ok(page.finish()?)
}

/// Appends the beginning of the message that several enums of `file` have the name `name`.
fn push_several(page: &mut Page, file: &str, name: &str)
    ensures { Gains (several_text file.now name.now) page.old page.new }
{
    page.push("error: several enums ");
    push_name(page, Some(name));
    page.push("in ");
    page.push_shown(file);
    page.push(" derive `Logos`: ");
}

/// Appends the path of the second enum and the end of the line to the message about several enums.
fn push_other(page: &mut Page, path: &str)
    ensures { Gains (other_text path.now) page.old page.new }
{
    page.push("and `");
    page.push_shown(path);
    page.push("`\n");
}

/// Appends the help for a name that several enums have. The help suggests the path `path` in place
/// of the name.
fn push_help(page: &mut Page, path: &str)
    ensures { Gains (help_text path.now) page.old page.new }
{
    page.push("help: give the path of one, as in `--enum ");
    page.push_shown(path);
    page.push("`\n");
}

/// Appends the name of an enum in backticks and a space. Appends nothing if `name` is `None`.
fn push_name(page: &mut Page, name: Option<&str>)
    ensures { Gains (name_text (option_map (λ name. name.now) name.entry)) page.old page.new }
{
    if let Some(name) = name {
        page.push("`");
        page.push_shown(name);
        page.push("` ");
    }
}

/// Selects among the enums in `found` that derive `Logos`. A name selects the first enum with this
/// path, or otherwise the enums whose paths end with the name. Without a name, all enums that
/// derive `Logos` are selected.
fn enum_meant(
    alloc: Global,
    source: &Source<'_>,
    found: &[FoundEnum],
    name: Option<&str>,
) -> Result<Chosen, Memory>
    ensures { IfOk result (IsChosen source.now.text found.now
        (option_map (λ name. name.now) name.entry)) }
{
    match name {
        Some(name) => named_enum(alloc, source.text(), found, name),
        None => first_enum(alloc, source, found),
    }
}

/// Returns the first enum that derives `Logos`, with the first later one that has a different path
/// if there is one. Returns `Nothing` if no enum derives `Logos`.
fn first_enum(alloc: Global, source: &Source<'_>, found: &[FoundEnum]) -> Result<Chosen, Memory>
    ensures { IfOk result (λ chosen. chosen_first chosen ≡ first_deriving found.now) }
{
    let mut choice = Choice {
        first: None,
        second: None,
    };
    for one in found {
        choice = choice_with(alloc, choice, source, *one)?;
    }
    Ok(chosen_of(choice))
}

/// Returns the enums of a choice: `Nothing` if the choice is empty, `One` if the choice has only a
/// first enum, and `Several` otherwise.
fn chosen_of(choice: Choice) -> Chosen
    ensures { chosen_first result ≡ choice.first }
{
    match (choice.first, choice.second) {
        (Some(one), None) => Chosen::One(one),
        (Some(one), Some(other)) => Chosen::Several(one, other),
        (None, _) => Chosen::Nothing,
    }
}

/// Returns `choice` updated with the enum `one`. The choice is unchanged if the enum does not
/// derive `Logos`, if the enum has the path of the first one, or if the choice already has two
/// enums.
fn choice_with(
    alloc: Global,
    choice: Choice,
    source: &Source<'_>,
    one: FoundEnum,
) -> Result<Choice, Memory>
    ensures { IfOk result (IsNextChoice choice one) }
{
    if !one.derives {
        return Ok(choice);
    }
    let Some(first) = choice.first else {
        return Ok(Choice {
            first: Some(one),
            ..choice
        });
    };
    if choice.second.is_some() {
        return Ok(choice);
    }
    let path = path_of(alloc, source.text(), one)?;
    let other = path_of(alloc, source.text(), first)?;
    if path.as_str() == other.as_str() {
        return Ok(choice);
    }
    Ok(Choice {
        second: Some(one),
        ..choice
    })
}

/// Returns whether `name` selects the enum `found`. This is the case if the path of the enum is
/// `name` or ends with `name`. Returns `true` if `name` is `None`.
///
/// # Errors
///
/// Returns `Memory` if memory runs out.
pub(crate) fn has_name(
    alloc: Global,
    source: &Source<'_>,
    found: FoundEnum,
    name: Option<&str>,
) -> Result<bool, Memory>
    ensures { IfOk result (λ has. IfSome (option_map (λ name. name.now) name.entry)
        (λ name. (path : List ℕ) × IsPathOf source.now.text found path
        × (IsTrue has ↔ HasName name path))) }
{
    match name {
        Some(name) => {
            let path = path_of(alloc, source.text(), found)?;
            Ok(is_named(path.as_str(), name))
        }
        None => Ok(true),
    }
}
