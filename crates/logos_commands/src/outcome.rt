//! Creates the outcomes of commands. Each outcome is complete before any part of it is written.
//! Used by `program`.

ghost use Rattle.std.specs.Prelude.{◌≡◌, ◌≢◌, ◌++◌, ◌∷◌, [], IfErr, IfOk, option_map, string_bytes};
ghost use Rattle.logos_commands.specs.Views.{IsCodeText, around_made, ident_slice, mermaid_of, export_destination, file_at, EndsWithLine, FailsAt, IsNoMisuse, effect_of, status_of, IsLeft, IsPart, IsPartOf, ReadsSource, prints, shape_of, RefusesExport, RefusesLexer, RefusesStripping};

use crate::diagram_path::diagram_path;
use crate::refusals::{ExportRefusal, refused_export, refused_source};
use logos_codegen::generator::Config;
use logos_codegen::graph::{Graph, State};
use logos_codegen::token::print;
use logos_codegen::{Generated, generate, strip_attributes};
use logos_host::{Failure, Files, read_text};
use std::alloc::Global;

/// The outcome of a command, before it is written.
#[derive(Drop)]
pub(super) enum CommandOutcome {
    /// A text for standard output.
    Text(String),
    /// A state diagram, and the path of the file to which it is written.
    Diagram { path: String, text: String },
}

/// The part of a lexer that a command requests.
#[derive(Clone, Copy)]
pub(super) enum Requested {
    /// The generated code, in this shape.
    Text(Config),
    /// The state diagram, for standard output.
    Diagram,
    /// The state diagram, for the file that the source names.
    Export,
}

/// The code shape for diagrams. A diagram does not depend on the shape.
const ANY_SHAPE: Config = Config {
    use_state_machine_codegen: true,
};

/// Returns the requested part of the lexer of the source in the file `file` as an outcome.
///
/// # Errors
///
/// Returns:
///
/// - the failure to read the file,
/// - `Refused` if the source or its export path is refused,
/// - `Memory` if memory runs out.
pub(super) fn of_file<'w, F: Files>(
    alloc: Global,
    file: &'w str,
    requested: Requested,
    files: &mut F,
) -> Result<CommandOutcome, Failure<'w>>
    ensures done { IfOk result (λ outcome. ReadsSource F.read_yields file.now files.old files.new
        (λ source. IsPartOf requested source (effect_of outcome))) }
    ensures denied { IfErr result (λ failure. status_of failure ≡ 1 →
        ReadsSource F.read_yields file.now files.old files.new
        (λ source. RefusesLexer source requested failure)) }
    ensures ends { F.read_ends files.old files.new }
    ensures known { IfErr result IsNoMisuse }
{
    let source = read_text(file, files)?;
    of_source(alloc, source.as_str(), requested)
}

/// Returns the requested part of the lexer of a source as an outcome, or the failure to create the
/// outcome.
fn of_source(
    alloc: Global,
    source: &str,
    requested: Requested,
) -> Result<CommandOutcome, Failure<'static>>
    ensures done { IfOk result (λ outcome. IsPartOf requested source.now (effect_of outcome)) }
    ensures denied { IfErr result (λ failure. status_of failure ≡ 1 →
        RefusesLexer source.now requested failure) }
    ensures known { IfErr result IsNoMisuse }
{
    match generate(alloc, source, shape_of(requested)) {
        Ok(made) => of_lexer(alloc, &made, requested),
        Err(refusal) => Err(refused_source(refusal)),
    }
}

/// Returns the code shape of the lexer from which the requested part is created.
fn shape_of(requested: Requested) -> Config
    ensures { result ≡ shape_of requested }
{
    match requested {
        Requested::Text(config) => config,
        _ => ANY_SHAPE,
    }
}

/// Returns the requested part of a lexer as an outcome, or the failure to create the outcome.
fn of_lexer(
    alloc: Global,
    made: &Generated<'_>,
    requested: Requested,
) -> Result<CommandOutcome, Failure<'static>>
    ensures part { IfOk result (λ outcome. IsPart requested (around_made made.now) made.now.graph
        made.now.code (ident_slice made.now.name) (option_map string_bytes made.now.export_path)
        (effect_of outcome)) }
    ensures plain { requested ≢ Requested.Export → IfErr result (λ failure. status_of failure ≡ 3) }
    ensures export { IfErr result (λ failure. status_of failure ≡ 1 → RefusesExport
        (export_destination (option_map string_bytes made.now.export_path) made.now.name.text.now)
        failure) }
    ensures known { IfErr result IsNoMisuse }
{
    match requested {
        Requested::Text(_) => Ok(CommandOutcome::Text(text_of_lexer(alloc, made)?)),
        Requested::Diagram => Ok(CommandOutcome::Text(tested_diagram(alloc, &made.graph)?)),
        Requested::Export => export_of_lexer(alloc, made),
    }
}

/// Returns the generated code of a lexer, followed by LF, or `Memory` if memory runs out.
fn text_of_lexer(alloc: Global, made: &Generated<'_>) -> Result<String, Failure<'static>>
    ensures text { IfOk result (λ text. EndsWithLine
        (IsCodeText (around_made made.now) made.now.code) (string_bytes text)) }
    ensures failed { IfErr result (λ failure. status_of failure ≡ 3) }
    ensures known { IfErr result IsNoMisuse }
{
    let mut text = made.text(alloc)?;
    text.push('\n')?;
    Ok(text)
}

/// Returns the enum in the file `file` without the attributes of the derive macro, followed by LF,
/// as an outcome.
///
/// # Errors
///
/// Returns:
///
/// - the failure to read the file,
/// - `Refused` if the source is refused,
/// - `Memory` if memory runs out.
pub(super) fn stripped<'w, F: Files>(
    alloc: Global,
    file: &'w str,
    files: &mut F,
) -> Result<CommandOutcome, Failure<'w>>
    ensures done { IfOk result (λ outcome. ReadsSource F.read_yields file.now files.old files.new
        (λ source. IsLeft source (effect_of outcome))) }
    ensures denied { IfErr result (λ failure. status_of failure ≡ 1 →
        ReadsSource F.read_yields file.now files.old files.new
        (λ source. RefusesStripping source failure)) }
    ensures ends { F.read_ends files.old files.new }
    ensures known { IfErr result IsNoMisuse }
{
    let source = read_text(file, files)?;
    match stripped_source(alloc, source.as_str()) {
        Ok(text) => Ok(CommandOutcome::Text(text)),
        Err(failure) => Err(failure),
    }
}

/// Returns the enum of a source without the attributes of the derive macro, followed by LF. Returns
/// `Refused` if the source is refused, and `Memory` if memory runs out.
fn stripped_source(alloc: Global, source: &str) -> Result<String, Failure<'static>>
    ensures done { IfOk result (λ text. IsLeft source.now (prints (string_bytes text))) }
    ensures denied { IfErr result (λ failure. status_of failure ≡ 1 →
        RefusesStripping source.now failure) }
    ensures known { IfErr result IsNoMisuse }
{
    let left = match strip_attributes(alloc, source) {
        Ok(left) => left,
        Err(refusal) => return Err(refused_source(refusal)),
    };
    let mut text = print(alloc, left.run())?;
    text.push('\n')?;
    Ok(text)
}

/// Returns the state diagram of a lexer, for the file that its source names. Returns `Refused` if
/// the source names no file, and `Memory` if memory runs out.
fn export_of_lexer(alloc: Global, made: &Generated<'_>) -> Result<CommandOutcome, Failure<'static>>
    ensures diagram { IfOk result (λ outcome. IsPart Requested.Export (around_made made.now)
        made.now.graph made.now.code (ident_slice made.now.name)
        (option_map string_bytes made.now.export_path) (effect_of outcome)) }
    ensures denied { IfErr result (λ failure. status_of failure ≡ 1 → RefusesExport
        (export_destination (option_map string_bytes made.now.export_path) made.now.name.text.now)
        failure) }
    ensures known { IfErr result IsNoMisuse }
{
    let path = match path_of_diagram(alloc, made) {
        Ok(path) => path,
        Err(failure) => return Err(failure),
    };
    let text = tested_diagram(alloc, &made.graph)?;
    Ok(CommandOutcome::Diagram { path, text })
}

/// Returns the path of the file that a source names for its diagram. Returns `Refused` if the
/// source names no file or a file with another extension, and `Memory` if memory runs out.
fn path_of_diagram(alloc: Global, made: &Generated<'_>) -> Result<String, Failure<'static>>
    ensures file { IfOk result (λ diagram. file_at (string_bytes diagram) ≡ export_destination
        (option_map string_bytes made.now.export_path) made.now.name.text.now) }
    ensures failure { IfErr result (FailsAt (export_destination
        (option_map string_bytes made.now.export_path) made.now.name.text.now)) }
    ensures known { IfErr result IsNoMisuse }
{
    match &made.export_path {
        Some(path) => diagram_path(alloc, path.as_str(), made.name.text),
        None => Err(refused_export(alloc, ExportRefusal::NoPath)),
    }
}

/// Returns the state diagram of a graph, after testing that no two consecutive states are
/// equivalent.
fn tested_diagram(alloc: Global, graph: &Graph<'_>) -> Result<String, Failure<'static>>
    ensures diagram { IfOk result (λ text. string_bytes text ≡ mermaid_of graph.now.states) }
    ensures failed { IfErr result (λ failure. status_of failure ≡ 3) }
    ensures known { IfErr result IsNoMisuse }
{
    test_neighbours(alloc, graph)?;
    Ok(graph.get_mermaid(alloc)?)
}

/// Tests that no two consecutive states of a graph are equivalent, and returns `Refused` otherwise.
fn test_neighbours(alloc: Global, graph: &Graph<'_>) -> Result<(), Failure<'static>>
    ensures failed { IfErr result (λ failure. status_of failure ≡ 3) }
{
    let mut before: Option<State> = None;
    for state in graph.iter_states() {
        if let Some(last) = before {
            test_pair(alloc, graph, last, state)?;
        }
        before = Some(state);
    }
    Ok(())
}

/// Tests that a text distinguishes the states `s` and `t` of a graph, and returns `Refused`
/// otherwise. Tests nothing if the states are the same or the graph does not have them.
fn test_pair(alloc: Global, graph: &Graph<'_>, s: State, t: State) -> Result<(), Failure<'static>>
    ensures { IfErr result (λ failure. status_of failure ≡ 3) }
{
    let is_pair = graph.contains(s) & graph.contains(t);
    if !is_pair || s.index() == t.index() {
        return Ok(());
    }
    let difference = graph.telling(alloc, s, t)?;
    if graph.checks(s, t, difference.bytes.as_slice(), difference.at_end) {
        Ok(())
    } else {
        Err(alike(alloc, s.index(), t.index()))
    }
}

/// Returns the refusal of a graph in which the states with the indices `s` and `t` find the same
/// matches, or `Memory` if memory runs out. Graphs never have such states.
fn alike(alloc: Global, s: usize, t: usize) -> Failure<'static> {
    match format!(in alloc; "states {s} and {t} are alike\n") {
        Ok(text) => Failure::Refused(text),
        Err(_) => Failure::Memory,
    }
}
