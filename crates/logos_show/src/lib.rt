//! Runs `logos_show`, a program that shows the lexers of a Rust file and lexes other files with
//! these lexers.

#![tactic(auto)]

ghost use Rattle.std.specs.Prelude.{◌≡◌, ◌≤◌, ◌↔◌, ◌⊎◌, None, IfErr, IfOk, map, string_bytes};
ghost use Rattle.logos_show.specs.Views.{requested, status_of};

mod candidates;
mod choice;
mod comparison;
mod diagrams;
mod inputs;
mod items;
mod lexers;
mod matches;
mod page_files;
mod pages;
mod program;
mod refusals;
mod stream;

use logos_host::{Disk, Failure};
use logos_screen::{CountedOutput, MessageOutput, ProgressLine};
use program::run_with;

/// Runs `logos_show` and returns the exit status. `arguments` contains the arguments of the
/// process, or the failure to read the arguments.
pub fn run_logos_show(rt: &HostRuntime, arguments: Result<Vec<String>, Failure<'static>>) -> u8
    requires { IfErr arguments (λ failure. (status_of failure ≡ 2) ⊎ (status_of failure ≡ 3)) }
    ensures usage { IfOk arguments.entry (λ passed.
        (result ≡ 2) ↔ (requested (map string_bytes passed.items) ≡ None)) }
    ensures unread { IfErr arguments.entry (λ failure. result ≡ status_of failure) }
    ensures known { result ≤ 3 }
{
    let line = ProgressLine::new();
    let status = run_with(
        rt.alloc(),
        arguments,
        &mut Disk { rt },
        rt,
        &mut MessageOutput::new(&line, rt.stderr(), rt.stderr()),
        &mut CountedOutput::new(rt, &line, rt.stdout(), rt.stderr()),
    );
    line.clear(&mut rt.stderr());
    status
}
