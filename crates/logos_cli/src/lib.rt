//! The program `logos_cli`, which expands each `#[derive(Logos)]` in Rust files.

#![tactic(auto)]

ghost use Rattle.std.specs.Prelude.{◌≡◌, ◌≤◌, ◌⊎◌, None, IfErr, IfOk, map, string_bytes};
ghost use Rattle.logos_cli.specs.Views.{requested, status_of};

mod batch;
mod difference;
mod options;
mod program;

use logos_host::{Failure, SourceDisk};
use logos_screen::ColorOutput;
use program::run_with;

/// Runs `logos_cli`, and returns its exit status. `arguments` contains the arguments of the
/// process, or the failure to read them.
pub fn run_logos_cli(rt: &HostRuntime, arguments: Result<Vec<String>, Failure<'static>>) -> u8
    requires { IfErr arguments (λ failure. (status_of failure ≡ 2) ⊎ (status_of failure ≡ 3)) }
    ensures usage { IfOk arguments.entry (λ passed.
        requested (map string_bytes passed.items) ≡ None → result ≡ 2) }
    ensures unread { IfErr arguments.entry (λ failure. result ≡ status_of failure) }
    ensures known { result ≤ 3 }
{
    run_with(
        rt.alloc(),
        arguments,
        &mut SourceDisk { rt },
        &mut rt.stdout(),
        &mut ColorOutput::new(rt, rt.stderr()),
    )
}
