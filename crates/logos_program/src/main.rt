//! The executable of the programs `logos`, `logos_cli` and `logos_show`. The executable acts as the
//! program under whose name it is invoked. One executable is built and checked for all three
//! programs, because the programs share most of their code.

#![tactic(auto)]

ghost use Rattle.std.specs.Prelude.{◌≡◌, ◌≤◌, ◌↔◌, ◌⊎◌, None, IfErr, IfOk, map, string_bytes};
ghost use Rattle.logos_program.specs.Endings.{IsEnding, logos_requested, status_of};

mod called;

use called::{Called, requested_by_name};
use logos_cli::run_logos_cli;
use logos_commands::run_with;
use logos_host::{Disk, Failure, arguments};
use logos_show::run_logos_show;
use std::io;
use std::process::ExitCode;

/// Runs `logos` with `arguments`, the arguments of the process, and returns the exit status. The
/// program reads an enum in a file, and prints the enum's lexer or state diagram, or lexes another
/// file with the lexer.
fn run_logos(rt: &HostRuntime, arguments: Result<Vec<String>, Failure<'static>>) -> u8
    requires { IfErr arguments (λ failure. (status_of failure ≡ 2) ⊎ (status_of failure ≡ 3)) }
    ensures usage { IfOk arguments.entry (λ passed.
        (result ≡ 2) ↔ (logos_requested (map string_bytes passed.items) ≡ None)) }
    ensures unread { IfErr arguments.entry (λ failure. result ≡ status_of failure) }
    ensures known { result ≤ 3 }
{
    run_with(
        rt.alloc(),
        arguments,
        &mut Disk { rt },
        &mut rt.stdout(),
        &mut rt.stderr(),
    )
}

/// Runs the program `called` with `arguments`, the arguments of the process, and returns the exit
/// status.
fn run_called(
    rt: &HostRuntime,
    called: Called,
    arguments: Result<Vec<String>, Failure<'static>>,
) -> u8
    requires { IfErr arguments (λ failure. (status_of failure ≡ 2) ⊎ (status_of failure ≡ 3)) }
    ensures { IsEnding called arguments.entry result }
{
    match called {
        Called::Logos => run_logos(rt, arguments),
        Called::LogosCli => run_logos_cli(rt, arguments),
        Called::LogosShow => run_logos_show(rt, arguments),
    }
}

fn main(rt: HostRuntime) -> io::Result<ExitCode> {
    let called = requested_by_name(&rt);
    let status = run_called(&rt, called, arguments(&rt));
    Ok(ExitCode::from(status))
}
