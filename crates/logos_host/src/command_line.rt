//! Reads the arguments with which a program is called. Used by `logos_program` for each program.

ghost use Rattle.std.specs.Prelude.{◌≡◌, ◌↔◌, ◌⊎◌, IfErr};
ghost use Rattle.logos_host.specs.Views.{status_of};

use crate::failure::Failure;
use std::alloc::AllocError;
use std::io::ErrorKind;
use std::rt::Env;
use std::{env, io};

/// Returns the arguments after the program's name.
///
/// # Errors
///
/// Returns `Memory` if memory runs out, and `Misuse` if an argument is not UTF-8.
pub fn arguments<R: Env + AllocGlobal>(rt: &R) -> Result<Vec<String>, Failure<'static>>
    ensures { IfErr result (λ failure. (status_of failure ≡ 2) ⊎ (status_of failure ≡ 3)) }
{
    match arguments_of(rt) {
        Ok(arguments) => Ok(arguments),
        Err(error) => Err(unreadable(error.kind())),
    }
}

/// Returns the arguments after the program's name.
fn arguments_of<R: Env + AllocGlobal>(rt: &R) -> io::Result<Vec<String>> {
    let mut arguments = Vec::new(rt.alloc());
    for argument in env::args(rt)?.skip(1) {
        if arguments.push(argument).is_err() {
            return Err(io::Error::from(AllocError));
        }
    }
    Ok(arguments)
}

/// Returns the failure for arguments that cannot be read. `why` is the kind of the error.
fn unreadable(why: ErrorKind) -> Failure<'static>
    ensures memory { (status_of result ≡ 3) ↔ (why ≡ ErrorKind.OutOfMemory) }
    ensures known { (status_of result ≡ 2) ⊎ (status_of result ≡ 3) }
{
    match why {
        ErrorKind::OutOfMemory => Failure::Memory,
        _ => Failure::Misuse {
            what: "a word is not UTF-8",
            word: "",
        },
    }
}
