//! Functions that select the program by the name under which the executable was invoked. `main`
//! calls `requested_by_name`.

ghost use Rattle.std.specs.Prelude.{◌≡◌, ◌≢◌, ◌<◌, ◌≤◌, ◌-◌, ℕ, List, MatchBool, length, slice_index};
ghost use Rattle.logos_program.specs.Called.{IsLastName, IsNameStart, program_of};

use std::env::Env;

/// A program that the name of the executable can select.
#[derive(Clone, Copy)]
pub(crate) enum Called {
    /// The program `logos`.
    Logos,
    /// The program `logos_cli`.
    LogosCli,
    /// The program `logos_show`.
    LogosShow,
}

/// The maximum length, in bytes, of a path by which a program is invoked. This is the limit of
/// Linux.
const LONGEST_PATH: usize = 4096;

/// Returns the name of the file to which `path` leads: the part of `path` after its last slash, or
/// the whole path if it has no slash.
fn name_in(path: &[u8]) -> &[u8]
    ensures { IsLastName path.now result.now }
{
    let mut from = path.len();
    while !is_name_start(path, from) {
        from -= 1;
    }
    &path[from..]
}

/// Returns whether `offset` is 0 or the byte of `path` directly before `offset` is a slash.
fn is_name_start(path: &[u8], offset: usize) -> bool
    requires { offset ≤ length path.now }
    ensures { MatchBool result (IsNameStart path.now offset)
        ((0 < offset) × (slice_index path.now (offset - 1) ≢ 47)) }
{
    if offset == 0 {
        return true;
    }
    path[offset - 1] == b'/'
}

/// Returns the program that the name of an executable selects. The names of `logos_cli` and
/// `logos_show` may have a suffix, such as `logos_cli-0.1.0`. Any other name selects `logos`.
fn requested_by(name: &[u8]) -> Called
    ensures { result ≡ program_of name.now }
{
    if name.starts_with(b"logos_cli") {
        return Called::LogosCli;
    }
    if name.starts_with(b"logos_show") {
        return Called::LogosShow;
    }
    Called::Logos
}

/// Returns the program that the path of an executable selects. Only the name of the file in `path`
/// matters.
fn requested_at(path: &[u8]) -> Called
    ensures { (name : List ℕ) × IsLastName path.now name × (result ≡ program_of name) }
{
    requested_by(name_in(path))
}

/// Returns the program for the name under which the process was invoked, or `logos` if the name
/// cannot be read. The function allocates no memory, so that the selected program makes all
/// allocations of the process.
pub(crate) fn requested_by_name<R: Env>(rt: &R) -> Called {
    let mut path = [0; LONGEST_PATH];
    match rt.arg(0, &mut path) {
        Ok(length) => requested_at(&path[..length]),
        Err(_) => Called::Logos,
    }
}
