//! Defines the flags of the argument `ignore(..)`. Part of the public interface.

/// The flags that determine how the pattern of a definition is matched.
#[derive(Clone, Copy, PartialEq, Eq)]
pub struct IgnoreFlags {
    /// Whether letters match in either case. Set by the flag `case`.
    pub ignore_case: bool,
}
