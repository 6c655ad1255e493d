//! Functions that render faults as Rust text. The compiler reports the faults when it compiles the
//! text. `logos_codegen` prints this text instead of a lexer if a source has faults.

ghost use Rattle.std.specs.Prelude.{◌≡◌, ◌++◌, OnOk, string_bytes, IfOk, option_map};
ghost use Rattle.logos_token.specs.ViewImports.{flat_map, faults_of, fault_of, rendered_fault, rendered};

use crate::error::{Errors, Memory, SpannedError};
use crate::util::push_escaped;

/// Appends a `compile_error!` with the message of the fault to `text`.
fn push_fault(text: &mut String, fault: &SpannedError) -> Result<(), Memory>
    ensures { OnOk result
        (string_bytes text.new ≡ string_bytes text.old ++ rendered_fault (fault_of fault.now)) }
{
    text.push_str("{ compile_error ! ( \"")?;
    push_escaped(text, fault.message.as_str())?;
    text.push_str("\" ) } ")?;
    Ok(())
}

/// Appends a `compile_error!` with the message of each fault to `text`, in the order of the faults.
fn push_faults(text: &mut String, faults: &[SpannedError]) -> Result<(), Memory>
    ensures { OnOk result
        (string_bytes text.new ≡
        string_bytes text.old ++ flat_map rendered_fault (faults_of faults.now)) }
{
    for fault in faults {
        push_fault(text, fault)?;
    }
    Ok(())
}

impl Errors {
    /// Returns the text of a function that does not compile, and of an `unimplemented!()` after the
    /// function. The compile errors of the function are the messages of the faults. Returns `None`
    /// if the list is empty.
    ///
    /// # Errors
    ///
    /// Returns `Memory` if memory runs out.
    pub fn render(&self) -> Result<Option<String>, Memory>
        ensures { IfOk result (λ text. option_map string_bytes text ≡ rendered self.now) }
    {
        let faults = self.list();
        if faults.is_empty() {
            return Ok(None);
        }
        let mut text = String::from_str(self.alloc, "fn _logos_derive_compile_errors ( ) { ")?;
        push_faults(&mut text, faults)?;
        text.push_str("} unimplemented ! ( )")?;
        Ok(Some(text))
    }
}
