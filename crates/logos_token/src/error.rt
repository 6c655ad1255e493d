//! The faults found in a source, and the list `Errors`, which collects them. Every crate that reads
//! a source adds its faults to an `Errors`.

mod detail;
mod fault_code;
mod rendering;

use crate::token::Span;
pub use detail::{ByteOrigin, Detail, PatternDetail, PatternFront, PatternKind};
pub use fault_code::FaultCode;
use std::alloc::{AllocError, AllocFailed, Global};
use std::error::Error;
use std::fmt;
use std::marker::Model;

/// The error of a function that ran out of memory.
#[derive(Clone, Copy, Debug, PartialEq, Eq)]
pub struct Memory;

impl From<AllocError> for Memory {
    fn from(_error: AllocError) -> Memory {
        Memory
    }
}

impl<T: Drop> From<AllocFailed<T>> for Memory {
    fn from(_error: AllocFailed<T>) -> Memory {
        Memory
    }
}

impl fmt::Display for Memory {
    fn fmt<W: fmt::Write>(&self, f: &mut fmt::Formatter<W>) -> fmt::Result {
        f.write_str("out of memory")
    }
}

impl Error for Memory {}

/// A fault in a source, with its code, its message and its spans.
#[derive(Debug, Drop)]
pub struct SpannedError {
    pub code: FaultCode,
    pub message: String,
    pub span: Span,
    /// The second span of a fault about two spans, or `None` if the fault is about one span.
    pub also: Option<Span>,
    /// The typed data of the fault, or `Plain` if there is none.
    pub detail: Detail,
}

/// The list of the faults found so far, in the order in which they were found.
#[derive(Debug, Drop)]
pub struct Errors {
    collected: Vec<SpannedError>,
    alloc: Global,
}

impl Model for Errors {
    ghost use Rattle.std.specs.Prelude.{List};
    ghost use Rattle.logos_token.specs.ViewImports.{Fault};

    ghost Value = { List Fault };

    ghost use Rattle.logos_token.specs.ViewImports.{faults_of};

    ghost view = { λ errors. faults_of errors.collected.items };
}

impl Errors {
    ghost use Rattle.std.specs.Prelude.{◌≡◌, ◌++◌, ◌∷◌, [], OnOk, OnErr, Some, None};
    ghost use Rattle.logos_token.specs.ViewImports.{faults_of};

    /// Returns an empty list of faults that takes its memory from `alloc`.
    pub fn new(alloc: Global) -> Errors
        ensures { result ≡ [] }
    {
        Errors {
            collected: Vec::new(alloc),
            alloc,
        }
    }

    /// Appends a fault to the list. The fault has the span `span`, no second span and no detail.
    ///
    /// # Errors
    ///
    /// Returns `Memory` if memory runs out. The list of faults is then unchanged.
    pub fn err(&mut self, code: FaultCode, message: &str, span: Span) -> Result<(), Memory>
        ensures ok { OnOk result (self.new ≡ self.old ++ (record {
          code = code;
          message = message.now;
          span = span;
          also = None;
          detail = Detail.Plain;
        }) ∷ []) }
        ensures err { OnErr result (self.new ≡ self.old) }
    {
        self.add(code, message, span, None, Detail::Plain)
    }

    /// Appends a fault to the list. The fault has the span `span`, no second span and the detail
    /// `detail`.
    ///
    /// # Errors
    ///
    /// Returns `Memory` if memory runs out. The list of faults is then unchanged.
    pub fn err_with(
        &mut self,
        code: FaultCode,
        message: &str,
        span: Span,
        detail: Detail,
    ) -> Result<(), Memory>
        ensures ok { OnOk result (self.new ≡ self.old ++ (record {
          code = code;
          message = message.now;
          span = span;
          also = None;
          detail = detail;
        }) ∷ []) }
        ensures err { OnErr result (self.new ≡ self.old) }
    {
        self.add(code, message, span, None, detail)
    }

    /// Appends a fault to the list. The fault has the spans `span` and `also` and no detail.
    ///
    /// # Errors
    ///
    /// Returns `Memory` if memory runs out. The list of faults is then unchanged.
    pub fn err_also(
        &mut self,
        code: FaultCode,
        message: &str,
        span: Span,
        also: Span,
    ) -> Result<(), Memory>
        ensures ok { OnOk result (self.new ≡ self.old ++ (record {
          code = code;
          message = message.now;
          span = span;
          also = Some also;
          detail = Detail.Plain;
        }) ∷ []) }
        ensures err { OnErr result (self.new ≡ self.old) }
    {
        self.add(code, message, span, Some(also), Detail::Plain)
    }

    /// Appends the faults of `more` to the list, in the order in which `more` contains them.
    ///
    /// # Errors
    ///
    /// Returns `Memory` if memory runs out. The list is then unchanged, and `more` is lost.
    pub fn append(&mut self, mut more: Errors) -> Result<(), Memory>
        ensures ok { OnOk result (self.new ≡ self.old ++ more) }
        ensures err { OnErr result (self.new ≡ self.old) }
    {
        self.collected.append(&mut more.collected)?;
        Ok(())
    }

    /// Returns the allocator from which the list takes its memory.
    pub fn alloc(&self) -> Global {
        self.alloc
    }

    /// Returns the faults in the order in which they were found.
    pub fn list(&self) -> &[SpannedError]
        ensures { faults_of result.now ≡ self.now }
    {
        &self.collected
    }

    /// Appends a fault to the list. If memory runs out, the list is unchanged.
    fn add(
        &mut self,
        code: FaultCode,
        message: &str,
        span: Span,
        also: Option<Span>,
        detail: Detail,
    ) -> Result<(), Memory>
        ensures ok { OnOk result (self.new ≡ self.old ++ (record {
          code = code;
          message = message.now;
          span = span;
          also = also;
          detail = detail;
        }) ∷ []) }
        ensures err { OnErr result (self.new ≡ self.old) }
    {
        let message = String::from_str(self.alloc, message)?;
        self.collected.push(SpannedError {
            code,
            message,
            span,
            also,
            detail,
        })?;
        Ok(())
    }
}
