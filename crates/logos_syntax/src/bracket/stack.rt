//! Defines the stack of open brackets. The stack computes the set of each bracket while the bracket
//! is read. The reader of brackets adds each token to the stack.

ghost use Rattle.std.specs.Prelude.{◌≡◌, ◌+◌, ◌≤◌, ◌<◌, [], IfOk, OnOk, MatchBool, vec_len, length};
ghost use Rattle.logos_syntax.specs.Imports.{pattern_nesting, pairs, members};

use crate::bracket::translation::{item_fits, lead_ranges, push_item, push_set, set_or_complement};
use logos_hir::hir::Range;
use logos_hir::sets::RangeSet;
use logos_hir::sets::operands::{OperandRuns, SetOperator, combination};
use logos_pattern_tokens::bracket::token::{BracketItem, BracketToken, Lead};
use logos_pattern_tokens::error::{Kind, Stop};
use logos_pattern_tokens::token::Flags;
use std::alloc::{AllocError, Global};
use std::mem;

/// The maximum number of groups, brackets and repetitions around one point.
pub(crate) const MAX_NESTING: usize = 250;

/// The opening of a bracket. `left` is the number of characters from the bracket's `[` to the end
/// of the text.
#[derive(Clone, Copy)]
pub(crate) struct BracketOpening {
    pub negated: bool,
    pub lead: Lead,
    pub left: usize,
}

/// The part of an open bracket that has been read so far.
#[derive(Drop)]
pub(crate) struct BracketFrame {
    negated: bool,
    /// The operands before the last operator that has been read.
    before: OperandRuns,
    /// The operator after the operands in `before`, or `None` if no operator has been read.
    operator: Option<SetOperator>,
    /// The ranges of the current operand.
    ranges: Vec<Range>,
    /// The depth of the bracket's innermost point in the whole pattern.
    inner: usize,
    /// The number of characters from the bracket's `[` to the end of the text.
    left: usize,
    ghost shallow: { inner ≤ pattern_nesting },
}

/// The open brackets, with the innermost bracket on top.
#[derive(Drop)]
pub(crate) struct Frames {
    top: BracketFrame,
    /// The brackets around the innermost bracket, with the outermost bracket first.
    below: Vec<BracketFrame>,
    ghost shallow: { vec_len below ≤ pattern_nesting },
}

/// The set of a bracket, and the depth of its innermost point in the whole pattern.
#[derive(Drop)]
pub(crate) struct BracketValue {
    pub set: RangeSet,
    pub depth: usize,
}

impl BracketFrame {
    ghost use Rattle.logos_syntax.specs.Views.{pattern_nesting, set_of, fresh_frame, value, whole, frame_view};

    /// Returns a bracket of which only the opening `opening` has been read. `level` is the number
    /// of groups and brackets around the inside of the bracket.
    fn new(alloc: Global, opening: BracketOpening, level: usize) -> Result<BracketFrame, AllocError>
        requires { level ≤ pattern_nesting }
        ensures { IfOk result (λ f. frame_view f ≡ fresh_frame opening.negated opening.lead level) }
    {
        Ok(BracketFrame {
            negated: opening.negated,
            before: OperandRuns::new(alloc),
            operator: None,
            ranges: lead_ranges(alloc, opening.lead)?,
            inner: level,
            left: opening.left,
        })
    }

    /// Returns the set of the operands that have been read so far. The negation of the bracket is
    /// ignored.
    fn value(&self, alloc: Global) -> Result<RangeSet, AllocError>
        ensures { IfOk result (λ set. set_of set ≡ value (frame_view self.now)) }
    {
        let here = RangeSet::from_ranges(alloc, &self.ranges)?;
        match self.operator {
            None => Ok(here),
            Some(op) => combination(op, &self.before.set(alloc)?, &here),
        }
    }

    /// Returns the set of the bracket as if the bracket ended at this point, including its
    /// negation.
    fn whole(&self, alloc: Global, flags: Flags) -> Result<RangeSet, AllocError>
        ensures { IfOk result (λ set. set_of set ≡ whole flags (frame_view self.now)) }
    {
        set_or_complement(flags, self.negated, self.value(alloc)?)
    }
}

impl Frames {
    ghost use Rattle.std.specs.Prelude.{not, ◌==◌};
    ghost use Rattle.logos_syntax.specs.Views.{pattern_nesting, set_of, fresh_frame, whole, frame_view, frames_view, BracketSteps};

    /// Returns a stack whose only bracket has the opening `opening`. `level` is the number of
    /// groups and brackets around the inside of the bracket.
    pub(crate) fn new(
        alloc: Global,
        opening: BracketOpening,
        level: usize,
    ) -> Result<Frames, AllocError>
        requires { level ≤ pattern_nesting }
        ensures { IfOk result (λ m. frames_view m ≡
            record { top = fresh_frame opening.negated opening.lead level; below = [] }) }
    {
        Ok(Frames {
            top: BracketFrame::new(alloc, opening, level)?,
            below: Vec::new(alloc),
        })
    }

    /// Returns whether the token ends the outermost bracket.
    pub(crate) fn ends_by(&self, token: BracketToken) -> bool
        ensures { MatchBool result ((token ≡ BracketToken.Close) ×
            ((frames_view self.now).below ≡ [])) (token ≡
            BracketToken.Close → (frames_view self.now).below ≡ [] → ⊥) }
    {
        match token {
            BracketToken::Close => self.below.is_empty(),
            _ => false,
        }
    }

    /// Returns the number of characters from the `[` of the innermost bracket to the end of the
    /// text.
    pub(crate) fn left(&self) -> usize {
        self.top.left
    }

    /// Returns the set and the depth of the outermost bracket. No other bracket may be open.
    pub(crate) fn finish(&self, alloc: Global, flags: Flags) -> Result<BracketValue, AllocError>
        ensures { IfOk result (λ found. (set_of found.set ≡
            whole flags (frames_view self.now).top) ×
            (found.depth ≡ (frames_view self.now).top.inner) × (found.depth ≤ pattern_nesting)) }
    {
        let set = self.top.whole(alloc, flags)?;
        Ok(BracketValue {
            set,
            depth: self.top.inner,
        })
    }

    /// Adds an element to the innermost bracket. `left` is the number of characters from the
    /// element to the end of the text, and `base` is the number of groups around the outermost
    /// bracket.
    ///
    /// # Errors
    ///
    /// Returns `NotInBytes` if the flags do not allow the element, and `Memory` if memory runs out.
    fn item(
        &mut self,
        alloc: Global,
        flags: Flags,
        base: usize,
        item: BracketItem,
        left: usize,
    ) -> Result<(), Stop>
        ensures { BracketSteps flags base (frames_view self.old) (BracketToken.Item item) result
            (frames_view self.new) }
    {
        if !item_fits(flags, item) {
            return Err(Stop::Syntax {
                kind: Kind::NotInBytes,
                left,
            });
        }
        push_item(alloc, &mut self.top.ranges, flags, item)?;
        Ok(())
    }

    /// Opens a bracket inside the innermost bracket. `base` is the number of groups around the
    /// outermost bracket.
    ///
    /// # Errors
    ///
    /// Returns `LimitPatternNesting` if the bracket is nested too deeply, and `Memory` if memory
    /// runs out.
    fn open(
        &mut self,
        alloc: Global,
        flags: Flags,
        base: usize,
        opening: BracketOpening,
    ) -> Result<(), Stop>
        requires { base ≤ pattern_nesting }
        ensures { BracketSteps flags base (frames_view self.old)
            (BracketToken.Open opening.negated opening.lead) result (frames_view self.new) }
    {
        let level = base + self.below.len() + 2;
        if level > MAX_NESTING {
            return Err(Stop::LimitPatternNesting);
        }
        let inside = BracketFrame::new(alloc, opening, level)?;
        let outside = mem::replace(&mut self.top, inside);
        self.below.push(outside)?;
        Ok(())
    }

    /// Ends the operand of the innermost bracket at the operator `op`, and begins the next operand.
    /// `base` is the number of groups around the outermost bracket.
    ///
    /// # Errors
    ///
    /// Returns `Memory` if memory runs out.
    fn operator(
        &mut self,
        alloc: Global,
        flags: Flags,
        base: usize,
        op: SetOperator,
    ) -> Result<(), Stop>
        ensures { BracketSteps flags base (frames_view self.old) (BracketToken.Operator op) result
            (frames_view self.new) }
    {
        let set = RangeSet::from_ranges(alloc, &self.top.ranges)?;
        let operator = self.top.operator;
        self.top.before.push(alloc, operator, &set)?;
        self.top.operator = Some(op);
        self.top.ranges = Vec::new(alloc);
        Ok(())
    }

    /// Closes the innermost bracket, and adds its set to the bracket around it. `left` is the
    /// number of characters from the `]` to the end of the text, and `base` is the number of groups
    /// around the outermost bracket.
    ///
    /// # Errors
    ///
    /// Returns `Unopened` if the bracket is not inside another bracket, and `Memory` if memory runs
    /// out.
    fn close(&mut self, alloc: Global, flags: Flags, base: usize, left: usize) -> Result<(), Stop>
        ensures { BracketSteps flags base (frames_view self.old) BracketToken.Close result
            (frames_view self.new) }
    {
        let Some(outside) = self.below.pop() else {
            return Err(Stop::Syntax {
                kind: Kind::Unopened,
                left,
            });
        };
        let inside = mem::replace(&mut self.top, outside);
        let set = inside.whole(alloc, flags)?;
        push_set(&mut self.top.ranges, &set)?;
        self.top.inner = self.top.inner.max(inside.inner);
        Ok(())
    }

    /// Adds the next token to the innermost bracket, or opens or closes a bracket. `left` is the
    /// number of characters from the token to the end of the text, and `base` is the number of
    /// groups around the outermost bracket.
    ///
    /// # Errors
    ///
    /// Returns:
    ///
    /// - the fault of the token if the token is not allowed after the preceding tokens;
    /// - `LimitPatternNesting` if the token is nested too deeply;
    /// - `Memory` if memory runs out.
    pub(crate) fn step(
        &mut self,
        alloc: Global,
        flags: Flags,
        base: usize,
        token: BracketToken,
        left: usize,
    ) -> Result<(), Stop>
        requires { base ≤ pattern_nesting }
        ensures { BracketSteps flags base (frames_view self.old) token result
            (frames_view self.new) }
    {
        match token {
            BracketToken::Item(item) => self.item(alloc, flags, base, item, left),
            BracketToken::Open(negated, lead) => {
                self.open(
                    alloc,
                    flags,
                    base,
                    BracketOpening {
                        negated,
                        lead,
                        left,
                    },
                )
            }
            BracketToken::Operator(op) => self.operator(alloc, flags, base, op),
            BracketToken::Close => self.close(alloc, flags, base, left),
        }
    }
}
