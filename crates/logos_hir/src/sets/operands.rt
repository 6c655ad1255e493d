//! Combines the operands of a bracket according to the operators between the operands. The reader
//! of brackets adds each operand to an `OperandRuns`.

ghost use Rattle.std.specs.Prelude.{◌≡◌, false, IfOk, OnOk};
ghost use Rattle.logos_hir.specs.Views.{Set, set_of, combination, selection, effects_on, with_operand, Makes, made_by};

use crate::sets::RangeSet;
use std::alloc::{AllocError, Global};

/// The operator between two operands of a bracket.
#[derive(Clone, Copy)]
pub enum SetOperator {
    /// `&&`: the members of both operands.
    Intersection,
    /// `--`: the members of the left operand that are not in the right operand.
    Difference,
    /// `~~`: the members of exactly one of the operands.
    SymmetricDifference,
}

/// Returns the result of the operator `op` with the left operand `a` and the right operand `b`.
///
/// # Errors
///
/// Returns `AllocError` if memory runs out.
pub fn combination(op: SetOperator, a: &RangeSet, b: &RangeSet) -> Result<RangeSet, AllocError>
    ensures { IfOk result (λ set. set_of set ≡ combination op (set_of a.now) (set_of b.now)) }
{
    match op {
        SetOperator::Intersection => a.intersection(b),
        SetOperator::Difference => a.difference(b),
        SetOperator::SymmetricDifference => a.symmetric_difference(b),
    }
}

/// The effect of operands on a set. The effect turns a set into another set, which contains the
/// members of the first set that are in `inside`, and the characters outside the first set that are
/// in `outside`.
#[derive(Drop)]
pub struct Effect {
    outside: RangeSet,
    inside: RangeSet,
}

/// Returns the empty set.
fn nothing(alloc: Global) -> Result<RangeSet, AllocError>
    ensures { IfOk result (λ set. set_of set ≡ (λ c. false)) }
{
    RangeSet::from_ranges(alloc, &[])
}

/// Returns a copy of a set.
fn copy(alloc: Global, set: &RangeSet) -> Result<RangeSet, AllocError>
    ensures { IfOk result (λ out. set_of out ≡ set_of set.now) }
{
    RangeSet::from_ranges(alloc, set.ranges())
}

/// Returns the members of `inside` that are in `test`, and the members of `outside` that are not in
/// `test`.
fn selection(test: &RangeSet, inside: &RangeSet, outside: &RangeSet) -> Result<RangeSet, AllocError>
    ensures { IfOk result (λ set. set_of set ≡ selection (set_of test.now) (set_of inside.now)
        (set_of outside.now)) }
{
    test.intersection(inside)?.union(&outside.difference(test)?)
}

impl Effect {
    /// Returns the effect of the operand `set` after the operator `op`.
    fn after_operator(alloc: Global, op: SetOperator, set: &RangeSet) -> Result<Effect, AllocError>
        ensures { IfOk result (λ effect. Makes effect
            (λ before. combination op before (set_of set.now))) }
    {
        match op {
            SetOperator::Intersection => Ok(Effect {
                outside: nothing(alloc)?,
                inside: copy(alloc, set)?,
            }),
            SetOperator::Difference => Ok(Effect {
                outside: nothing(alloc)?,
                inside: set.complement(char::MAX)?,
            }),
            SetOperator::SymmetricDifference => Ok(Effect {
                outside: copy(alloc, set)?,
                inside: set.complement(char::MAX)?,
            }),
        }
    }

    /// Returns the effect of the operand `set` after the operator `operator`. If `operator` is
    /// `None`, the effect replaces each set with `set`.
    fn of(
        alloc: Global,
        operator: Option<SetOperator>,
        set: &RangeSet,
    ) -> Result<Effect, AllocError>
        ensures { IfOk result (λ effect. Makes effect
            (λ before. with_operand operator before (set_of set.now))) }
    {
        match operator {
            None => Ok(Effect {
                outside: copy(alloc, set)?,
                inside: copy(alloc, set)?,
            }),
            Some(op) => Effect::after_operator(alloc, op, set),
        }
    }

    /// Returns the effect of the operands of `self` followed by the operands of `other`.
    fn then(&self, other: &Effect) -> Result<Effect, AllocError>
        ensures outside { IfOk result (λ effect. set_of effect.outside ≡
            selection (set_of self.now.outside) (set_of other.now.inside)
            (set_of other.now.outside)) }
        ensures inside { IfOk result (λ effect. set_of effect.inside ≡
            selection (set_of self.now.inside) (set_of other.now.inside)
            (set_of other.now.outside)) }
    {
        Ok(Effect {
            outside: selection(&self.outside, &other.inside, &other.outside)?,
            inside: selection(&self.inside, &other.inside, &other.outside)?,
        })
    }
}

/// Appends the effect of an operand to the effects of `count` operands. For each binary digit 1 at
/// the end of `count`, first combines the last effect with the new effect, as a binary counter
/// carries.
fn push_effect(effects: &mut Vec<Effect>, count: usize, effect: Effect) -> Result<(), AllocError>
    ensures { (before : Set) → OnOk result (effects_on effects.new.items before ≡
        selection (effects_on effects.old.items before) (set_of effect.inside)
        (set_of effect.outside)) }
{
    if count % 2 == 0 {
        return Ok(effects.push(effect)?);
    }
    match effects.pop() {
        Some(last) => push_effect(effects, count / 2, last.then(&effect)?),
        None => Ok(effects.push(effect)?),
    }
}

/// The operands of a bracket that have been added. Operands are combined on arrival, so that the
/// number of stored effects, and the number of times that each range is processed, are logarithmic
/// in the number of operands.
#[derive(Drop)]
pub struct OperandRuns {
    /// One effect for each binary digit 1 of the number of operands. The value of the digit is the
    /// number of operands in the effect.
    effects: Vec<Effect>,
    count: usize,
}

impl OperandRuns {
    /// Returns an `OperandRuns` without operands.
    pub fn new(alloc: Global) -> OperandRuns
        ensures { made_by result ≡ (λ c. false) }
    {
        OperandRuns {
            effects: Vec::new(alloc),
            count: 0,
        }
    }

    /// Adds an operand and the operator before it. The first operand has no operator.
    ///
    /// # Errors
    ///
    /// Returns `AllocError` if memory runs out. In this case, operands that were added earlier may
    /// be lost.
    pub fn push(
        &mut self,
        alloc: Global,
        operator: Option<SetOperator>,
        set: &RangeSet,
    ) -> Result<(), AllocError>
        ensures { OnOk result (made_by self.new ≡
            with_operand operator (made_by self.old) (set_of set.now)) }
    {
        let effect = Effect::of(alloc, operator, set)?;
        push_effect(&mut self.effects, self.count, effect)?;
        self.count = self.count.wrapping_add(1);
        Ok(())
    }

    /// Returns the set that results from applying the operators to the operands from left to right.
    ///
    /// # Errors
    ///
    /// Returns `AllocError` if memory runs out.
    pub fn set(&self, alloc: Global) -> Result<RangeSet, AllocError>
        ensures { IfOk result (λ set. set_of set ≡ made_by self.now) }
    {
        let mut made = nothing(alloc)?;
        for effect in &self.effects {
            made = selection(&made, &effect.inside, &effect.outside)?;
        }
        Ok(made)
    }
}
