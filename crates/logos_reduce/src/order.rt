//! Contains lists of states or blocks in the order in which they are visited. `prune` stores an
//! order of states, and `number` stores an order of blocks.

ghost use Rattle.std.specs.Prelude.{true, ◌≡◌, ℕ, ◌+◌, ◌<◌, ◌++◌, ◌∷◌, ◌⊎◌, [], OnOk, IfOk, length, vec_len, slice_index};
ghost use Rattle.logos_reduce.specs.Imports.{IsOrder, IsMet, Grows};

use std::alloc::{AllocError, Global};

/// States without duplicates, in the order in which they were visited.
#[derive(Drop)]
pub struct Order {
    /// For each state, one more than its index in `states`, or 0 if the state was not visited.
    pub numbers: Vec<usize>,
    /// The visited states, in the order of their visits.
    pub states: Vec<usize>,
    ghost in_order: { IsOrder numbers.items states.items },
}

impl Order {
    /// Returns an empty order for `len` states.
    ///
    /// # Errors
    ///
    /// Returns `AllocError` if memory runs out.
    pub fn new(alloc: Global, len: usize) -> Result<Order, AllocError>
        ensures len { IfOk result (λ o. vec_len o.numbers ≡ len) }
        ensures empty { IfOk result (λ o. o.states.items ≡ []) }
        ensures none { IfOk result (λ o. (s : ℕ) → IsMet o.numbers.items s → ⊥) }
    {
        let numbers = vec![in alloc; 0; len]?;
        Ok(Order {
            numbers,
            states: Vec::new(alloc),
        })
    }

    /// Returns one more than the index of the state `s` in the order, or 0 if the state was not
    /// visited or does not exist.
    pub fn number_of(&self, s: usize) -> usize
        ensures { result ≡ slice_index self.now.numbers.items s }
    {
        if s < self.numbers.len() {
            return self.numbers[s];
        }
        0
    }

    /// Appends the state `s` to the order if the order does not contain it yet.
    ///
    /// # Errors
    ///
    /// Returns `AllocError` if memory runs out. The order is then unchanged.
    pub fn meet(&mut self, s: usize) -> Result<(), AllocError>
        requires { s < vec_len self.old.numbers }
        ensures len { vec_len self.new.numbers ≡ vec_len self.old.numbers }
        ensures grows { Grows self.old.numbers.items self.new.numbers.items }
        ensures met { OnOk result (IsMet self.new.numbers.items s) }
        ensures known { IsMet self.old.numbers.items s →
            self.new.states.items ≡ self.old.states.items }
        ensures fresh { slice_index self.old.numbers.items s ≡ 0 →
            OnOk result (self.new.states.items ≡ self.old.states.items ++ s ∷ []) }
        ensures only { (t : ℕ) → IsMet self.new.numbers.items t →
            IsMet self.old.numbers.items t ⊎ (t ≡ s) }
    {
        if self.numbers[s] == 0 {
            self.states.push(s)?;
            self.numbers[s] = self.states.len();
        }
        Ok(())
    }

    /// Appends the state `s` to the order if `wanted` is `true` and the order does not contain the
    /// state yet.
    ///
    /// # Errors
    ///
    /// Returns `AllocError` if memory runs out. The order is then unchanged.
    pub fn meet_if(&mut self, s: usize, wanted: bool) -> Result<(), AllocError>
        requires { s < vec_len self.old.numbers }
        ensures len { vec_len self.new.numbers ≡ vec_len self.old.numbers }
        ensures grows { Grows self.old.numbers.items self.new.numbers.items }
        ensures met { OnOk result (wanted ≡ true → IsMet self.new.numbers.items s) }
        ensures only { (t : ℕ) → IsMet self.new.numbers.items t →
            IsMet self.old.numbers.items t ⊎ ((t ≡ s) × (wanted ≡ true)) }
    {
        if wanted {
            self.meet(s)?;
        }
        Ok(())
    }
}
