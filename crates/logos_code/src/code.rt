//! Defines code values: the steps of a lexer in each state. `logos_generator` makes code values;
//! `logos_machine` and the printers of generated code read them.

ghost use Rattle.std.specs.Prelude.{◌≡◌, ◌*◌, ◌<◌, ◌/◌, length, option_map, option_copied, IfSome};
ghost use Rattle.logos_code.specs.Views.{passes_test, IsSound, NamesTest, entry_of, state_at, calls_back_for, skips_over, code_of, IsValid, target, IsLastMark, IsMask, IsEntry, IsFirst, IsLastEntry, IsRowStart, shape_named, mark_by};

mod byte_runs;
pub(crate) mod construction;
pub mod last_marks;
mod masks;
pub mod rows;
pub mod signs;
pub(crate) mod uses;

use last_marks::{LastMark, last_mark_at};
use logos_byte_class::byte_class::Comparisons;
use logos_hir::leaf::LeafId;
use logos_pattern::leaf::{Callback, VariantKind};
use logos_token::token::Ident;
use logos_type::TypeExpr;
use rows::{STAYS, STUCK, UNDESCRIBED, WIDTH, entry_of_step};
use signs::Sign;
use std::marker::Model;
use uses::LeafUse;

/// The mark of a state. A match of `leaf` ends at the state, or one byte before the state if `late`
/// is `true`.
#[derive(Clone, Copy, Debug, PartialEq, Eq)]
pub struct Mark {
    pub leaf: LeafId,
    pub late: bool,
}

/// A condition on a byte.
#[derive(Drop)]
pub enum Condition {
    /// The byte passes at least one of these comparisons.
    Comparisons(Vec<Comparisons>),
    /// The byte passes the test with this number.
    Test(usize),
}

/// The transitions of a state on bytes.
#[derive(Drop)]
pub enum Fork {
    /// Conditions with their targets. A byte leads to the target of the first condition that holds
    /// for the byte, or nowhere if no condition holds.
    Conditions(Vec<(Condition, usize)>),
    /// The number of a jump table. A byte leads to the state in the table's entry for the byte, or
    /// nowhere if the entry is `NOWHERE`.
    Table(usize),
}

/// The entry of a jump table for a byte that leads nowhere.
pub const NOWHERE: u32 = u32::MAX;

/// The steps of a state: first the fast loop, then the mark, and then the fork. At the end of the
/// input, the step to `at_end` replaces the fork. States are identified by their numbers.
#[derive(Drop)]
pub struct CodeState {
    /// The number of the test of the fast loop, or `None` if the state has no fast loop. A byte
    /// that passes the test does not change the state.
    pub fast_loop: Option<usize>,
    pub mark: Option<Mark>,
    pub fork: Fork,
    /// The state to which the end of the input leads, or `None` if the end leads nowhere.
    pub at_end: Option<usize>,
}

/// The use of a leaf's matches: their kind and their callback.
#[derive(Drop)]
pub struct CodeLeaf<'s> {
    pub kind: VariantKind<'s>,
    /// The callback for matches, or `None` if the leaf has no callback.
    pub callback: Option<Callback<'s>>,
}

/// The shape of generated code, as an option of a generator.
#[derive(Clone, Copy, Debug, PartialEq, Eq)]
pub struct Config {
    /// Whether the generated code is one loop over a state variable, instead of a function for each
    /// state. Both shapes return the same items.
    pub use_state_machine_codegen: bool,
}

impl Config {
    /// The shape with one loop over a state variable.
    pub const STATE_MACHINE: Config = Config {
        use_state_machine_codegen: true,
    };

    /// The shape with a function for each state.
    pub const TAILCALL: Config = Config {
        use_state_machine_codegen: false,
    };

    /// Returns the shape that is called `name`. Returns `None` if `name` is neither `state_machine`
    /// nor `tailcall`.
    pub fn by_name(name: &str) -> Option<Config>
        ensures { result ≡ shape_named name.now }
    {
        if name == "state_machine" {
            return Some(Config::STATE_MACHINE);
        }
        if name == "tailcall" {
            return Some(Config::TAILCALL);
        }
        None
    }
}

/// The header of a code: copies of the arguments of the generator other than the graph.
#[derive(Drop)]
pub struct Header<'s> {
    /// The shape of the generated code.
    pub shape: Config,
    /// The name of the enum.
    pub name: Ident<'s>,
    /// The type of the enum: the enum's name with its generic arguments.
    pub this: TypeExpr<'s>,
    /// The callback for errors, or `None` if there is none.
    pub error_callback: Option<Callback<'s>>,
}

/// The parts of a code value: its header, its states, the tables that the states use, and its
/// leaves.
#[derive(Drop)]
pub struct CodeParts<'s> {
    pub header: Header<'s>,
    pub states: Vec<CodeState>,
    /// The bit tables. Test `k` is bit `k % 8` of each entry of table `k / 8`.
    pub bit_tables: Vec<[u8; 256]>,
    /// The jump tables. The entry for a byte is the number of the state to which the byte leads, or
    /// `NOWHERE`.
    pub jump_tables: Vec<[u32; 256]>,
    /// The use of each leaf's matches, in the order of the numbers of the leaves.
    pub leaves: Vec<CodeLeaf<'s>>,
    /// The number of the state in which each match attempt begins.
    pub root: usize,
    /// Whether errors end between characters and the input must be UTF-8.
    pub utf8: bool,
}

/// The code of a lexer. `Generator::generate` makes codes.
///
/// All states, tables, tests and leaves to which a code refers exist, and no two jump tables of a
/// code are equal.
#[derive(Drop)]
pub struct Code<'s> {
    parts: CodeParts<'s>,
    /// The entry of each byte as the first byte of a match attempt.
    first: [u32; 256],
    /// The entries of all bytes in all states. They let a lexer process a byte with one load. The
    /// module `rows` describes the layout.
    rows: Vec<u32>,
    /// The mask of each test. With a mask, a lexer tests sixteen bytes at once.
    masks: Vec<[u8; 32]>,
    /// The mark of each state, as a sign.
    signs: Vec<Sign>,
    /// For each state, the last mark that an attempt has passed when the attempt ends in the state.
    /// The list is empty if the last marks are unknown.
    last_marks: Vec<LastMark>,
    /// The use of each leaf's matches, in the order of the numbers of the leaves.
    uses: Vec<LeafUse>,
}

impl<'s> Model for Code<'s> {
    ghost use Rattle.std.specs.Prelude.{[]};
    ghost use Rattle.logos_code.specs.Views.{codes, named, CodeValue};
    ghost use Rattle.logos_type.specs.contracts.type_expr.TypePart as p;

    ghost Value = { CodeValue };

    ghost coded = { Prim.hlevel (codes, (p.the_row (record { mir = named 1; lft = [] })).coded) };

    ghost use Rattle.logos_code.specs.Views.{code_of, IsWhole};

    ghost view = { λ code. code_of code.parts };

    ghost invariant = { λ code. IsWhole code.parts code.first code.rows.items code.masks.items
        code.signs.items code.last_marks.items code.uses.items };
}

impl<'s> Code<'s> {
    /// Returns the shape of the generated code.
    pub fn shape(&self) -> Config
        ensures { result ≡ self.now.header.shape }
    {
        self.parts.header.shape
    }

    /// Returns the name of the enum.
    pub fn name(&self) -> Ident<'s>
        ensures { result ≡ self.now.header.name }
    {
        self.parts.header.name
    }

    /// Returns the type of the enum: the enum's name with its generic arguments.
    pub fn this(&self) -> &TypeExpr<'s>
        ensures { result.now ≡ self.now.header.this }
    {
        &self.parts.header.this
    }

    /// Returns the parts of the code. All states, tables, tests and leaves to which the parts refer
    /// exist, and no two jump tables are equal.
    pub fn parts(&self) -> &CodeParts<'s>
        ensures is { code_of result.now ≡ self.now }
        ensures valid { IsValid result.now }
    {
        &self.parts
    }

    /// Returns the callback for errors, or `None` if there is none.
    pub fn error_callback(&self) -> Option<&Callback<'s>>
        ensures { option_copied result ≡ self.now.header.error_callback }
    {
        self.parts.header.error_callback.as_ref()
    }

    /// Returns the use of each leaf's matches, in the order of the numbers of the leaves.
    pub fn leaves(&self) -> &[CodeLeaf<'s>]
        ensures { result.now ≡ self.now.code_leaves }
    {
        self.parts.leaves.as_slice()
    }
}

impl Code<'_> {
    /// Returns the number of the state in which each match attempt begins.
    pub fn root(&self) -> usize
        ensures root { result ≡ self.now.root }
        ensures sound { IsSound self.now }
    {
        self.parts.root
    }

    /// Returns whether errors end between characters and the input must be UTF-8.
    pub fn is_utf8(&self) -> bool
        ensures { result ≡ self.now.utf8 }
    {
        self.parts.utf8
    }

    /// Returns the entry of `byte` as the first byte of an attempt. This is the entry in the row of
    /// the root, or `UNDESCRIBED` if that entry is of the kind `STAYS`, `LEAVES` or `HALTS`.
    #[inline(always)]
    pub fn first_entry(&self, byte: u8) -> u32
        ensures first { IsFirst self.now byte result }
        ensures sound { IsSound self.now }
    {
        // Reading a field brings the invariant of the type into the proof.
        let _ = &self.parts;
        self.first[byte as usize]
    }

    /// Returns the entry of `byte` in the state with the row offset `row_start`. The row offset is
    /// `WIDTH` times the number of the state.
    #[inline(always)]
    pub fn entry(&self, row_start: usize, byte: u8) -> u32
        requires { IsRowStart self.now row_start }
        ensures { IsEntry self.now (state_at self.now (row_start / WIDTH)) byte result }
    {
        // In this order the row offset, which comes from the entry before, need not be added before
        // the load.
        let column = &self.rows[byte as usize..];
        column[row_start]
    }

    /// Returns whether `byte` passes the test with the number `test`.
    pub fn passes_test(&self, test: usize, byte: u8) -> bool
        requires { NamesTest self.now test }
        ensures { result ≡ passes_test self.now.bit_tables test byte }
    {
        self.parts.passes_test(test, byte)
    }

    /// Returns the mask of the test with the number `test`. For each byte `b`, bit `b / 16 % 8` of
    /// entry `16 * (b / 128) + b % 16` is set if `b` passes the test.
    #[inline(always)]
    pub fn mask(&self, test: usize) -> &[u8; 32]
        requires { NamesTest self.now test }
        ensures { IsMask (passes_test self.now.bit_tables test) result.now }
    {
        &self.masks[test]
    }

    /// Returns the state to which the fork of `state` leads on `byte`, or `None` if the byte leads
    /// nowhere.
    pub fn target(&self, state: usize, byte: u8) -> Option<usize>
        requires { state < length self.now.states }
        ensures { result ≡ target self.now (state_at self.now state).fork byte }
    {
        let entry = self.rows[WIDTH * state + byte as usize];
        if entry < STAYS {
            return Some(entry as usize / WIDTH);
        }
        if entry >= STUCK && entry < UNDESCRIBED {
            return None;
        }
        self.parts.target(&self.parts.states[state].fork, byte)
    }

    /// Returns the entry of the end of the input in the state with the row offset `row_start`.
    #[cold]
    #[inline(never)]
    pub fn last_entry(&self, row_start: usize) -> u32
        requires { IsRowStart self.now row_start }
        ensures { IsLastEntry self.now (state_at self.now (row_start / WIDTH)) result }
    {
        let state = &self.parts.states[row_start / WIDTH];
        if state.at_end.is_some() {
            return UNDESCRIBED;
        }
        entry_of_step(self.parts.halting_step(state.mark))
    }

    /// Returns the number of the test of the fast loop of `state`, or `None` if the state has no
    /// fast loop.
    pub fn fast_loop(&self, state: usize) -> Option<usize>
        requires { state < length self.now.states }
        ensures is { result ≡ (state_at self.now state).fast_loop }
        ensures there { IfSome result (NamesTest self.now) }
    {
        self.parts.states[state].fast_loop
    }

    /// Returns the mark of `state`, as a sign.
    #[inline(always)]
    pub fn sign(&self, state: usize) -> Sign
        requires { state < length self.now.states }
        ensures { mark_by result ≡ (state_at self.now state).mark }
    {
        self.signs[state]
    }

    /// Returns the last mark that an attempt has passed when the attempt ends in the state with the
    /// row offset `row_start`. With the result, a lexer need not make a second pass over the
    /// attempt. The result may be `Unseen` or `Varies` for any state.
    #[cold]
    #[inline(never)]
    pub fn last_mark(&self, row_start: usize) -> LastMark
        ensures { IsLastMark self.now (row_start / WIDTH) result }
    {
        last_mark_at(&self.last_marks, row_start / WIDTH)
    }

    /// Returns the row offset of the state in which each match attempt begins.
    #[inline(always)]
    pub fn root_row_start(&self) -> usize
        ensures row_start { result ≡ WIDTH * self.now.root }
        ensures state { result / WIDTH ≡ self.now.root }
    {
        WIDTH * self.parts.root
    }

    /// Returns the state to which the end of the input leads from `state`, or `None` if the end
    /// leads nowhere.
    #[inline(always)]
    pub fn at_end(&self, state: usize) -> Option<usize>
        requires { state < length self.now.states }
        ensures { result ≡ (state_at self.now state).at_end }
    {
        self.parts.states[state].at_end
    }

    /// Returns whether the leaf has a callback.
    #[inline(always)]
    pub fn calls_back(&self, leaf: LeafId) -> bool
        requires { leaf.0 < length self.now.leaves }
        ensures { result ≡ calls_back_for self.now leaf.0 }
    {
        self.uses[leaf.0].calls_back
    }

    /// Returns whether the leaf is a skip, that is, whether its matches are not tokens.
    #[inline(always)]
    pub fn skips(&self, leaf: LeafId) -> bool
        requires { leaf.0 < length self.now.leaves }
        ensures { result ≡ skips_over self.now leaf.0 }
    {
        self.uses[leaf.0].skips
    }
}

/// Returns the state in an entry of a jump table, or `None` if the entry is `NOWHERE`.
fn target_of(entry: u32) -> Option<usize>
    ensures { result ≡ entry_of entry }
{
    if entry == NOWHERE {
        None
    } else {
        Some(entry as usize)
    }
}
