//! Defines the stack of open groups. The stack builds the tree of a pattern while the pattern is
//! read. The parser adds each token to the stack.

ghost use Rattle.std.specs.Prelude.{◌≤◌, ◌≡◌, ◌+◌, ◌<◌, length, map, IfOk, OnOk, Some, unwrap_or, vec_len};
ghost use Rattle.logos_syntax.specs.Imports.{pattern_nesting, tree_of, simplest_tree, flags_after, opening_view, token_view, closes, opens, repeats, sets, bracketed, atom as token_atom, Bracket, set_of, bracket_set, bracket_depth, inner_flags, captures, group_tree, is_greedy};

use crate::bracket::stack::{BracketValue, MAX_NESTING};
use crate::translation::{atom_fits, atom_tree, one_of};
use logos_hir::hir::Hir;
use logos_hir::simplifier;
use logos_pattern_tokens::error::{Kind, Stop};
use logos_pattern_tokens::token::{Atom, Change, Flags, GroupOpening, Operator, Token};
use std::alloc::{AllocError, Global};
use std::mem;

/// A part of a group: its tree, the depth of its innermost point in the whole pattern, and the
/// number of characters from its start to the end of the text.
#[derive(Drop)]
pub(crate) struct GroupPart {
    tree: Hir,
    depth: usize,
    left: usize,
    ghost shallow: { depth ≤ pattern_nesting },
}

/// The part of an open group that has been read so far.
#[derive(Drop)]
pub(crate) struct OpenedGroup {
    flags: Flags,
    /// Whether the group is a capture group.
    captured: bool,
    branches: Vec<Hir>,
    parts: Vec<Hir>,
    /// The part that an operator would repeat, or `None` if no operator is allowed next.
    last: Option<GroupPart>,
    /// The depth of the group's innermost point in the whole pattern.
    inner: usize,
    /// The number of characters from the group's opening to the end of the text.
    left: usize,
    ghost shallow: { inner ≤ pattern_nesting },
}

/// The open groups, with the innermost group on top. The outermost group is the whole pattern.
#[derive(Drop)]
pub(crate) struct Groups {
    top: OpenedGroup,
    /// The groups around the innermost group, with the outermost group first.
    below: Vec<OpenedGroup>,
    ghost shallow: { vec_len below ≤ pattern_nesting },
}

/// Returns the setting of a flag in `change`, or `flag` if `change` is `None`.
fn set_or(change: Option<bool>, flag: bool) -> bool
    ensures { result ≡ unwrap_or change flag }
{
    change.unwrap_or(flag)
}

/// Applies the flag setting `change` to `flags`, and returns the new flags.
fn flags_after(change: Change, flags: Flags) -> Flags
    ensures { result ≡ flags_after change flags }
{
    Flags {
        unicode: set_or(change.unicode, flags.unicode),
        ignore_case: set_or(change.ignore_case, flags.ignore_case),
        multi_line: set_or(change.multi_line, flags.multi_line),
        dot_all: set_or(change.dot_all, flags.dot_all),
        swap_greed: set_or(change.swap_greed, flags.swap_greed),
        crlf: set_or(change.crlf, flags.crlf),
    }
}

/// Returns the flags at the start of the inside of a group. `flags` are the flags before the group.
fn inner_flags(opening: GroupOpening<'_>, flags: Flags) -> Flags
    ensures { result ≡ inner_flags (opening_view opening.entry) flags }
{
    match opening {
        GroupOpening::Capture | GroupOpening::Named(_) => flags,
        GroupOpening::Plain(change) => flags_after(change, flags),
    }
}

/// Returns whether a group with this opening is a capture group.
fn captures(opening: GroupOpening<'_>) -> bool
    ensures { result ≡ captures (opening_view opening.entry) }
{
    match opening {
        GroupOpening::Capture | GroupOpening::Named(_) => true,
        GroupOpening::Plain(_) => false,
    }
}

/// Returns whether the operator is greedy under the flags `flags`.
fn is_greedy(flags: Flags, op: Operator) -> bool
    ensures { result ≡ is_greedy flags op }
{
    if flags.swap_greed { op.lazy } else { !op.lazy }
}

/// Returns a capture group around `tree` if `captured` is `true`, and `tree` otherwise.
fn group_tree(alloc: Global, captured: bool, tree: Hir) -> Result<Hir, AllocError>
    ensures { IfOk result (λ hir. simplest_tree hir ≡ group_tree captured (simplest_tree tree)) }
{
    if captured {
        return simplifier::captured(alloc, tree);
    }
    Ok(tree)
}

impl OpenedGroup {
    ghost use Rattle.logos_syntax.specs.Views.{pattern_nesting, Group, fresh, all_parts, put, set, next_branch, all_branches, whole_tree, repeat, part_view, group_view, Repeats};

    /// Returns a group of which only the opening has been read. `level` is the number of groups
    /// around the inside of the group, and `left` is the number of characters from the opening to
    /// the end of the text.
    fn new(alloc: Global, flags: Flags, captured: bool, level: usize, left: usize) -> OpenedGroup
        requires { level ≤ pattern_nesting }
        ensures { group_view result ≡ fresh flags captured level }
    {
        OpenedGroup {
            flags,
            captured,
            branches: Vec::new(alloc),
            parts: Vec::new(alloc),
            last: None,
            inner: level,
            left,
        }
    }

    /// Moves the part in `last`, if there is one, to `parts`. No operator can repeat the part
    /// afterwards.
    fn settle(&mut self) -> Result<(), AllocError>
        ensures { OnOk result (group_view self.new ≡ set (group_view self.old) self.old.flags) }
    {
        if let Some(part) = self.last.take() {
            self.parts.push(part.tree)?;
        }
        Ok(())
    }

    /// Adds `part` to the end of the group. An operator that follows would repeat `part`.
    fn put(&mut self, part: GroupPart) -> Result<(), AllocError>
        ensures { OnOk result (group_view self.new ≡ put (group_view self.old) (part_view part)) }
    {
        self.settle()?;
        self.inner = self.inner.max(part.depth);
        self.last = Some(part);
        Ok(())
    }

    /// Sets the flags for the rest of the group. No operator can repeat the part before the flag
    /// setting.
    fn set(&mut self, flags: Flags) -> Result<(), AllocError>
        ensures { OnOk result (group_view self.new ≡ set (group_view self.old) flags) }
    {
        self.settle()?;
        self.flags = flags;
        Ok(())
    }

    /// Ends the current branch, and begins the next branch.
    fn next_branch(&mut self) -> Result<(), AllocError>
        ensures { OnOk result (group_view self.new ≡ next_branch (group_view self.old)) }
    {
        self.settle()?;
        let empty = Vec::new(*self.parts.allocator());
        let parts = mem::replace(&mut self.parts, empty);
        self.branches.push(simplifier::row(parts))?;
        Ok(())
    }

    /// Returns the unsimplified tree of the group as if the group ended at this point.
    fn finish(mut self, alloc: Global) -> Result<Hir, AllocError>
        ensures { IfOk result (λ hir. simplest_tree hir ≡ whole_tree (group_view self)) }
    {
        self.next_branch()?;
        let captured = self.captured;
        group_tree(alloc, captured, simplifier::either(self.branches))
    }

    /// Applies the repetition operator `op` to the part that was added last. `left` is the number
    /// of characters from the operator to the end of the text.
    ///
    /// # Errors
    ///
    /// Returns:
    ///
    /// - `NothingToRepeat` if there is no last part;
    /// - `LimitPatternNesting` if the repetition is nested too deeply;
    /// - `Memory` if memory runs out.
    fn repeat(&mut self, alloc: Global, op: Operator, left: usize) -> Result<(), Stop>
        ensures { Repeats result (repeat (group_view self.old) op (group_view self.old).last)
            (group_view self.new) }
    {
        let Some(part) = self.last.take() else {
            return Err(Stop::Syntax {
                kind: Kind::NothingToRepeat,
                left,
            });
        };
        if part.depth >= MAX_NESTING {
            return Err(Stop::LimitPatternNesting);
        }
        let depth = part.depth + 1;
        let left = part.left;
        let greedy = is_greedy(self.flags, op);
        let tree = simplifier::repeated(alloc, op.least, op.most, greedy, part.tree)?;
        self.inner = self.inner.max(depth);
        self.last = Some(GroupPart { tree, depth, left });
        Ok(())
    }
}

impl Groups {
    ghost use Rattle.std.specs.Prelude.{[]};
    ghost use Rattle.logos_syntax.specs.Views.{pattern_nesting, State, start, whole_tree, step, state_view, Steps, Ends};

    /// Returns the stack at the start of a pattern of `left` characters. The flags `flags` are on
    /// at this point.
    pub(crate) fn new(alloc: Global, flags: Flags, left: usize) -> Groups
        ensures { state_view result ≡ start flags }
    {
        Groups {
            top: OpenedGroup::new(alloc, flags, false, 0, left),
            below: Vec::new(alloc),
        }
    }

    /// Returns the flags that are on at the end of the text read so far.
    pub(crate) fn flags(&self) -> Flags
        ensures { result ≡ (state_view self.now).top.flags }
    {
        self.top.flags
    }

    /// Returns the number of open groups, not counting the whole pattern.
    pub(crate) fn depth(&self) -> usize
        ensures depth { result ≡ length (state_view self.now).below }
        ensures shallow { result ≤ pattern_nesting }
    {
        self.below.len()
    }

    /// Returns the number of characters from the opening of the innermost open group to the end of
    /// the text, or the length of the text if no group is open.
    pub(crate) fn opening(&self) -> usize {
        self.top.left
    }

    /// Returns the number of characters from the start of the part that an operator would repeat to
    /// the end of the text. Returns `None` if there is no such part.
    pub(crate) fn repeated(&self) -> Option<usize> {
        match &self.top.last {
            Some(part) => Some(part.left),
            None => None,
        }
    }

    /// Adds an atom to the innermost group. `left` is the number of characters from the atom to the
    /// end of the text.
    ///
    /// # Errors
    ///
    /// Returns:
    ///
    /// - `UnicodeWordBoundary` or `NotInBytes` if the flags do not allow the atom;
    /// - `Memory` if memory runs out.
    fn atom(&mut self, alloc: Global, atom: Atom, left: usize) -> Result<(), Stop>
        ensures { Steps (state_view self.old) (token_atom atom) result (state_view self.new) }
    {
        let flags = self.top.flags;
        if !atom_fits(flags, atom) {
            return Err(Stop::Syntax {
                kind: unfit_kind(atom),
                left,
            });
        }
        let tree = atom_tree(alloc, flags, atom)?;
        let depth = self.below.len();
        self.top.put(GroupPart { tree, depth, left })?;
        Ok(())
    }

    /// Adds a bracket with the set and the depth `found` to the innermost group. `left` is the
    /// number of characters from the bracket to the end of the text.
    pub(crate) fn class(
        &mut self,
        alloc: Global,
        found: BracketValue,
        left: usize,
    ) -> Result<(), AllocError>
        requires { found.depth ≤ pattern_nesting }
        ensures { (b : Bracket) → set_of found.set ≡
            bracket_set (state_view self.old).top.flags b → found.depth ≡
            length (state_view self.old).below + bracket_depth b
            → OnOk result (step (state_view self.old) (bracketed b) ≡ Some (state_view self.new)) }
    {
        let BracketValue { set, depth } = found;
        let tree = one_of(alloc, self.top.flags, set)?;
        self.top.put(GroupPart { tree, depth, left })?;
        Ok(())
    }

    /// Opens a group inside the innermost group. `left` is the number of characters from the
    /// group's opening to the end of the text.
    ///
    /// # Errors
    ///
    /// Returns `LimitPatternNesting` if the group is nested too deeply, and `Memory` if memory runs
    /// out.
    fn open(&mut self, alloc: Global, opening: GroupOpening<'_>, left: usize) -> Result<(), Stop>
        ensures { Steps (state_view self.old) (opens (opening_view opening.entry)) result
            (state_view self.new) }
    {
        if self.below.len() >= MAX_NESTING {
            return Err(Stop::LimitPatternNesting);
        }
        let flags = inner_flags(opening, self.top.flags);
        let level = self.below.len() + 1;
        let inside = OpenedGroup::new(alloc, flags, captures(opening), level, left);
        let outside = mem::replace(&mut self.top, inside);
        self.below.push(outside)?;
        Ok(())
    }

    /// Closes the innermost group, and adds its tree to the group around it. `left` is the number
    /// of characters from the closing parenthesis to the end of the text.
    ///
    /// # Errors
    ///
    /// Returns `Unopened` if no group is open, and `Memory` if memory runs out.
    fn close(&mut self, alloc: Global, left: usize) -> Result<(), Stop>
        ensures { Steps (state_view self.old) closes result (state_view self.new) }
    {
        let Some(outside) = self.below.pop() else {
            return Err(Stop::Syntax {
                kind: Kind::Unopened,
                left,
            });
        };
        let inside = mem::replace(&mut self.top, outside);
        let depth = inside.inner;
        let left = inside.left;
        let tree = inside.finish(alloc)?;
        self.top.put(GroupPart { tree, depth, left })?;
        Ok(())
    }

    /// Applies the flag setting `change` to the rest of the innermost group.
    fn setting(&mut self, change: Change) -> Result<(), Stop>
        ensures { Steps (state_view self.old) (sets change) result (state_view self.new) }
    {
        let flags = flags_after(change, self.top.flags);
        Ok(self.top.set(flags)?)
    }

    /// Applies the repetition operator `op` to the last part of the innermost group. `left` is the
    /// number of characters from the operator to the end of the text.
    ///
    /// # Errors
    ///
    /// Returns the errors of `OpenedGroup::repeat`.
    fn repeat(&mut self, alloc: Global, op: Operator, left: usize) -> Result<(), Stop>
        ensures { Steps (state_view self.old) (repeats op) result (state_view self.new) }
    {
        self.top.repeat(alloc, op, left)
    }

    /// Adds the next token to the innermost group, or opens or closes a group. `left` is the number
    /// of characters from the token to the end of the text.
    ///
    /// # Errors
    ///
    /// Returns:
    ///
    /// - the fault of the token if the token is not allowed after the preceding tokens;
    /// - `LimitPatternNesting` if the token is nested too deeply;
    /// - `Memory` if memory runs out.
    pub(crate) fn step(&mut self, alloc: Global, token: Token<'_>, left: usize) -> Result<(), Stop>
        ensures { Steps (state_view self.old) (token_view token.entry) result
            (state_view self.new) }
    {
        match token {
            Token::Atom(atom) => self.atom(alloc, atom, left),
            Token::Bar => Ok(self.top.next_branch()?),
            Token::Open(opening) => self.open(alloc, opening, left),
            Token::Close => self.close(alloc, left),
            Token::Setting(change) => self.setting(change),
            Token::Repeat(op) => self.repeat(alloc, op, left),
        }
    }

    /// Returns the simplified tree of the whole pattern.
    ///
    /// # Errors
    ///
    /// Returns `Unclosed` if a group is still open, and `Memory` if memory runs out.
    pub(crate) fn finish(self, alloc: Global) -> Result<Hir, Stop>
        ensures { Ends result (state_view self) }
    {
        if !self.below.is_empty() {
            return Err(Stop::Syntax {
                kind: Kind::Unclosed,
                left: self.top.left,
            });
        }
        let tree = self.top.finish(alloc)?;
        Ok(simplifier::simplify(alloc, tree)?)
    }
}

/// Returns the fault of an atom that the flags do not allow.
fn unfit_kind(atom: Atom) -> Kind {
    match atom {
        Atom::Boundary(_) => Kind::UnicodeWordBoundary,
        _ => Kind::NotInBytes,
    }
}
