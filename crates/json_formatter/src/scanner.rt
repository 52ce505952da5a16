ghost use Rattle.std.specs.Prelude.{◌≡◌, ℕ, ◌-◌, ◌<◌, ◌≤◌, ◌∷◌, ◌++◌, [], true, false, List, IfOk, length, take};
ghost use Rattle.json_formatter.specs.Window.{closed_last, comma_columns, rest_at, AreWithin, IsLast, IsRight, IsWidthUpTo};
ghost use Rattle.json_formatter.specs.Window.{Knows};
ghost use Rattle.json_formatter.specs.Documents.{greatest_width};

use crate::ahead::Ahead;
use crate::columns::piece_columns;
use crate::kind::{closes, opens};
use std::alloc::{AllocError, Global};

/// A list that the scanner has seen opened.
#[derive(Clone, Copy)]
pub(crate) struct Opened {
    /// The columns that the scanner had passed then.
    start: usize,
    /// The columns that the list takes from there to what closes it, with the comma after that, if one comes, once the scanner
    /// has seen it closed.
    width: Option<usize>,
}

/// Goes over pieces ahead of their reader, and measures the lists that it sees opened, each piece once.
#[derive(Drop)]
pub(crate) struct Scanner<'a> {
    pieces: Ahead<'a>,
    lists: Vec<Opened>,
    unclosed: Vec<usize>,
    total: usize,
    /// Whether lines have no blanks inside braces.
    compact: bool,
}

impl<'a> Scanner<'a> {
    /// Has seen no list, and goes on with these pieces.
    pub(crate) fn new(alloc: Global, pieces: Ahead<'a>, compact: bool) -> Scanner<'a>
        ensures compact { result.compact ≡ compact }
        ensures pieces { result.pieces ≡ pieces.entry }
        ensures lists { result.lists.items ≡ [] }
        ensures unclosed { result.unclosed.items ≡ [] }
    {
        Scanner {
            pieces,
            lists: Vec::new(alloc),
            unclosed: Vec::new(alloc),
            total: 0,
            compact,
        }
    }

    /// Whether it measures such lines.
    #[inline]
    pub(crate) fn measures(&self, compact: bool) -> bool
        ensures { result ≡ true → self.now.compact ≡ compact }
    {
        self.compact == compact
    }

    /// How many lists it has seen opened.
    #[inline]
    pub(crate) fn list_count(&self) -> usize
        ensures { result ≡ length self.now.lists.items }
    {
        self.lists.len()
    }

    /// Forgets all lists, and goes on with these pieces.
    pub(crate) fn restart(&mut self, pieces: Ahead<'a>)
        ensures compact { self.new.compact ≡ self.old.compact }
        ensures pieces { self.new.pieces ≡ pieces.entry }
        ensures lists { self.new.lists.items ≡ [] }
        ensures unclosed { self.new.unclosed.items ≡ [] }
    {
        self.pieces = pieces;
        self.lists.clear();
        self.unclosed.clear();
        self.total = 0;
    }

    /// Adds the list whose bracket was scanned last.
    ///
    /// `AllocError` where memory is refused.
    pub(crate) fn opened(&mut self) -> Result<(), AllocError>
        ensures compact { self.new.compact ≡ self.old.compact }
        ensures lists { IfOk result (λ _. self.new.lists.items
            ≡ self.old.lists.items ++ record { start = self.old.total; width = None } ∷ []) }
        ensures unclosed { IfOk result (λ _. self.new.unclosed.items
            ≡ self.old.unclosed.items ++ length self.old.lists.items ∷ []) }
        ensures total { self.new.total ≡ self.old.total }
        ensures pieces { self.new.pieces ≡ self.old.pieces }
    {
        self.unclosed.push(self.lists.len())?;
        self.lists.push(Opened {
            start: self.total,
            width: None,
        })?;
        Ok(())
    }

    /// Sets the width of the innermost list, whose end was scanned last.
    ///
    /// `AllocError` where the width is more than a `usize` holds.
    fn closed(&mut self) -> Result<(), AllocError>
        requires { AreWithin self.old.lists.items self.old.unclosed.items self.old.total }
        ensures compact { self.new.compact ≡ self.old.compact }
        ensures lists { IfOk result (λ _. self.new.lists.items ≡ closed_last
            self.old.lists.items self.old.unclosed.items self.old.total (comma_columns self.old.pieces)) }
        ensures unclosed { IfOk result (λ _. self.new.unclosed.items
            ≡ take (length self.old.unclosed.items - 1) self.old.unclosed.items) }
        ensures total { self.new.total ≡ self.old.total }
        ensures pieces { self.new.pieces ≡ self.old.pieces }
    {
        if let Some(index) = self.unclosed.pop() {
            let width = self.total - self.lists[index].start;
            let comma = usize::from(self.pieces.next_is_comma());
            self.lists[index].width = Some(width.checked_add(comma).ok_or(AllocError)?);
        }
        Ok(())
    }

    /// Scans one piece, or answers `false` where none is left, or a bracket comes next whose list is kept broken.
    ///
    /// `AllocError` where memory is refused, or the columns are more than a `usize` holds: nothing is known of the lists then.
    fn step(&mut self) -> Result<bool, AllocError>
        requires { IsRight self.old }
        ensures compact { self.new.compact ≡ self.old.compact }
        ensures scanned { IfOk result (λ _. (rests : List (List (List ℕ)))
            → Knows self.old rests → Knows self.new rests) }
        ensures lists { IfOk result (λ _. length self.old.lists.items ≤ length self.new.lists.items) }
        ensures shorter { IfOk result (λ more. more ≡ true
            → length self.new.pieces < length self.old.pieces) }
        ensures end { IfOk result (λ more. more ≡ false
            → IsLast self.old.compact self.old.pieces × (self.new ≡ self.old)) }
    {
        let before = self.pieces.again();
        let Some(piece) = self.pieces.next() else {
            return Ok(false);
        };
        let Some(columns) = piece_columns(self.compact, piece, &self.pieces) else {
            self.pieces = before;
            return Ok(false);
        };
        let Some(total) = self.total.checked_add(columns) else {
            return Err(AllocError);
        };
        self.total = total;
        if opens(piece) {
            self.opened()?;
        } else if closes(piece) {
            self.closed()?;
        }
        Ok(true)
    }

    /// The columns that a list takes from its bracket to what closes it, with the comma after that, if one comes, where
    /// these are at most so many. The scanner goes on until it knows.
    ///
    /// `AllocError` where memory is refused, or the columns are more than a `usize` holds: nothing is known of the lists then.
    pub(crate) fn width(&mut self, index: usize, most: usize) -> Result<Option<usize>, AllocError>
        requires right { IsRight self.old }
        requires index { index < length self.old.lists.items }
        requires most { most < greatest_width }
        ensures compact { self.new.compact ≡ self.old.compact }
        ensures scanned { IfOk result (λ _. (rests : List (List (List ℕ)))
            → Knows self.old rests → Knows self.new rests) }
        ensures lists { IfOk result (λ _. length self.old.lists.items ≤ length self.new.lists.items) }
        ensures width { IfOk result (λ width. (rests : List (List (List ℕ)))
            → Knows self.old rests → IsWidthUpTo self.old.compact most (rest_at rests index) width) }
    {
        loop {
            let list = self.lists[index];
            if let Some(width) = list.width {
                return Ok(if width <= most { Some(width) } else { None });
            }
            if self.total - list.start > most || !self.step()? {
                return Ok(None);
            }
        }
    }
}
