//! Texts of spaces, and of tabs.
ghost use Rattle.std.specs.Prelude.{◌≡◌, ◌≤◌, replicate};
ghost use Rattle.json_formatter.specs.Blanks.{blank_code};
ghost use Rattle.json_formatter.specs.Spelling.{tabs};

use prettyless_model::spaces::some_spaces;

/// How many blanks a text has at most.
pub(crate) const MOST: usize = 64;

const TABS: &str =
    "\t\t\t\t\t\t\t\t\t\t\t\t\t\t\t\t\t\t\t\t\t\t\t\t\t\t\t\t\t\t\t\t\t\t\t\t\t\t\t\t\t\t\t\t\t\t\t\t\t\t\t\t\t\t\t\t\t\t\t\t\t\t\t\t";

/// What an indent is made of.
#[derive(Clone, Copy)]
pub(crate) enum Blank {
    Space,
    Tab,
}

/// A text of at most 64 tabs.
#[inline]
pub(crate) fn some_tabs(count: usize) -> &'static str
    requires { count ≤ MOST }
    ensures { result.now ≡ tabs count }
{
    &TABS[..count]
}

/// A text of at most 64 blanks.
#[inline]
pub(crate) fn some_blanks(blank: Blank, count: usize) -> &'static str
    requires { count ≤ MOST }
    ensures { result.now ≡ replicate count (blank_code blank) }
{
    match blank {
        Blank::Space => some_spaces(count),
        Blank::Tab => some_tabs(count),
    }
}
