//! What a program that formats files makes of a text.
ghost use Rattle.std.specs.Prelude.{ℕ, List, ⊤};
ghost use Rattle.formatter_files.specs.Layouts.{WritesLayout, WritesParts};

use editor_config::Settings;
use std::io;
use std::io::Write;

/// Whether a text was laid out.
#[derive(Clone, Copy, Debug, Drop, PartialEq, Eq)]
pub enum Verdict {
    /// Its layout was written.
    LaidOut,
    /// It is not a text that is laid out, and this was said.
    Refused,
}

/// Why a text was neither laid out to its end nor refused.
#[derive(Debug, Drop)]
pub enum LayoutError {
    /// The text could not be worked with: memory was refused, or a message was not written.
    Text(io::Error),
    /// The writer takes nothing more.
    Writer(io::Error),
}

impl From<io::Error> for LayoutError {
    ghost use Rattle.std.specs.Prelude.{◌≡◌};
    ghost use Rattle.formatter_files.specs.declared.formatter.LayoutError.TheVariants.{Text};

    ghost from_gives = { λ e r. r ≡ Text e };

    fn from(error: io::Error) -> LayoutError {
        LayoutError::Text(error)
    }
}

/// What a program makes of a text.
pub trait Formatter: Drop {
    /// What it is to be a layout of a text: of the text first, then of the bytes that are one.
    ghost IsLayout: { Self → List ℕ → List ℕ → Type 0 } = { λ _ _ _. ⊤ };

    /// The name of the program, for its messages.
    fn program(&self) -> &'static str;

    /// How the names of the files end that are laid out where a folder is named.
    fn ending(&self) -> &'static str;

    /// The same, for a file of which `.editorconfig` files say this. What is not said, or cannot be met, stays as it is.
    fn with_settings(&self, settings: Settings) -> Self
    where
        Self: Sized;

    /// Writes the layout of these bytes while it is made. They are refused after a message that says why, and names them so.
    ///
    /// Nothing is written where they are refused, nor after `Text`. After `Writer` a part may be written.
    fn write_layout<R: AllocGlobal + Eprint, W: Write>(
        &self,
        rt: &R,
        name: &str,
        bytes: &[u8],
        writer: &mut W,
    ) -> Result<Verdict, LayoutError>
        ensures { WritesLayout (IsLayout self.now bytes.now) (W.contents writer.old) (W.contents writer.new) result };

    /// The same, but of bytes whose parts are laid out each on its own, as lines are, the parts are written that are not refused.
    fn write_parts<R: AllocGlobal + Eprint, W: Write>(
        &self,
        rt: &R,
        name: &str,
        bytes: &[u8],
        writer: &mut W,
    ) -> Result<Verdict, LayoutError>
        ensures { WritesParts (IsLayout self.now bytes.now) (W.contents writer.old) (W.contents writer.new) result }
    {
        self.write_layout(rt, name, bytes, writer)
    }
}
