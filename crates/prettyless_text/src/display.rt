//! Texts that values print.
ghost use Rattle.std.specs.Prelude.{◌≡◌, ◌++◌, Err, IfErr, IfOk, IfSome, IsErr, IsOk, MatchResult, OnOk};
ghost use Rattle.std.specs.Result.{ForOk};
ghost use Rattle.std.specs.String.{string_bytes};
ghost use Rattle.prettyless_text.specs.TextBytes.{bytes_of_text, IsSmallIfItFits};
ghost use Rattle.prettyless_text.specs.Printed.{printed_bytes, bytes_so_far, IsPrinted};
ghost use Rattle.prettyless_text.specs.BuildErrors.{IsMemory};
ghost use Rattle.prettyless_text.specs.declared.text.BuildError.TheVariants.{Display, Memory};

use crate::small::SmallText;
use crate::text::{BuildError, Text};
use arrayvec::ArrayString;
use std::alloc::{AllocError, Global};
use std::fmt::Write;
use std::{fmt, mem};

// A text that was printed: in place where it has at most 22 bytes, and else in memory of its own.
#[derive(Drop)]
enum Printed {
    Short(ArrayString<22>),
    Long(String),
}

impl Printed {
    // Adds a piece at the end. Where memory is refused, all of the text is given up.
    fn with(self, alloc: Global, piece: &str) -> Result<Self, AllocError>
        requires { IsPrinted self }
        ensures sized { IfOk result IsPrinted }
        ensures added { IfOk result (λ t. printed_bytes t ≡ printed_bytes self ++ piece.now) }
    {
        match self {
            Printed::Short(mut text) => match text.try_push_str(piece) {
                Ok(()) => Ok(Printed::Short(text)),
                Err(_) => Ok(Printed::Long(joined(alloc, text.as_str(), piece)?)),
            },
            Printed::Long(mut text) => {
                text.push_str(piece)?;
                Ok(Printed::Long(text))
            }
        }
    }

    fn into_text<'a>(self, alloc: Global) -> Result<Text<'a>, BuildError>
        requires { IsPrinted self }
        ensures bytes { IfOk result (λ t. bytes_of_text t ≡ printed_bytes self) }
        ensures small { IfOk result IsSmallIfItFits }
        ensures err { IfErr result IsMemory }
    {
        match self {
            Printed::Short(text) => Ok(Text::Small(SmallText::from(text))),
            Printed::Long(text) => Ok(Text::Owned(Box::new(alloc, text.into_boxed_str())?)),
        }
    }
}

fn joined(alloc: Global, front: &str, back: &str) -> Result<String, AllocError>
    ensures { IfOk result (λ s. string_bytes s ≡ front.now ++ back.now) }
{
    let mut text = String::from_str(alloc, front)?;
    text.push_str(back)?;
    Ok(text)
}

// Takes what a value prints.
#[derive(Drop)]
struct DisplayWriter {
    // After a refusal of memory it stays an error, also where the value goes on.
    text: Result<Printed, AllocError>,
    alloc: Global,
    ghost sized: { ForOk text IsPrinted },
}

impl fmt::Write for DisplayWriter {
    ghost write_str_gives = { λ p bs q. bytes_so_far q.text ≡ bytes_so_far p.text ++ bs };

    // It fails where memory was refused, now or before, and only there.
    fn write_str(&mut self, piece: &str) -> fmt::Result
        ensures ok { IsOk result → bytes_so_far self.new.text ≡ bytes_so_far self.old.text ++ piece.now }
        ensures refused { MatchResult result (λ _. IsOk self.new.text) (λ _. IsErr self.new.text) }
        ensures stays { IsErr self.old.text → IsErr self.new.text }
    {
        let Ok(text) = mem::replace(&mut self.text, Err(AllocError)) else {
            return Err(fmt::Error);
        };
        self.text = text.with(self.alloc, piece);
        if self.text.is_ok() {
            Ok(())
        } else {
            Err(fmt::Error)
        }
    }
}

impl DisplayWriter {
    // What comes of a value that was printed, and answered `outcome`.
    //
    // `Memory` comes where memory was refused, whatever the value answered, and only there. `Display` comes where the
    // value failed and no memory was refused, and only there.
    fn finished<'a>(self, outcome: fmt::Result) -> Result<Text<'a>, BuildError>
        ensures memory { IfErr self.text (λ error. result ≡ Err (Memory error)) }
        ensures display { IsOk self.text → IsErr outcome → result ≡ Err Display }
        ensures text { IsOk self.text → IsOk outcome → IfErr result IsMemory }
        ensures ended { IfOk result (λ _. IsOk outcome) }
        ensures bytes { IfOk result (λ t. bytes_of_text t ≡ bytes_so_far self.text) }
        ensures small { IfOk result IsSmallIfItFits }
    {
        let text = self.text?;
        match outcome {
            Ok(()) => text.into_text(self.alloc),
            Err(_) => Err(BuildError::Display),
        }
    }
}

fn print<V: fmt::Display + Drop>(printer: &mut DisplayWriter, value: V) -> fmt::Result
    ensures { OnOk result (IfSome (V.output value)
        (λ o. bytes_so_far printer.new.text ≡ bytes_so_far printer.old.text ++ o)) }
{
    printer.write(value)
}

impl<'a> Text<'a> {
    /// The value as `{}` formats it: in the node itself up to 22 bytes, and else owned.
    ///
    /// Answers `Memory` where memory ran out, also if the value went on, and `Display` where the value's formatting
    /// failed and no memory ran out. No clause says which of the two comes.
    ///
    /// ```
    /// Text::from_display(alloc, 42)? // its `as_str` is "42"
    /// ```
    pub fn from_display<V: fmt::Display + Drop>(alloc: Global, value: V) -> Result<Self, BuildError>
        ensures bytes { IfOk result (λ t. IfSome (V.output value) (λ o. bytes_of_text t ≡ o)) }
        ensures small { IfOk result IsSmallIfItFits }
    {
        let mut printer = DisplayWriter {
            text: Ok(Printed::Short(ArrayString::new())),
            alloc,
        };
        let outcome = print(&mut printer, value);
        printer.finished(outcome)
    }
}
