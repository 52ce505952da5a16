//! Lays TOML texts out: `tomlfmt [--width N] [--indent N] [FILE]..` writes the layout of each file, or of standard input, to
//! standard output. With `--write` the layout of a file replaces it, where it is not laid out already. With `--check` no layout is
//! written: the files that are not laid out are named, and the status says whether there is one. With `--diff` it is printed how they
//! differ from their layouts. A text that is not TOML is named with the place where it stops being TOML, what was expected there, and
//! what stands there.
#![tactic(auto)]

mod request;

ghost use Rattle.std.specs.Prelude.{◌≡◌, IfErr, IfOk, OnOk};
ghost use Rattle.std.specs.Io.KnownBytes.{Appends};
ghost use Rattle.formatter_files.specs.Layouts.{IsOfWriter};

use editor_config::Settings;
use formatter_files::arguments::words;
use formatter_files::ending::Ending;
use formatter_files::files::lay_out_all;
use formatter_files::formatter::{Formatter, LayoutError, Verdict};
use formatter_files::message::{say_expected, say_opened, say_word};
use formatter_files::outcome::{ending_after, ending_of};
use request::requested;
use std::fs::Files;
use std::io;
use std::io::Write;
use std::process::ExitCode;
use std::rt::Env;
use std::str::from_utf8;
use toml_formatter::{FormatError, Style, formatted};
use toml_grammar::{Found, refusal_of};
use toml_lexemes::Lexeme;

// Whether a string is one of several lines.
fn has_lines(text: &str) -> bool {
    text.starts_with("\"\"\"") || text.starts_with("'''")
}

// Says which byte stands there, after a backslash or nothing, if it is a character. It leaves the line open.
fn say_letter<R: Eprint>(rt: &R, before: &str, byte: u8) -> io::Result<()> {
    let letter = char::from(byte);
    if byte.is_ascii_graphic() {
        eprint!(rt; ", found `{before}{letter}`")
    } else if byte.is_ascii() {
        eprint!(rt; ", found {letter:?}")
    } else {
        Ok(())
    }
}

// Says what stands there. It leaves the line open.
fn say_found<R: Eprint>(rt: &R, found: Found<'_>) -> io::Result<()> {
    match found {
        Found::Byte => Ok(()),
        Found::End => eprint!(rt; ", found the end of the text"),
        Found::Lexeme(Lexeme::LineEnd) => eprint!(rt; ", found the end of the line"),
        Found::Blank => eprint!(rt; ", found a blank before `]`"),
        Found::Letter(byte) => say_letter(rt, "", byte),
        Found::Escape(byte) => say_letter(rt, "\\", byte),
        Found::Lexeme(Lexeme::String(text)) if has_lines(text) => {
            eprint!(rt; ", found a string of several lines")
        }
        Found::Lexeme(Lexeme::String(_)) => eprint!(rt; ", found a string"),
        Found::Lexeme(Lexeme::Comment(_)) => eprint!(rt; ", found a comment"),
        Found::Lexeme(lexeme) => say_word(rt, lexeme.text()),
    }
}

// Says why and where the bytes are refused, and where the string or the bracket was opened that is missed there.
fn refuse<R: AllocGlobal + Eprint>(rt: &R, name: &str, bytes: &[u8]) -> io::Result<()> {
    let refusal = refusal_of(rt.alloc(), bytes)?;
    say_expected(rt, name, refusal.place, refusal.expected)?;
    say_found(rt, refusal.found)?;
    if let Some(place) = refusal.opened {
        say_opened(rt, place)?;
    }
    eprintln!(rt)
}

// Writes a layout that is made.
fn write<W: Write>(writer: &mut W, layout: &str) -> Result<Verdict, LayoutError>
    ensures ok { OnOk result (Appends (W.contents writer.old) (W.contents writer.new) layout.now) }
    ensures verdict { IfOk result (λ verdict. verdict ≡ Verdict.LaidOut) }
    ensures err { IfErr result IsOfWriter }
{
    match writer.write_all(layout.as_bytes()) {
        Ok(()) => Ok(Verdict::LaidOut),
        Err(error) => Err(LayoutError::Writer(error)),
    }
}

// TOML texts, laid out in a style.
#[derive(Drop)]
struct Toml(Style);

impl Formatter for Toml {
    ghost use Rattle.toml_formatter.specs.Formats.{IsFormattedToml};

    ghost IsLayout = { λ _ text layout. IsFormattedToml text layout };

    fn program(&self) -> &'static str {
        "tomlfmt"
    }

    fn ending(&self) -> &'static str {
        ".toml"
    }

    fn with_settings(&self, settings: Settings) -> Toml {
        let Toml(style) = self;
        Toml(Style {
            width: settings.width().unwrap_or(style.width),
            indent: settings.indent().unwrap_or(style.indent),
            ..*style
        })
    }

    fn write_layout<R: AllocGlobal + Eprint, W: Write>(
        &self,
        rt: &R,
        name: &str,
        bytes: &[u8],
        writer: &mut W,
    ) -> Result<Verdict, LayoutError> {
        if let Ok(text) = from_utf8(bytes) {
            match formatted(rt.alloc(), text, self.0) {
                Ok(layout) => return write(writer, layout.as_str()),
                Err(FormatError::NotToml | FormatError::TooDeep) => {}
                Err(FormatError::Memory(error)) => {
                    return Err(LayoutError::Text(io::Error::from(error)));
                }
            }
        }
        refuse(rt, name, bytes)?;
        Ok(Verdict::Refused)
    }
}

fn run<R: AllocGlobal + Env + Files + Input + Eprint + Print>(rt: &R) -> io::Result<Ending> {
    let words = words(rt)?;
    match requested(rt.alloc(), &words) {
        Ok(request) => Ok(lay_out_all(rt, &Toml(request.style), &request.task)),
        Err(error) => Ok(ending_after(rt, "tomlfmt", &error)),
    }
}

fn main(rt: HostRuntime) -> ExitCode {
    let result = run(&rt);
    ExitCode::from(ending_of(&rt, "tomlfmt", "arguments", result).status())
}
