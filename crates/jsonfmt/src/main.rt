//! Lays JSON texts out: `jsonfmt [--width N] [--indent N|tab] [--fill numbers|all|none] [--keep-blank-lines]
//! [--line-ending lf|crlf] [--compact] [--depth N] [--lines] [FILE]..` writes the layout of each file, or of standard input, to
//! standard output while it is made. With `--write` the layout of a file replaces it, where it is not laid out already. With
//! `--check` no layout is written: the files that are not laid out are named, and the status says whether there is one. With `--diff`
//! it is printed how they differ from their layouts. A text that is not JSON is named with the place where it stops being JSON, what
//! was expected there, and what stands there. With `--lines` each line of a file is a text, and is laid out on one line.
#![tactic(auto)]

ghost use Rattle.std.specs.Prelude.{OnOk, IfErr, false};
ghost use Rattle.std.specs.Io.KnownBytes.{Appends};
ghost use Rattle.formatter_files.specs.Layouts.{IsOfWriter, WritesLayout};
ghost use Rattle.json_formatter.specs.Formats.{IsFormatted};
ghost use Rattle.jsonfmt.specs.Lines.{LaysLinesOf, WritesLines};

mod lines;
mod refusal;
mod request;
mod words;

use crate::lines::lay_lines;
use crate::refusal::{Origin, refuse, refuse_depth};
use crate::request::requested;
use crate::words::TAB;
use editor_config::{EndOfLine, Settings};
use formatter_files::arguments::words;
use formatter_files::ending::Ending;
use formatter_files::files::lay_out_all;
use formatter_files::formatter::{Formatter, LayoutError, Verdict};
use formatter_files::outcome::{ending_after, ending_of};
use json_formatter::{FormatError, LineEnd, Style, format, line_style};
use std::fs::Files;
use std::io;
use std::io::Write;
use std::process::ExitCode;
use std::rt::Env;
use std::str::from_utf8;

// What ends lines: what an option asks for, or else what settings say.
fn line_end(asked: LineEnd, said: Option<EndOfLine>) -> LineEnd {
    match (asked, said) {
        (LineEnd::OfText, Some(EndOfLine::Lf)) => LineEnd::Lf,
        (LineEnd::OfText, Some(EndOfLine::CrLf)) => LineEnd::CrLf,
        _ => asked,
    }
}

// Writes a layout that is made.
fn write<W: Write>(writer: &mut W, layout: &[u8]) -> Result<(), LayoutError>
    ensures ok { OnOk result (Appends (W.contents writer.old) (W.contents writer.new) layout.now) }
    ensures err { IfErr result IsOfWriter }
{
    match writer.write_all(layout) {
        Ok(()) => Ok(()),
        Err(error) => Err(LayoutError::Writer(error)),
    }
}

// JSON texts, laid out in a style; or texts that have one on each line.
#[derive(Drop)]
struct Json {
    style: Style,
    lines: bool,
}

impl Json {
    // Writes the layout of a text while it is made.
    fn write_text<R: AllocGlobal + Eprint, W: Write>(
        &self,
        rt: &R,
        name: &str,
        bytes: &[u8],
        writer: &mut W,
    ) -> Result<Verdict, LayoutError>
        ensures { WritesLayout (IsFormatted self.now.style bytes.now) (W.contents writer.old) (W.contents writer.new) result }
    {
        let origin = Origin::of_file(name);
        if let Ok(text) = from_utf8(bytes) {
            match format(rt.alloc(), text, self.style, writer) {
                Ok(()) => return Ok(Verdict::LaidOut),
                Err(FormatError::NotJson) => {}
                Err(FormatError::TooDeep) => {
                    refuse_depth(rt, origin, text, self.style.depth)?;
                    return Ok(Verdict::Refused);
                }
                Err(FormatError::Memory(error)) => {
                    return Err(LayoutError::Text(io::Error::from(error)));
                }
                Err(FormatError::Write(error)) => return Err(LayoutError::Writer(error)),
            }
        }
        refuse(rt, origin, bytes)?;
        Ok(Verdict::Refused)
    }

    // Writes the layouts of the lines of a text, if none is refused.
    fn write_whole_lines<R: AllocGlobal + Eprint, W: Write>(
        &self,
        rt: &R,
        name: &str,
        bytes: &[u8],
        writer: &mut W,
    ) -> Result<Verdict, LayoutError>
        ensures { WritesLayout (LaysLinesOf self.now.style bytes.now false) (W.contents writer.old) (W.contents writer.new) result }
    {
        let laid = lay_lines(rt, name, bytes, line_style(self.style, bytes))?;
        if laid.refused {
            return Ok(Verdict::Refused);
        }
        write(writer, &laid.layout)?;
        Ok(Verdict::LaidOut)
    }

    // Writes the layouts of the lines of a text that are not refused.
    fn write_lines<R: AllocGlobal + Eprint, W: Write>(
        &self,
        rt: &R,
        name: &str,
        bytes: &[u8],
        writer: &mut W,
    ) -> Result<Verdict, LayoutError>
        ensures { WritesLines self.now.style bytes.now (W.contents writer.old) (W.contents writer.new) result }
    {
        let laid = lay_lines(rt, name, bytes, line_style(self.style, bytes))?;
        write(writer, &laid.layout)?;
        Ok(if laid.refused {
            Verdict::Refused
        } else {
            Verdict::LaidOut
        })
    }
}

impl Formatter for Json {
    ghost use Rattle.jsonfmt.specs.Lines.{IsLaid};

    ghost IsLayout = { λ json text layout. IsLaid json.lines json.style text layout };

    fn program(&self) -> &'static str {
        "jsonfmt"
    }

    fn ending(&self) -> &'static str {
        if self.lines { ".jsonl" } else { ".json" }
    }

    fn with_settings(&self, settings: Settings) -> Json {
        let Json { style, lines } = self;
        let has_tabs = settings.uses_tabs();
        let indent = if has_tabs { TAB.columns } else { style.indent };
        let style = Style {
            width: settings.width().unwrap_or(style.width),
            indent: settings.indent().unwrap_or(indent),
            tabs: style.tabs || has_tabs,
            line_end: line_end(style.line_end, settings.line_end()),
            ..*style
        };
        Json {
            style,
            lines: *lines,
        }
    }

    fn write_layout<R: AllocGlobal + Eprint, W: Write>(
        &self,
        rt: &R,
        name: &str,
        bytes: &[u8],
        writer: &mut W,
    ) -> Result<Verdict, LayoutError> {
        if self.lines {
            self.write_whole_lines(rt, name, bytes, writer)
        } else {
            self.write_text(rt, name, bytes, writer)
        }
    }

    fn write_parts<R: AllocGlobal + Eprint, W: Write>(
        &self,
        rt: &R,
        name: &str,
        bytes: &[u8],
        writer: &mut W,
    ) -> Result<Verdict, LayoutError> {
        if self.lines {
            self.write_lines(rt, name, bytes, writer)
        } else {
            self.write_text(rt, name, bytes, writer)
        }
    }
}

fn run<R: AllocGlobal + Env + Files + Input + Eprint + Print>(rt: &R) -> io::Result<Ending> {
    let words = words(rt)?;
    match requested(rt.alloc(), &words) {
        Ok(request) => {
            let json = Json {
                style: request.style,
                lines: request.lines,
            };
            Ok(lay_out_all(rt, &json, &request.task))
        }
        Err(error) => Ok(ending_after(rt, "jsonfmt", &error)),
    }
}

fn main(rt: HostRuntime) -> ExitCode {
    let result = run(&rt);
    ExitCode::from(ending_of(&rt, "jsonfmt", "arguments", result).status())
}
