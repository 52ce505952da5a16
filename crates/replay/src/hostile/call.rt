//! The calls that render or print.
use crate::hostile::writer::{Writer, Wrong};
use crate::layout::WrittenLayout;
use prettyless_doc::{Doc, DocPtr, PrettyFmt};
use prettyless_model::options::RenderOptions;
use prettyless_sink::error::RenderError;
use prettyless_sink::fmt_write::FmtWrite;
use prettyless_sink::io_write::IoWrite;
use prettyless_sink::text_writer::OpaqueWriter;
use prettyless_sink::visits::RenderCost;
use std::alloc::{AllocError, Global};
use std::fmt::Write;
use std::{fmt, io};

/// A call that renders to a sink, a byte writer or a text writer, or prints.
#[derive(Clone, Copy, Debug)]
pub enum Call {
    RawWith,
    RawObservedWith,
    RawCountedWith,
    Raw,
    RawWithIoWrite,
    With,
    AtWidth,
    RawWithFmtWrite,
    FmtWith,
    FmtAtWidth,
    PrintWith,
    PrintAtWidth,
    /// Where all is asked of the formatter that can be, which changes nothing.
    StyledPrintWith,
    StyledPrintAtWidth,
}

/// Calls of one kind of writer, how much of a piece that may take at a time, and what may go wrong there.
pub struct CallKind {
    pub calls: &'static [Call],
    /// Those that take a width and no options.
    pub at_width: &'static [Call],
    pub most: &'static [usize],
    pub wrongs: &'static [Wrong],
}

/// All calls.
#[rattlefmt::skip]
pub const CALL_KINDS: &[CallKind] = &[
    CallKind {
        calls: &[Call::RawWith, Call::RawObservedWith, Call::RawCountedWith],
        at_width: &[Call::Raw],
        most: &[usize::MAX, 3, 2, 1],
        wrongs: &[Wrong::Refuses, Wrong::TakesNothing, Wrong::CountsOneMore, Wrong::CountsAll],
    },
    CallKind {
        calls: &[Call::RawWithIoWrite, Call::With],
        at_width: &[Call::AtWidth],
        most: &[usize::MAX, 1],
        wrongs: &[Wrong::IsInterrupted, Wrong::Refuses, Wrong::TakesNothing],
    },
    CallKind {
        calls: &[Call::RawWithFmtWrite, Call::FmtWith, Call::PrintWith, Call::StyledPrintWith],
        at_width: &[Call::FmtAtWidth, Call::PrintAtWidth, Call::StyledPrintAtWidth],
        most: &[usize::MAX],
        wrongs: &[Wrong::TakesByteAndRefuses],
    },
];

/// How a render ends, with the error of the writer as one of input and output.
pub type Ending = Result<(), RenderError<io::Error>>;

fn of_text(rendered: Result<(), RenderError<fmt::Error>>) -> Ending {
    rendered.map_err(|error| match error {
        RenderError::Document(error) => RenderError::Document(io::Error::from(error)),
        RenderError::Sink(error) => RenderError::Sink(io::Error::from(error)),
        RenderError::Memory(error) => RenderError::Memory(error),
    })
}

/// A document, what is asked of its layout, and that.
#[derive(Clone, Copy)]
pub struct Laying<'d, 'a, T> {
    pub alloc: Global,
    pub document: &'d Doc<'a, T>,
    pub options: RenderOptions,
    pub layout: &'d WrittenLayout,
}

impl<'a, T: DocPtr<'a>> Laying<'_, 'a, T> {
    // Prints. A print that fails does not say why: the writer failed, or the document does, after the bytes before its failing node, or
    // memory was refused.
    fn print(
        &self,
        shown: PrettyFmt<'a, '_, T>,
        is_styled: bool,
        writer: &mut Writer<'_>,
    ) -> Ending {
        let printed = if is_styled {
            write!(writer, "{shown:*^+#020.1}")
        } else {
            write!(writer, "{shown}")
        };
        match printed {
            Ok(()) => Ok(()),
            Err(error) if writer.error.is_some() => Err(RenderError::Sink(io::Error::from(error))),
            Err(error) if self.layout.fails && writer.rest.is_empty() => {
                Err(RenderError::Document(io::Error::from(error)))
            }
            Err(_) => Err(RenderError::Memory(AllocError)),
        }
    }

    /// Renders by this call.
    pub fn render(&self, call: Call, writer: &mut Writer<'_>) -> Ending {
        let (alloc, document, options) = (self.alloc, self.document, self.options);
        let (width, mut cost) = (options.width, RenderCost::default());
        match call {
            Call::RawWith => document.render_raw_with(alloc, options, writer),
            Call::RawObservedWith => document.render_raw_observed_with(
                alloc, options, writer, &mut cost,
            ),
            Call::RawCountedWith => document.render_raw_counted_with(
                alloc,
                options,
                writer,
                &mut cost.visits,
            ),
            Call::Raw => document.render_raw(alloc, width, writer),
            Call::RawWithIoWrite => document.render_raw_with(
                alloc,
                options,
                &mut IoWrite::new(writer),
            ),
            Call::With => document.render_with(alloc, options, writer),
            Call::AtWidth => document.render(alloc, width, writer),
            Call::RawWithFmtWrite => {
                let mut writer = OpaqueWriter(writer);
                of_text(document.render_raw_with(alloc, options, &mut FmtWrite::new(&mut writer)))
            }
            Call::FmtWith => of_text(document.render_fmt_with(
                alloc,
                options,
                &mut OpaqueWriter(writer),
            )),
            Call::FmtAtWidth => of_text(document.render_fmt(
                alloc,
                width,
                &mut OpaqueWriter(writer),
            )),
            Call::PrintWith => self.print(document.print_with(alloc, options), false, writer),
            Call::PrintAtWidth => self.print(document.print(alloc, width), false, writer),
            Call::StyledPrintWith => self.print(document.print_with(alloc, options), true, writer),
            Call::StyledPrintAtWidth => self.print(document.print(alloc, width), true, writer),
        }
    }
}
