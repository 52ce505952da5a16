//! Layouts by every call, into writers of which one call goes wrong, each call in turn.
//!
//! Where none goes wrong, the layout comes out, or the bytes before the node that fails. Where one does, the render ends with its
//! error, what was written is a beginning of that, and nothing is written after it.
mod call;
mod writer;

use crate::case::Case;
use crate::layout::WrittenLayout;
use crate::refusal::LineRefusal;
use call::{CALL_KINDS, Call, CallKind, Ending, Laying};
use prettyless_doc::DocPtr;
use prettyless_model::options::{IndentationPolicy, LineEnding, RenderOptions};
use prettyless_sink::error::RenderError;
use std::alloc::{AllocError, Global};
use writer::{Writer, Wrong};

// A call, and a writer for it.
#[derive(Clone, Copy, Debug)]
struct Trial {
    call: Call,
    most: usize,
    wrong: Wrong,
}

// Adds the trials of calls of a kind.
fn push_trials(trials: &mut Vec<Trial>, kind: &CallKind, calls: &[Call]) -> Result<(), AllocError> {
    for &call in calls {
        for &most in kind.most {
            for &wrong in kind.wrongs {
                trials.push(Trial { call, most, wrong })?;
            }
        }
    }
    Ok(())
}

// The trials of all calls that lay out with these options.
fn trials(alloc: Global, options: RenderOptions) -> Result<Vec<Trial>, AllocError> {
    let mut trials = Vec::new(alloc);
    for kind in CALL_KINDS {
        push_trials(&mut trials, kind, kind.calls)?;
        if options.line_ending == LineEnding::Lf
            && options.indentation_policy == IndentationPolicy::Eager
        {
            push_trials(&mut trials, kind, kind.at_width)?;
        }
    }
    Ok(trials)
}

// Whether a render had to end so, and leave the writer so: with the error of the call that went wrong, if one did.
fn is_right(fails: bool, writer: &Writer<'_>, ending: Ending) -> Result<bool, AllocError> {
    match ending {
        Ok(()) => Ok(!fails && writer.is_done()),
        Err(RenderError::Document(_)) => Ok(fails && writer.is_done()),
        Err(RenderError::Sink(error)) => Ok(writer.has_failed(error.kind())),
        Err(RenderError::Memory(error)) => Err(error),
    }
}

impl<'a, T: DocPtr<'a>> Laying<'_, 'a, T> {
    // Renders into a writer of which the call of this number goes wrong: how many calls it came to.
    fn try_once(&self, trial: Trial, number: usize) -> Result<usize, LineRefusal> {
        let bytes = self.layout.text.as_bytes();
        let mut writer = Writer::new(bytes, trial.most, trial.wrong, number);
        let ending = self.render(trial.call, &mut writer);
        if is_right(self.layout.fails, &writer, ending)? {
            return Ok(writer.calls);
        }
        let (calls, left) = (writer.calls, writer.rest.len());
        Err(LineRefusal::Differs(format!(in self.alloc;
            "{trial:?} at call {number}: after {calls} calls {left} bytes are left"
        )?))
    }

    // Refuses the case where a render ends otherwise than it has to. Each call of the writer goes wrong in turn, up to one that the
    // render does not come to.
    fn try_each(&self, trial: Trial) -> Result<(), LineRefusal> {
        for number in 1..=self.layout.text.len() {
            if self.try_once(trial, number)? < number {
                return Ok(());
            }
        }
        self.try_once(trial, usize::MAX)?;
        Ok(())
    }
}

/// Refuses a case that comes out otherwise by one of the calls.
pub fn compare_hostile<'a, T: DocPtr<'a>>(
    alloc: Global,
    case: &Case<T>,
    layout: &WrittenLayout,
) -> Result<(), LineRefusal> {
    let laying = Laying {
        alloc,
        document: case.document.doc(),
        options: case.options,
        layout,
    };
    for &trial in trials(alloc, case.options)?.iter() {
        laying.try_each(trial)?;
    }
    Ok(())
}
