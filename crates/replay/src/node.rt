//! Nodes: what the word names that a node begins with, and the words and documents that come after it.
use crate::case_part::CasePart;
use crate::refusal::LineRefusal;
use crate::text::text;
use crate::words::{next_word, take_number};
use prettyless_doc::measure::holds_break;
use prettyless_doc::text::Text;
use prettyless_doc::{Doc, DocPtr};
use prettyless_model::choice::{ChoiceTest, ColumnTest, NestingTest};
use prettyless_model::kind::{Indenting, Pair, Single};
use std::alloc::Global;
use std::slice::Iter;

fn take_text<'a>(alloc: Global, words: &mut Iter<'_, &'a str>) -> Result<Text<'a>, LineRefusal> {
    let text = text(alloc, next_word(words, CasePart::Text)?)?;
    Ok(Text::from_cow(alloc, text)?)
}

fn take_payload<'a, T: DocPtr<'a>>(
    alloc: Global,
    words: &mut Iter<'_, &'a str>,
) -> Result<Doc<'a, T>, LineRefusal> {
    let text = text(alloc, next_word(words, CasePart::Payload)?)?;
    if !holds_break(text.as_str()) {
        return Err(LineRefusal::NotACase(CasePart::Payload));
    }
    Ok(Doc::multiline_text(alloc, text)?)
}

fn take_column_test(words: &mut Iter<'_, &str>) -> Result<ColumnTest, LineRefusal> {
    match next_word(words, CasePart::ColumnTest)? {
        "nesting" => Ok(ColumnTest::IsNesting),
        "atmost" => Ok(ColumnTest::AtMost(take_number(words, CasePart::Columns)?)),
        "atleast" => Ok(ColumnTest::AtLeast(take_number(words, CasePart::Columns)?)),
        _ => Err(LineRefusal::NotACase(CasePart::ColumnTest)),
    }
}

fn take_nesting_test(words: &mut Iter<'_, &str>) -> Result<NestingTest, LineRefusal> {
    match next_word(words, CasePart::NestingTest)? {
        "atmost" => Ok(NestingTest::AtMost(take_number(words, CasePart::Columns)?)),
        "atleast" => Ok(NestingTest::AtLeast(take_number(words, CasePart::Columns)?)),
        _ => Err(LineRefusal::NotACase(CasePart::NestingTest)),
    }
}

/// Takes the document that was made last.
pub fn take_document<T: Drop>(made: &mut Vec<T>) -> Result<T, LineRefusal> {
    Ok(made.pop().ok_or(CasePart::Document)?)
}

// The node with nothing in it, or a text, of this name, with those of the words after it that it takes, if it is the name of one.
fn leaf<'a, T: DocPtr<'a>>(
    alloc: Global,
    name: &str,
    words: &mut Iter<'_, &'a str>,
) -> Result<Option<Doc<'a, T>>, LineRefusal> {
    Ok(Some(match name {
        "nil" => Doc::Nil,
        "fail" => Doc::Fail,
        "t" => Doc::Text(take_text(alloc, words)?),
        "w" => Doc::TextWithLen(
            take_number(words, CasePart::Columns)?,
            take_text(alloc, words)?,
        ),
        "m" => take_payload(alloc, words)?,
        "ws" => Doc::WeakSpace,
        "hl" => Doc::HardLine,
        "wl" => Doc::WeakLine,
        "exp" => Doc::ExpandParent,
        _ => return Ok(None),
    }))
}

// How the node of this name holds one document.
fn single(name: &str, words: &mut Iter<'_, &str>) -> Result<Option<Single>, LineRefusal> {
    Ok(Some(match name {
        "sfx" => Single::LineSuffix,
        "nest" => Single::Indented(Indenting::Nest(take_number(words, CasePart::Offset)?)),
        "root" => Single::Indented(Indenting::DedentToRoot),
        "align" => Single::Indented(Indenting::Align),
        "flat" => Single::Flatten,
        "grp" => Single::Group,
        _ => return Ok(None),
    }))
}

// How the node of this name holds two documents.
fn pair(name: &str, words: &mut Iter<'_, &str>) -> Result<Option<Pair>, LineRefusal> {
    Ok(Some(match name {
        "app" => Pair::Append,
        "bof" => Pair::BreakOrFlat,
        "uni" => Pair::Union,
        "puni" => Pair::PartialUnion,
        "oncol" => Pair::Chosen(ChoiceTest::OnColumn(take_column_test(words)?)),
        "onnest" => Pair::Chosen(ChoiceTest::OnNesting(take_nesting_test(words)?)),
        _ => return Ok(None),
    }))
}

/// The node of this name, with those of the words after it that it takes, and the documents made last, if it is the name of one.
pub fn node<'a, T: DocPtr<'a>>(
    alloc: Global,
    name: &str,
    words: &mut Iter<'_, &'a str>,
    made: &mut Vec<T>,
) -> Result<Option<Doc<'a, T>>, LineRefusal> {
    if let Some(kind) = single(name, words)? {
        return Ok(Some(Doc::around(kind, take_document(made)?)));
    }
    if let Some(kind) = pair(name, words)? {
        let first = take_document(made)?;
        return Ok(Some(Doc::of_two(kind, first, take_document(made)?)));
    }
    leaf(alloc, name, words)
}
