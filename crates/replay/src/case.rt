//! Cases. Their documents are read from the last of their words to the first, so that nothing calls itself.
use crate::case_part::CasePart;
use crate::node::{node, take_document};
use crate::refusal::LineRefusal;
use crate::words::{next_word, number, repeated};
use prettyless_doc::DocPlace;
use prettyless_model::options::{IndentationPolicy, LineEnding, RenderOptions};

/// A case that was read: a document, and what is asked of its layout.
#[derive(Drop)]
pub struct Case<T> {
    pub options: RenderOptions,
    pub document: T,
}

fn line_ending(word: &str) -> Result<LineEnding, LineRefusal> {
    match word {
        "lf" => Ok(LineEnding::Lf),
        "crlf" => Ok(LineEnding::Crlf),
        _ => Err(LineRefusal::NotACase(CasePart::LineEnding)),
    }
}

fn indentation_policy(word: &str) -> Result<IndentationPolicy, LineRefusal> {
    match word {
        "eager" => Ok(IndentationPolicy::Eager),
        "deferred" => Ok(IndentationPolicy::Deferred),
        _ => Err(LineRefusal::NotACase(CasePart::IndentationPolicy)),
    }
}

// Puts the node that these words begin with before those that were made, if they begin with one: how many words are after its own.
// `again` puts there the document that was made last.
fn make<'a, D: DocPlace<'a>>(
    place: &'a D,
    words: &[&'a str],
    made: &mut Vec<D::Doc>,
) -> Result<Option<usize>, LineRefusal> {
    let mut after = words.iter();
    let name = next_word(&mut after, CasePart::Document)?;
    if name == "again" {
        let document = place.clone_ptr(made.last().ok_or(CasePart::Document)?)?;
        made.push(document)?;
        return Ok(Some(after.len()));
    }
    let Some(node) = node(place.memory(), name, &mut after, made)? else {
        return Ok(None);
    };
    made.push(place.alloc(node)?)?;
    Ok(Some(after.len()))
}

// The document that the words write, all of them.
fn document<'a, D: DocPlace<'a>>(place: &'a D, words: &[&'a str]) -> Result<D::Doc, LineRefusal> {
    let mut made = Vec::new(place.memory());
    let mut read = 0;
    for at in (0..words.len()).rev() {
        if let Some(after) = make(place, &words[at..], &mut made)? {
            if after != read {
                return Err(LineRefusal::NotACase(if read == 0 {
                    CasePart::End
                } else {
                    CasePart::Document
                }));
            }
            read = words.len() - at;
        }
    }
    if read != words.len() {
        return Err(LineRefusal::NotACase(CasePart::Document));
    }
    let document = take_document(&mut made)?;
    if made.is_empty() {
        Ok(document)
    } else {
        Err(LineRefusal::NotACase(CasePart::End))
    }
}

/// The case that these words write, with its nodes in this place.
pub fn read_case<'a, D: DocPlace<'a>>(
    place: &'a D,
    words: &[&'a str],
) -> Result<Case<D::Doc>, LineRefusal> {
    let [width, ending, policy, words @ ..] = words else {
        return Err(LineRefusal::NotACase(CasePart::Case));
    };
    let options = RenderOptions {
        width: number(width, CasePart::Width)?,
        line_ending: line_ending(ending)?,
        indentation_policy: indentation_policy(policy)?,
    };
    let words = repeated(place.memory(), words)?;
    Ok(Case {
        options,
        document: document(place, &words)?,
    })
}
