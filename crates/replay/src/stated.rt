//! What a line states of its case, compared with what comes of it. Both are said in the same words.
use crate::case::Case;
use crate::case_part::CasePart;
use crate::layout::WrittenLayout;
use crate::refusal::LineRefusal;
use crate::text::{labelled, push_word, text, word_of};
use crate::words::number;
use prettyless_doc::DocPtr;
use prettyless_sink::visits::Visits;
use std::alloc::{AllocError, Global};
use std::fmt;

/// Refuses what is found where that is not what is stated.
pub fn compare(alloc: Global, what: &str, stated: &str, found: &str) -> Result<(), LineRefusal> {
    if stated == found {
        return Ok(());
    }
    Err(LineRefusal::Differs(format!(in alloc; "{what}stated {stated}, found {found}")?))
}

// The texts of these words, put together.
fn joined(alloc: Global, words: &[&str]) -> Result<String, LineRefusal> {
    let mut all = String::new(alloc);
    for word in words {
        all.push_str(text(alloc, word)?.as_str())?;
    }
    Ok(all)
}

// The texts of these words as words in hexadecimal.
fn in_hexadecimal(alloc: Global, words: &[&str]) -> Result<String, LineRefusal> {
    let mut all = String::new(alloc);
    for word in words {
        push_word(alloc, &mut all, text(alloc, word)?.as_str())?;
    }
    Ok(all)
}

fn visit_words(alloc: Global, label: &str, visits: Visits) -> Result<String, AllocError> {
    let Visits { printer, probes } = visits;
    format!(in alloc; "{label} {printer} {probes}")
}

fn visits(words: &[&str]) -> Result<Visits, LineRefusal> {
    let [printer, probes] = words else {
        return Err(LineRefusal::NotACase(CasePart::Visits));
    };
    Ok(Visits {
        printer: number(printer, CasePart::Visits)?,
        probes: number(probes, CasePart::Visits)?,
    })
}

// An outcome in words.
fn outcome_words(alloc: Global, label: &str, words: &[&str]) -> Result<String, LineRefusal> {
    let text = joined(alloc, words)?;
    Ok(labelled(alloc, label, word_of(alloc, text.as_bytes())?.as_str())?)
}

// What is stated by a statement of this kind.
fn stated_words(alloc: Global, kind: &str, words: &[&str]) -> Result<String, LineRefusal> {
    match kind {
        "ok" => outcome_words(alloc, "ok", words),
        "fail" => outcome_words(alloc, "fail", words),
        "error" => Ok(labelled(alloc, "error: expected", joined(alloc, words)?.as_str())?),
        "visits" => Ok(visit_words(alloc, "visits", visits(words)?)?),
        "table" => Ok(visit_words(alloc, "table", visits(words)?)?),
        "few" => Ok(String::from_str(alloc, "few")?),
        "pieces" => Ok(labelled(alloc, "pieces", in_hexadecimal(alloc, words)?.as_str())?),
        "debug" => Ok(labelled(alloc, "debug", joined(alloc, words)?.as_str())?),
        _ => Err(LineRefusal::NotACase(CasePart::Statement)),
    }
}

/// What comes of a case: its layout over its nodes, and over a table of them.
#[derive(Clone, Copy)]
pub struct CaseOutcome<'f, T> {
    pub case: &'f Case<T>,
    pub layout: &'f WrittenLayout,
    pub over_table: &'f WrittenLayout,
}

impl<'a, T: DocPtr<'a> + fmt::Debug> CaseOutcome<'_, T> {
    // What is found that a statement of this kind speaks of.
    fn words(&self, alloc: Global, kind: &str) -> Result<String, AllocError> {
        let visits = self.layout.visits;
        match kind {
            "few" if visits.probes / 5 < visits.printer => String::from_str(alloc, "few"),
            "few" | "visits" => visit_words(alloc, "visits", visits),
            "table" => visit_words(alloc, "table", self.over_table.visits),
            "pieces" => labelled(alloc, "pieces", self.layout.pieces.as_str()),
            "debug" => {
                let document = &self.case.document;
                format!(in alloc; "debug {document:?}")
            }
            _ => self.layout.words(),
        }
    }
}

// The words that statements begin with.
const KINDS: [&str; 8] = [
    "ok", "fail", "error", "visits", "table", "few", "pieces", "debug",
];

// Those of these words that come before the next statement.
fn own_words<'w, 'a>(words: &'w [&'a str]) -> &'w [&'a str] {
    let end = words.iter().position(|word| KINDS.contains(word));
    &words[..end.unwrap_or(words.len())]
}

/// Refuses a case that is otherwise than these words state.
pub fn compare_stated<'a, T: DocPtr<'a> + fmt::Debug>(
    alloc: Global,
    stated: &[&str],
    found: &CaseOutcome<'_, T>,
) -> Result<(), LineRefusal> {
    for at in 0..stated.len() {
        if at == 0 || KINDS.contains(&stated[at]) {
            let (kind, words) = (stated[at], own_words(&stated[at + 1..]));
            let (stated, found) = (stated_words(alloc, kind, words)?, found.words(alloc, kind)?);
            compare(alloc, "", stated.as_str(), found.as_str())?;
        }
    }
    Ok(())
}

/// Refuses a line that is no case, since this was expected, where that is not what it states first.
pub fn compare_error(
    alloc: Global,
    stated: &[&str],
    expected: CasePart,
) -> Result<(), LineRefusal> {
    let Some((kind, words)) = stated.split_first() else {
        return Err(LineRefusal::NotACase(expected));
    };
    let stated = stated_words(alloc, kind, own_words(words))?;
    let found = labelled(alloc, "error: expected", expected.description())?;
    compare(alloc, "", stated.as_str(), found.as_str())
}
