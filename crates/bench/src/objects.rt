//! Objects in the notation of JSON, each in another.

use crate::json::{bracketed, field, triple, with_comma, with_field};
use crate::parts::{Built, text};
use prettyless::DocPlace;
use prettyless::text::BuildError;

/// How many levels of objects there are.
const LEVELS: u32 = 8;

// Fields that hold no object: a string, a number and three of these.
fn plain_fields<'a, D: DocPlace<'a>>(place: &'a D) -> Built<'a, D> {
    let tag = field(place, "\"tag\": ", text(place, "\"red and green\""));
    let counted = with_field(place, tag, "\"quantity\": ", text(place, "40320"));
    let numbers = triple(place, "7", "-12.5", "31415926");
    with_field(place, counted, "\"coordinates\": ", numbers)
}

// These, and two fields more.
fn fields<'a, D: DocPlace<'a>>(
    place: &'a D,
    first: Built<'a, D>,
    second: Built<'a, D>,
) -> Built<'a, D> {
    let one = with_field(place, plain_fields(place), "\"nested\": ", first);
    with_field(place, one, "\"alternateDescription\": ", second)
}

/// Where objects are built. It knows no lifetime, so that a function that calls itself may have it as a bound.
trait ObjectPlace: Copy {
    /// The pointer to a value.
    type Doc: Drop;
    /// A string.
    fn string(self) -> Result<Self::Doc, BuildError>;
    /// An object that holds two values.
    fn object(self, first: Self::Doc, second: Self::Doc) -> Result<Self::Doc, BuildError>;
}

impl<'a, D: DocPlace<'a>> ObjectPlace for &'a D {
    type Doc = D::Doc;

    fn string(self) -> Result<D::Doc, BuildError> {
        text(self, "\"a value of some words\"")
    }

    fn object(self, first: D::Doc, second: D::Doc) -> Result<D::Doc, BuildError> {
        bracketed(self, "{", fields(self, Ok(first), Ok(second)), "}")
    }
}

// A string, or an object that holds two values of one level less.
fn value<P: ObjectPlace>(place: P, height: u32) -> Result<P::Doc, BuildError> {
    if height == 0 {
        return place.string();
    }
    let first = value(place, height - 1)?;
    let second = value(place, height - 1)?;
    place.object(first, second)
}

// So many objects in front of a last one, with commas between them.
fn objects<'a, D: DocPlace<'a>>(place: &'a D, count: usize) -> Built<'a, D> {
    let mut all = value(place, LEVELS);
    for _ in 0..count {
        all = with_comma(place, all, value(place, LEVELS));
    }
    all
}

/// These in brackets.
pub(crate) fn real<'a, D: DocPlace<'a>>(place: &'a D, count: usize) -> Built<'a, D> {
    bracketed(place, "[", objects(place, count), "]")
}
