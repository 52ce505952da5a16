//! What comes next in an array or an object that is open.
ghost use Rattle.std.specs.Prelude.{◌≡◌, ◌<◌, ◌≤◌, length};
ghost use Rattle.json_validity.specs.Open.{ComesNext};

use json::Reader;

/// What is open until its bracket comes.
#[derive(Clone, Copy, Drop)]
pub(crate) enum Bracket {
    Array,
    Object,
}

/// What comes next in it.
#[derive(Clone, Copy, Drop)]
pub(crate) enum Next {
    /// A value; in an object its key was passed.
    Member,
    /// Its bracket, which was passed.
    End,
    /// Neither.
    Nothing,
}

/// What comes next in the innermost list.
#[inline(always)]
pub(crate) fn next_in(innermost: Bracket, reader: &mut Reader<'_>) -> Next
    ensures next { ComesNext innermost reader.old result reader.new }
    ensures fewer { length reader.new ≤ length reader.old }
    ensures passed { result ≡ Next.End → length reader.new < length reader.old }
{
    match innermost {
        Bracket::Array => if reader.take_end_array() {
            Next::End
        } else {
            Next::Member
        },
        Bracket::Object => match reader.next_key() {
            Ok(Some(_)) => Next::Member,
            Ok(None) => Next::End,
            Err(_) => Next::Nothing,
        },
    }
}
