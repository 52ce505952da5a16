//! What may come next in a TOML text.

/// What is open until its bracket comes.
#[derive(Clone, Copy, Debug, PartialEq, Eq)]
pub enum Bracket {
    Array,
    /// An inline table.
    Table,
}

/// What a key is of, which says what ends it.
#[derive(Clone, Copy, Debug, PartialEq, Eq)]
pub enum Owner {
    /// `key = value`
    Value,
    /// `[key]`
    Table,
    /// `[[key]]`
    Tables,
}

/// What may come next.
#[derive(Clone, Copy, Debug, PartialEq, Eq)]
pub enum Next {
    /// The beginning of a line outside of brackets.
    Line,
    /// What follows the bracket that begins a line.
    Header,
    /// In a key, a part where one is due, and else a dot or what ends the key.
    Key(Owner, bool),
    /// The second of the brackets that close `[[key]]`.
    Closing,
    /// The value of a key.
    Value,
    /// A value of an array, or the bracket that closes it.
    Member,
    /// The first key of an inline table, or the brace that closes it.
    Entry,
    /// What follows a value or a header.
    After,
    /// What follows a date, which may be a time.
    AfterDate,
}
