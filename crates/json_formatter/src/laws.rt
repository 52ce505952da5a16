ghost use Rattle.json_formatter.specs.ByValue.{LayoutsGoByValues, TextsAreLaidByValues};

/// A text is laid out by the value that its pieces spell: its lexemes, and the line ends after the brackets of lists that are kept
/// broken. The pieces of each text that is JSON spell one.
///
/// A string, a number or a literal stands as it is spelled. An array or an object is one line, with a space after each comma and
/// colon, and inside the braces of an object that has members unless the style is compact, where that line stays within the width
/// together with the comma that may follow it, and no list in it is kept broken. Else each item or member is laid out in the same
/// way in a line of its own, indented relative to the brackets, which stand at the indent of the line in which the list begins.
/// The items of an array fill these lines where the style says so of all of them, as of numbers: each stands after the one before
/// it where it stays within the width there with its comma, and else in the next line. A list that is empty is its two brackets
/// wherever it stands.
///
/// Where the style keeps blank lines, an empty line comes besides before each item or member that begins a line after a
/// comma, and has a blank line before it in the text. Line ends and indents are spelled as the style says.
pub fn law_layout()
    ensures laid { LayoutsGoByValues }
    ensures texts { TextsAreLaidByValues }
{}
