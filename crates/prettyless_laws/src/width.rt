ghost use Rattle.prettyless_laws.specs.Width.{EnclosedTracesAreTraces, FlatGroupsStayOnOneLine, TextsPastTheWidthAreBroken};
ghost use Rattle.prettyless_laws.specs.Width.{KeptBranchesStayWithin};

/// In the trace of any document no line ends inside a group that is laid flat, and each text there ends within the width. A
/// group inside a `flatten` is flat whether it fits or not, so nothing is said of what is laid there.
///
/// So around a text that ends past the width each group is broken, or stands in a `flatten`. Nor is it in the first branch of
/// a union, where that was kept after a trial. A line suffix is laid at the end of its line: around its texts are the groups
/// around that line end and those in its own document.
pub fn law_width()
    ensures trace { EnclosedTracesAreTraces }
    ensures flat { FlatGroupsStayOnOneLine }
    ensures past { TextsPastTheWidthAreBroken }
    ensures kept { KeptBranchesStayWithin }
{}
