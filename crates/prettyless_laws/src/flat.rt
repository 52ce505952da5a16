ghost use Rattle.prettyless_laws.specs.FlatLines.{WhatFitsLiesOnOneLine, GroupsThatFitAreFlat, BreaksSkipWeakLines};
ghost use Rattle.prettyless_laws.specs.FlatLines.{WhatFitsIsTracedOnOneLine, GroupsThatFitAreTracedFlat, TraceBreaksPassWeakLines};

/// Where the probe finds that a document fits when flat, the document is laid flat without a failure and without a line
/// break; no text of it ends past the width, and no pending suffix is laid. So is a group whose probe answers yes.
///
/// The trace of the document has gaps, texts and the alternatives of choices by column or nesting alone, and each text ends
/// within the width. The trace of the group is the same, after a note that the first alternative was taken.
pub fn law_flat_group()
    ensures one_line { WhatFitsLiesOnOneLine }
    ensures group { GroupsThatFitAreFlat }
    ensures breaks { BreaksSkipWeakLines }
    ensures traced { WhatFitsIsTracedOnOneLine }
    ensures traced_group { GroupsThatFitAreTracedFlat }
    ensures traced_breaks { TraceBreaksPassWeakLines }
{}
