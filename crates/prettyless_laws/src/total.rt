ghost use Rattle.prettyless_laws.specs.TotalTrees.{TotalTreesDoNotFail};

/// A document with no `Fail` and no `Flatten` node is laid to its end, with any options.
pub fn law_total()
    ensures { TotalTreesDoNotFail }
{}
