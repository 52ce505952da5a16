ghost use Rattle.prettyless_laws.specs.Regrouped.{GroupingsShareLayouts, RegroupingKeepsLayouts};

/// Documents one after another have one layout, however they are grouped, at any depth.
pub fn law_regroup()
    ensures kept { RegroupingKeepsLayouts }
    ensures shared { GroupingsShareLayouts }
{}
