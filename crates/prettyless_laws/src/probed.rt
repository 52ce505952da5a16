ghost use Rattle.prettyless_laws.specs.Reading.{ProbesGoByReadings};

/// Where no choice by column or nesting stands in a document or in what follows it, a probe goes by what they show alone, as a
/// list of texts, spaces and line ends: no indent changes its answer.
pub fn law_probe()
    ensures { ProbesGoByReadings }
{}
