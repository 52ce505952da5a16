ghost use Rattle.toml_layouts.specs.Laws.{FormedAreKeyed, LayoutsAreSettled};

/// The document of some statements is laid out as the statements themselves are: the printer breaks a group just where the columns that
/// are left of a line are too few for the array. So it is for statements whose keys have parts, as those of each TOML text have.
pub fn law_layouts()
    ensures settled { LayoutsAreSettled }
    ensures keyed { FormedAreKeyed }
{}
