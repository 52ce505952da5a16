//! What the lists of the small formatter show.
ghost use Rattle.example_formatters.specs.Values.{ListsShow};

/// A list shows what its documents show, with brackets around it all, and with a comma and then a space or a line end
/// between two of them. Inside the brackets there may be gaps; those of an empty list stand side by side.
pub fn law_list()
    ensures { ListsShow }
{}
