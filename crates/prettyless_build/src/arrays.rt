ghost use Rattle.std.specs.List.{Any};
ghost use Rattle.std.specs.Prelude.{◌⊎◌};
ghost use Rattle.prettyless_doc.specs.BuildErrors.{IsMemory};
ghost use Rattle.prettyless_build.specs.Iterated.{Concatenates};

use crate::builder::DocBuilder;
use crate::pretty::Pretty;
use prettyless_doc::{BuildError, Doc, DocPlace};

/// The documents of its items, appended in order. The making of one can fail, and memory may run out.
impl<'a, D: DocPlace<'a>, T: Pretty<'a, D> + Copy, const N: usize> Pretty<'a, D> for [T; N] {
    ghost becomes = { Concatenates T.becomes };

    ghost refuses = { λ xs e. Any (λ x. T.refuses x e) xs ⊎ IsMemory e };

    fn pretty(self, place: &'a D) -> Result<DocBuilder<'a, D>, BuildError> {
        let mut all = DocBuilder::new(place, Doc::Nil);
        for item in &self {
            all = all.append(*item)?;
        }
        Ok(all)
    }
}
