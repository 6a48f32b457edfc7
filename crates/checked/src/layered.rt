// A table whose reads go in no circle.
ghost use Rattle.std.specs.Prelude.{◌≡◌};
ghost use Rattle.fixed.specs.Values.{values};
ghost use Rattle.checked.specs.Planning.{layers_of};
ghost use Rattle.checked.specs.Views.{said};

use crate::parts::Parts;
use fixed::FixedVec;

// The parts of a table, with the layer of each output.
#[derive(Clone, Copy)]
pub(crate) struct Layered<'a> {
    pub parts: &'a Parts,
    pub layers: FixedVec<u8, 16>,
    ghost known: { values layers ≡ layers_of (said parts.now) },
}
