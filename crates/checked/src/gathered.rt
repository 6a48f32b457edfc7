// A table in the making.
ghost use Rattle.std.specs.Prelude.{◌≡◌, ◌≤◌, length};
ghost use Rattle.fixed.specs.Values.{values};

use crate::parts::Parts;
use fixed::FixedVec;

// The parts so far, how many lives and windows stood, and the first bytes of the fields of outputs and triggers. The
// places stand beside the parts, and not in them, since the parts go on without them. How many lives stood is a count,
// as of the other kinds of fields, by which their order is judged, and no Option of the life: that one goes into the
// parts at once, as the table keeps it.
#[derive(Clone, Copy)]
pub struct Gathered {
    pub parts: Parts,
    pub lives: u8,
    pub windows: u8,
    pub output_places: FixedVec<usize, 16>,
    pub trigger_places: FixedVec<usize, 8>,
    ghost once: { lives ≤ 1 },
    ghost few: { windows ≤ 8 },
    ghost outputs_placed: { length (values output_places) ≡ length (values parts.outputs) },
    ghost triggers_placed: { length (values trigger_places) ≡ length (values parts.triggers) },
}
