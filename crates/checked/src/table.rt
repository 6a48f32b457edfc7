// The checked table.
ghost use Rattle.std.specs.Prelude.{◌≡◌, true, length};
ghost use Rattle.tables.specs.Sound.{sound};
ghost use Rattle.tables.specs.Tables.{write};
ghost use Rattle.checked.specs.Planning.{outline, plan_of};
ghost use Rattle.checked.specs.Views.{said};

use crate::parts::Parts;
use crate::plan::Plan;

// A table by value that keeps every rule, with the plan for its cycles, and how many bytes it is written in.
#[derive(Clone, Copy)]
pub struct Table {
    pub parts: Parts,
    pub plan: Plan,
    pub size: usize,
    ghost lawful: { sound (said parts) ≡ true },
    ghost planned: { outline plan ≡ plan_of (said parts) },
    ghost sized: { size ≡ length (write (said parts)) },
}
