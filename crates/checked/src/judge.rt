// The fields that were gathered are judged by the rules on reading.
ghost use Rattle.std.specs.Prelude.{◌≡◌, ◌+◌, ◌≤◌, length, Bool, ℕ, Result as Either};
ghost use Rattle.tables.specs.Kinds.{Table as Whole};
ghost use Rattle.tables.specs.Tables.{Refusal};
ghost use Rattle.checked.specs.Gathering as gathering;
ghost use Rattle.checked.specs.Judging as judging;
ghost use Rattle.checked.specs.Views.{said};

use crate::element::{Output, Trigger};
use crate::gathered::Gathered;
use crate::parts::Parts;
use tables::flaw::{Flaw, Refused};

// What may break a rule on reading.
trait Judged {
    ghost keeps: { Whole → ℕ → Self → Bool };

    // Whether it keeps the rules among the parts; an output is the stream `me`.
    fn keeps(&self, parts: &Parts, me: usize) -> bool
        ensures { result ≡ keeps (said parts.now) me self.now };
}

impl Judged for Output {
    ghost use Rattle.tables.specs.Rules.{output_keeps};
    ghost use Rattle.checked.specs.Views.{output_of};

    ghost keeps = { λ t me o. output_keeps t me (output_of o) };

    fn keeps(&self, parts: &Parts, me: usize) -> bool {
        parts.output_keeps(me, self)
    }
}

impl Judged for Trigger {
    ghost use Rattle.tables.specs.Rules.{trigger_keeps};
    ghost use Rattle.checked.specs.Views.{trigger_of};

    ghost keeps = { λ t _ g. trigger_keeps t (trigger_of g) };

    fn keeps(&self, parts: &Parts, _me: usize) -> bool {
        parts.trigger_keeps(self)
    }
}

// The first that breaks a rule is refused at its place; they count from the stream `me` on.
fn judge<T: Judged>(
    parts: &Parts,
    me: usize,
    elements: &[T],
    places: &[usize],
) -> Result<(), Refused>
    requires { me + length elements.now ≤ 256 }
    ensures { (rest : Either Whole Refusal) → judging.passed_on result rest ≡ judging.first_fault (T.keeps (said parts.now)) me elements.now places.now rest }
{
    for (i, (element, place)) in elements.iter().zip(places).enumerate() {
        if !element.keeps(parts, me + i) {
            return Err(Flaw::Reading.at(*place));
        }
    }
    Ok(())
}

impl Gathered {
    // The first field that breaks a rule is refused.
    pub(crate) fn judge(&self) -> Result<(), Refused>
        ensures { (rest : Either Whole Refusal) → judging.passed_on result rest ≡ judging.all_outputs (gathering.making self.now) (judging.all_triggers (gathering.making self.now) rest) }
    {
        let parts = &self.parts;
        let outputs = parts.outputs.as_slice();
        judge(
            parts,
            parts.inputs.len(),
            outputs,
            self.output_places.as_slice(),
        )?;
        judge(
            parts,
            0,
            parts.triggers.as_slice(),
            self.trigger_places.as_slice(),
        )
    }
}
