// The interface of what gives items.
ghost use Rattle.std.specs.Prelude.{List};
ghost use Rattle.items.specs.Sources.{Meaning, Queued, Took, Gave, Kept, Filled};

use crate::cause::End;
use crate::item::Item;

pub trait Source {
    // The items that wait, the end and the room.
    ghost meaning: { Self → Meaning };

    // The queues that it is made of, from the top down.
    ghost queues: { Self → List Queued };

    // Puts the first item that waits into the place; where none waits, answers the end.
    // A caller lends the place, in fixed memory of its own: that is a rule of the project.
    fn take(&mut self, place: &mut Item) -> Result<(), End>
        ensures took { Took (meaning self.old) place.old result (meaning self.new) place.new }
        ensures gave { Gave 1 (queues self.old) (queues self.new) };

    // Fills the queue that is named, counted from the top, with at most n items from below it, and answers how many
    // were moved; none where there is no such queue.
    // It has no body here: one that answers none would be wrong for a source that has queues.
    fn fill_queue(&mut self, which: usize, n: usize) -> Option<usize>
        ensures kept { Kept (meaning self.old) (meaning self.new) }
        ensures filled { Filled which n (queues self.old) result (queues self.new) };
}
