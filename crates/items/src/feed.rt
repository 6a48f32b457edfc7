// The interface of a source that can be fed.
ghost use Rattle.std.specs.Prelude.{◌≡◌};
ghost use Rattle.items.specs.Sources as sources;

use crate::cause::Refusal;
use crate::item::Item;
use crate::source::Source;

pub trait Feed: Source {
    // The number of free places.
    fn room(&self) -> usize
        ensures { result ≡ (Self.Source.meaning self.now).room };

    // Appends an item to those that wait; refused where no place is free.
    fn put(&mut self, item: Item) -> Result<(), Refusal>
        ensures answers { sources.numbered result ≡ sources.put_answer (Self.Source.meaning self.old) }
        ensures appends { Self.Source.meaning self.new ≡ sources.put (Self.Source.meaning self.old) item }
        ensures queues { Self.Source.queues self.new ≡ sources.put_queues (Self.Source.meaning self.old) item (Self.Source.queues self.old) };
}
