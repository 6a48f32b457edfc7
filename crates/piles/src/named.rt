// A layer of one's own that keeps a vector by value, as one that works by a table keeps the table's.
ghost use Rattle.std.specs.Prelude.{◌≡◌, ◌≤◌, length, take};
ghost use Rattle.fixed.specs.Values.{values};
ghost use Rattle.piles.specs.Naming as naming;

use fixed::FixedVec;
use items::cause::End;
use items::item::Item;
use items::source::Source;

// Hands on what the source below gives, under a name of at most 16 bytes.
#[derive(Drop)]
pub struct Named<S> {
    below: S,
    name: FixedVec<u8, 16>,
}

impl<S: Source> Named<S> {
    // Of a longer name it keeps the first 16 bytes.
    pub fn new(below: S, name: &[u8]) -> Named<S>
        ensures same { result.below ≡ below }
        ensures named { values result.name ≡ take 16 name.now }
    {
        Named {
            below,
            name: FixedVec::starting(name),
        }
    }

    pub fn name(&self) -> &[u8]
        ensures { result.now ≡ values self.now.name }
    {
        self.name.as_slice()
    }

    // A law, with no code: how long a name may be is seen from its type alone.
    pub fn name_law(&self)
        ensures { length (values self.now.name) ≤ 16 }
    {}
}

impl<S: Source> Source for Named<S> {
    ghost meaning = { λ l. naming.named (S.Source.meaning l.below) };

    ghost queues = { λ l. S.Source.queues l.below };

    fn take(&mut self, place: &mut Item) -> Result<(), End> {
        self.below.take(place).map_err(End::farther)
    }

    fn fill_queue(&mut self, which: usize, n: usize) -> Option<usize> {
        self.below.fill_queue(which, n)
    }
}
