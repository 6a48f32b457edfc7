// The queue: a layer that keeps up to 64 items of the source below.
ghost use Rattle.std.specs.Prelude.{◌≡◌, ◌∷◌, []};
ghost use Rattle.items.specs.Sources.{Kept, Filled};
ghost use Rattle.layers.specs.Layers as layers;
ghost use Rattle.layers.specs.Rows.{kept};

use crate::rows::Rows;
use items::cause::{End, Refusal};
use items::feed::Feed;
use items::item::{Item, Mark};
use items::source::Source;

const PLACES: usize = 64;

#[derive(Drop)]
pub struct Queue<S> {
    below: S,
    own: Rows<PLACES>,
}

impl<S: Source> Queue<S> {
    pub fn new(below: S) -> Queue<S>
        ensures means { layers.queue (kept result.own) (S.Source.meaning result.below) ≡ layers.queue [] (S.Source.meaning below) }
        ensures none { kept result.own ≡ [] }
        ensures same { result.below ≡ below }
    {
        Queue {
            below,
            own: Rows::new(),
        }
    }

    // Moves the least of n, the free places and the items that wait below from there into the queue, and answers how
    // many.
    pub fn fill(&mut self, n: usize) -> usize
        ensures kept { Kept (⟦<Queue<S> as Source>⟧.meaning self.old) (⟦<Queue<S> as Source>⟧.meaning self.new) }
        ensures filled { Filled 0 n (⟦<Queue<S> as Source>⟧.queues self.old) (Some result) (⟦<Queue<S> as Source>⟧.queues self.new) }
    {
        let most = n.min(PLACES - self.own.len());
        let mut place = Item::Marked(Mark { time: 0 });
        for moved in 0..most {
            match self.below.take(&mut place) {
                Ok(()) => self.own.push(place).unwrap(),
                Err(_) => return moved,
            }
        }
        most
    }
}

impl<S: Source> Source for Queue<S> {
    ghost meaning = { λ q. layers.queue (kept q.own) (S.Source.meaning q.below) };

    ghost queues = { λ q. layers.queued (kept q.own) (S.Source.meaning q.below) ∷ S.Source.queues q.below };

    fn take(&mut self, place: &mut Item) -> Result<(), End> {
        match self.own.pop_front() {
            Some(item) => {
                *place = item;
                Ok(())
            }
            None => self.below.take(place).map_err(End::farther),
        }
    }

    fn fill_queue(&mut self, which: usize, n: usize) -> Option<usize> {
        if which == 0 {
            Some(self.fill(n))
        } else {
            self.below.fill_queue(which - 1, n)
        }
    }
}

// A queue over a feed is a feed: what is put goes below.
impl<F: Feed> Feed for Queue<F> {
    fn room(&self) -> usize {
        self.below.room()
    }

    fn put(&mut self, item: Item) -> Result<(), Refusal> {
        self.below.put(item)
    }
}
