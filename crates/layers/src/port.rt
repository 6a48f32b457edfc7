// The port: a feed of 32 places.
ghost use Rattle.std.specs.Prelude.{◌≡◌, []};
ghost use Rattle.layers.specs.Layers.{empty, port};
ghost use Rattle.layers.specs.Rows.{kept};

use crate::rows::Rows;
use items::cause::{End, Refusal};
use items::feed::Feed;
use items::item::Item;
use items::source::Source;

const PLACES: usize = 32;

#[derive(Clone, Copy)]
pub struct Port {
    waits: Rows<PLACES>,
}

impl Port {
    pub fn new() -> Port
        ensures { port (kept result.waits) ≡ empty 32 }
    {
        Port { waits: Rows::new() }
    }
}

impl Source for Port {
    ghost meaning = { λ p. port (kept p.waits) };

    ghost queues = { λ _. [] };

    fn take(&mut self, place: &mut Item) -> Result<(), End> {
        *place = self.waits.pop_front().ok_or(End::Dry)?;
        Ok(())
    }

    fn fill_queue(&mut self, _which: usize, _n: usize) -> Option<usize> {
        None
    }
}

impl Feed for Port {
    fn room(&self) -> usize {
        PLACES - self.waits.len()
    }

    fn put(&mut self, item: Item) -> Result<(), Refusal> {
        self.waits.push(item).map_err(|_| Refusal::Full)
    }
}
