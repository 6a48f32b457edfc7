// The cover: a layer that lets only some inputs through.
ghost use Rattle.std.specs.Prelude.{◌≡◌};
ghost use Rattle.layers.specs.Layers as layers;

use items::cause::End;
use items::item::Item;
use items::source::Source;

// Cuts each reading of the source below to a mask.
#[derive(Drop)]
pub struct Cover<S> {
    below: S,
    mask: u8,
}

impl<S: Source> Cover<S> {
    pub fn new(below: S, mask: u8) -> Cover<S>
        ensures means { layers.cover result.mask (S.Source.meaning result.below) ≡ layers.cover mask (S.Source.meaning below) }
        ensures same { result.below ≡ below }
    {
        Cover { below, mask }
    }
}

impl<S: Source> Source for Cover<S> {
    ghost meaning = { λ c. layers.cover c.mask (S.Source.meaning c.below) };

    ghost queues = { λ c. S.Source.queues c.below };

    fn take(&mut self, place: &mut Item) -> Result<(), End> {
        self.below.take(place).map_err(End::farther)?;
        *place = place.cut(self.mask);
        Ok(())
    }

    fn fill_queue(&mut self, which: usize, n: usize) -> Option<usize> {
        self.below.fill_queue(which, n)
    }
}
