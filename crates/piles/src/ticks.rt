// A clock that ticks so many times, a millisecond apart.
ghost use Rattle.std.specs.Prelude.{◌≡◌, ◌+◌, ◌^◌, ◌≤◌, []};
ghost use Rattle.piles.specs.Ticking.{ticking, ticking_within};

use items::cause::End;
use items::item::{Item, Mark, TIMES};
use items::source::Source;

#[derive(Clone, Copy)]
pub struct Ticks {
    next: u64,
    left: u64,
    ghost timely: { next + left ≤ 2 ^ 40 },
}

impl Ticks {
    // Marks from a time on, as many as are asked for; none where one of them would be no time.
    pub fn new(next: u64, left: u64) -> Ticks
        ensures { ticking result.next result.left ≡ ticking_within next left }
    {
        if next <= TIMES && left <= TIMES - next {
            Ticks { next, left }
        } else {
            Ticks { next: 0, left: 0 }
        }
    }
}

impl Source for Ticks {
    ghost meaning = { λ t. ticking t.next t.left };

    ghost queues = { λ _. [] };

    fn take(&mut self, place: &mut Item) -> Result<(), End> {
        if self.left == 0 {
            return Err(End::Dry);
        }
        *place = Item::Marked(Mark { time: self.next });
        self.next += 1;
        self.left -= 1;
        Ok(())
    }

    fn fill_queue(&mut self, _which: usize, _n: usize) -> Option<usize> {
        None
    }
}
