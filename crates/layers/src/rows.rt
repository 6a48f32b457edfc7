// Items in fixed memory, as plain rows, the first one first. An item is made of its row again, after a check.
ghost use Rattle.std.specs.Prelude.{◌≡◌, ◌≤◌, length};
ghost use Rattle.layers.specs.Whole.{WholeTo};

use fixed::Full;
use items::item::{Item, Row};

// Rows, and not items, each made an item again after a check, are the form that the project asks for.
// This is no `FixedVec`: that one takes no first value out, wants a blank of its values, and says nothing of them, where
// each row has to make an item.
#[derive(Clone, Copy)]
pub(crate) struct Rows<const N: usize> {
    rows: [Row; N],
    used: usize,
    ghost within: { used ≤ N },
    ghost long: { length rows ≡ N },
    ghost whole: { WholeTo used rows },
}

impl<const N: usize> Rows<N> {
    ghost use Rattle.std.specs.Prelude.{[], drop, slice_get};
    ghost use Rattle.fixed.specs.Pushing.{pushed, push_answer};
    ghost use Rattle.layers.specs.Rows.{kept};

    pub fn new() -> Rows<N>
        ensures { kept result ≡ [] }
    {
        Rows {
            rows: [Row::Marked(0); N],
            used: 0,
        }
    }

    pub fn len(&self) -> usize
        ensures count { result ≡ length (kept self.now) }
        ensures few { result ≤ N }
    {
        self.used
    }

    // Puts an item behind the others; refused where no place is free.
    pub fn push(&mut self, item: Item) -> Result<(), Full>
        ensures answers { result ≡ push_answer N (kept self.old) }
        ensures pushes { kept self.new ≡ pushed N item (kept self.old) }
    {
        if self.used == N {
            return Err(Full);
        }
        self.rows[self.used] = item.row();
        self.used += 1;
        Ok(())
    }

    // Takes the first item out, where there is one; the others move down.
    pub fn pop_front(&mut self) -> Option<Item>
        ensures answers { result ≡ slice_get (kept self.old) 0 }
        ensures drops { kept self.new ≡ drop 1 (kept self.old) }
    {
        if self.used == 0 {
            return None;
        }
        let first = self.rows[0];
        self.rows.rotate_left(1);
        self.used -= 1;
        Some(first.item().unwrap())
    }
}
