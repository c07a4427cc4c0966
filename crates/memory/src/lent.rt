// Memory that its maker passes in.
ghost use Rattle.std.specs.Prelude.{◌≡◌, [], length};

use crate::{Memory, StorageRefusal, cells};
use std::marker::Model;

// The first len cells of a slice, whose length is the capacity.
#[derive(Drop)]
pub struct Lent<'a, T> {
    cells: &'a mut [T],
    len: usize,
}

impl<'a, T> Model for Lent<'a, T> {
    ghost use Rattle.std.specs.Prelude.{◌≤◌, length, take};
    ghost use Rattle.memory.specs.Contents.{Contents};

    ghost Value = { Contents T };

    ghost view = { λ m. record { items = take m.len m.cells.now; room = length m.cells.now } };

    ghost invariant = { λ m. m.len ≤ length m.cells.now };
}

impl<'a, T> Lent<'a, T> {
    // Nothing is held yet.
    pub fn new(cells: &'a mut [T]) -> Lent<'a, T>
        ensures { result ≡ record { items = []; room = length cells.old } }
    {
        Lent { cells, len: 0 }
    }
}

impl<'a, T: Copy> Memory<T> for Lent<'a, T> {
    ghost items = { λ m. m.items };

    ghost room = { λ m. m.room };

    fn len(&self) -> usize {
        self.len
    }

    fn capacity(&self) -> usize {
        self.cells.len()
    }

    fn read(&self, place: usize) -> Result<T, StorageRefusal> {
        cells::read(&self.cells[..self.len], place)
    }

    fn write(&mut self, place: usize, x: T) -> Result<(), StorageRefusal> {
        cells::write(&mut self.cells[..self.len], place, x)
    }

    fn push(&mut self, x: T) -> Result<(), StorageRefusal> {
        cells::write(self.cells, self.len, x).map_err(|_| StorageRefusal::AtCapacity)?;
        self.len += 1;
        Ok(())
    }

    fn truncate(&mut self, n: usize) {
        self.len = self.len.min(n);
    }
}
