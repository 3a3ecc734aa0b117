//! Where a row stands in its slots, and the refusal of a row that is full.
ghost use Rattle.std.specs.Prelude.{◌≡◌, ◌+◌, ◌%◌, ◌<◌, ◌≤◌, min};
ghost use Rattle.fifo.specs.Row.{start};

/// The slot of the oldest element, and how many elements wait from there on, going round the end.
#[derive(Clone, Copy, PartialEq, Eq, Debug, Default)]
pub struct Cursor {
    pub first: usize,
    pub count: usize,
}

// What a cursor says of a row of `size` slots.
impl Cursor {
    // The slot of the oldest element.
    pub(crate) fn start(&self, size: usize) -> usize
        ensures { result ≡ start size self.now }
    {
        if self.first < size { self.first } else { 0 }
    }

    // How many elements wait.
    pub(crate) fn filled(&self, size: usize) -> usize
        ensures { result ≡ min self.now.count size }
    {
        self.count.min(size)
    }

    // The slot `by` steps after that of the oldest element, going round the end, with no division.
    pub(crate) fn slot(&self, by: usize, size: usize) -> usize
        requires some { 0 < size }
        requires turn { by ≤ size }
        ensures { result ≡ (start size self.now + by) % size }
    {
        let first = self.start(size);
        let ahead = size - first;
        if by < ahead { first + by } else { by - ahead }
    }
}

/// As many elements wait as there are slots.
#[derive(Clone, Copy, PartialEq, Eq, Debug)]
pub struct Full;
