// What is found on a shelf. specs/Found.antt gives each its meaning.

// The end record: how many records stand before it, and its place.
#[derive(Clone, Copy)]
pub struct End {
    pub records: usize,
    pub place: usize,
}

// There is no end record.
#[derive(Clone, Copy)]
pub struct NoEnd;

// Where a record stands on the shelf, and how many bytes it has.
#[derive(Clone, Copy)]
pub struct Extent {
    pub place: usize,
    pub size: usize,
}
