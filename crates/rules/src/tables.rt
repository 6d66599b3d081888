// The seven lent tables as one value: they are one heap, and travel together. What they hold is in specs/Heap. Entries are C's numbers, on a damaged heap
// any: a kind, flags, or a reference, which is empty at 0 and a cell's number plus 1 otherwise.
ghost use Rattle.std.specs.Prelude.{◌≡◌};
ghost use Rattle.rules.specs.Heap.{Heap};
ghost use Rattle.rules.specs.Tables.{heap_of, lent};

// The tables, to be read. Two structs: `vek_audit` has only shared tables, so one would ask more of it.
#[derive(Clone, Copy)]
pub struct Tables<'a> {
    pub kind: &'a [u16],
    pub flags: &'a [u16],
    pub count: &'a [u16],
    pub slots: &'a [u16],
    pub roots: &'a [u16],
    pub queue: &'a [u16],
    pub control: &'a [u16],
}

// The tables, to be written. Who is lent these ensures `SameTables`: without it an entry for C would not know that what C lent was written.
#[derive(Drop)]
pub struct TablesMut<'a> {
    pub kind: &'a mut [u16],
    pub flags: &'a mut [u16],
    pub count: &'a mut [u16],
    pub slots: &'a mut [u16],
    pub roots: &'a mut [u16],
    pub queue: &'a mut [u16],
    pub control: &'a mut [u16],
}

// Tables that a function only reads: lent to be read, or to be written. Who asks for these asks no caller for more than the other.
pub trait Readable {
    ghost heap: { Self → Heap };

    fn read(&self) -> Tables<'_>
        ensures { heap_of result ≡ heap self.now };
}

impl Readable for Tables<'_> {
    ghost heap = { heap_of };

    fn read(&self) -> Tables<'_> {
        *self
    }
}

impl Readable for TablesMut<'_> {
    ghost heap = { lent };

    fn read(&self) -> Tables<'_> {
        self.shared()
    }
}

impl TablesMut<'_> {
    // As they stand. Not a From, which would take the tables: they are lent on, and written again afterwards.
    pub fn shared(&self) -> Tables<'_>
        ensures { heap_of result ≡ lent self.now }
    {
        Tables {
            kind: self.kind,
            flags: self.flags,
            count: self.count,
            slots: self.slots,
            roots: self.roots,
            queue: self.queue,
            control: self.control,
        }
    }
}
