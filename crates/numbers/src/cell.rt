// A cell's number. `as` narrows here what is known to fit: a TryFrom would leave a way out that is never taken.
ghost use Rattle.std.specs.Prelude.{◌+◌, ◌<◌, ◌≡◌};
ghost use Rattle.numbers.specs.Numbers.{AsCell};

// A cell's number, below the number of cells. That is known only as the program runs, so this is no `Below`.
#[derive(Clone, Copy)]
pub struct Cell(usize);

impl Cell {
    pub fn of(x: usize, cells: usize) -> Option<Cell>
        ensures { AsCell x cells result }
    {
        if x < cells { Some(Cell(x)) } else { None }
    }

    pub fn index(self) -> usize
        ensures { result ≡ self.0 }
    {
        self.0
    }

    // The reference that names the cell.
    pub fn reference(self) -> u16
        requires { self.0 < 65535 }
        ensures { result ≡ self.0 + 1 }
    {
        self.index() as u16 + 1
    }
}
