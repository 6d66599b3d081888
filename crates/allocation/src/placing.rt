// NEW: the lowest free cell is placed in an empty root.
// `as` narrows here what is known to fit: a TryFrom would leave a way out that is never taken.
ghost use Rattle.std.specs.Prelude.{List, ◌≡◌, ℕ, ◌<◌, length};
ghost use Rattle.numbers.specs.Numbers.{AsCell};
ghost use Rattle.rules.specs.Heap.{Heap, tables};
ghost use Rattle.rules.specs.Tables.{lent, SameTables};
ghost use Rattle.rules.specs.Sound.{Ready};
ghost use Rattle.rules.specs.Calls.{answers};
ghost use Rattle.rules.specs.Refused.{answer_of};
ghost use Rattle.rules.specs.Refusals.{lowest_free};
ghost use Rattle.rules.specs.Refusals.Call.{NEW};
ghost use Rattle.laws.specs.Calls.Inner.{Ran};
ghost use Rattle.allocation.specs.Places.{Placed, Placeable, Chosen};

use crate::shape::Shape;
use numbers::{Cell, Root};
use rules::refusal::Refusal;
use rules::tables::TablesMut;
use rules::{Answer, DONE};

// The lowest free cell, if one is free.
fn lowest_free(kind: &[u16]) -> Option<Cell>
    ensures { AsCell (lowest_free kind.now) (length kind.now) result }
{
    let free = kind.iter().position(|k| *k == 0)?;
    Cell::of(free, kind.len())
}

// A free cell comes into use with count 1, held by a root.
fn place(tables: &mut TablesMut, cell: Cell, to: Root, shape: Shape)
    requires { Placeable (lent tables.old) cell.0 to.0 }
    ensures same { SameTables tables.old tables.new }
    ensures placed { Placed (lent tables.old) cell.0 to.0 shape (lent tables.new) }
{
    let c = cell.index();
    tables.kind[c] = shape.kind();
    tables.flags[c] = shape.flags();
    tables.count[c] = 1;
    tables.roots[to.index()] = cell.reference();
}

// The answer of a NEW done.
fn made(cell: Cell) -> Answer
    requires { cell.0 < 65536 }
    ensures { result ≡ answers 0 0 0 cell.0 }
{
    Answer {
        refused: DONE,
        freed: 0,
        queued: 0,
        cell: cell.index() as u16,
    }
}

// What a new cell is to be, and where it goes.
#[derive(Clone, Copy)]
struct Choice {
    cell: Cell,
    to: Root,
    shape: Shape,
}

// What NEW decides before anything is written. It reads two tables alone, so that it decides for tables that are one value and for a list of them.
fn choose(
    kind: &[u16],
    roots: &[u16],
    root: usize,
    wanted: usize,
    finalizer: usize,
) -> Result<Choice, Refusal>
    requires { length roots.now ≡ 64 }
    ensures { (h : Heap) → h.kind ≡ kind.now → h.roots ≡ roots.now → Chosen h root wanted finalizer result }
{
    let to = Root::of(root).ok_or(Refusal::Number)?;
    let shape = Shape::of(wanted, finalizer).ok_or(Refusal::Number)?;
    if roots[to.index()] != 0 {
        return Err(Refusal::Taken);
    }
    let cell = lowest_free(kind).ok_or(Refusal::Full)?;
    Ok(Choice { cell, to, shape })
}

// NEW on a sound heap: the lowest free cell, with count 1, is placed in an empty root.
pub fn new(
    tables: &mut TablesMut,
    root: usize,
    wanted: usize,
    finalizer: usize,
) -> Result<Answer, Refusal>
    requires { Ready (lent tables.old) }
    ensures same { SameTables tables.old tables.new }
    ensures ran { (room : List ℕ) → Ran (NEW root wanted finalizer) (lent tables.old) room (lent tables.new) room (answer_of result) }
{
    let now = tables.shared();
    let choice = choose(now.kind, now.roots, root, wanted, finalizer)?;
    place(tables, choice.cell, choice.to, choice.shape);
    Ok(made(choice.cell))
}

// NEW where the tables that it only reads are shared: it writes neither slots, queue nor control.
pub fn new_shared(
    kind: &mut [u16],
    flags: &mut [u16],
    count: &mut [u16],
    slots: &[u16],
    roots: &mut [u16],
    queue: &[u16],
    control: &[u16],
    root: usize,
    wanted: usize,
    finalizer: usize,
) -> Result<Answer, Refusal>
    requires { Ready (tables kind.old flags.old count.old slots.now roots.old queue.now control.now) }
    ensures { (room : List ℕ) → Ran (NEW root wanted finalizer)
        (tables kind.old flags.old count.old slots.now roots.old queue.now control.now) room
        (tables kind.new flags.new count.new slots.now roots.new queue.now control.now) room (answer_of result) }
{
    let choice = choose(kind, roots, root, wanted, finalizer)?;
    let mut written = TablesMut {
        kind,
        flags,
        count,
        slots: &mut [],
        roots,
        queue: &mut [],
        control: &mut [],
    };
    place(&mut written, choice.cell, choice.to, choice.shape);
    Ok(made(choice.cell))
}
