ghost use Rattle.std.specs.Prelude.{◌≡◌, if◌then◌else◌};
ghost use Rattle.step_orders.specs.Orders.{AreSteps, after_step, after_steps};
ghost use Rattle.step_orders.specs.Additions.{FreeWhereUnread, additions, same_cell, word_at};

/// A cell of the store.
#[derive(Clone, Copy, Debug, PartialEq, Eq)]
pub enum Cell {
    First,
    Second,
    Third,
}

/// The words of three cells.
#[derive(Clone, Copy, Debug, PartialEq, Eq)]
pub struct Store {
    pub first: u64,
    pub second: u64,
    pub third: u64,
}

/// A step: the word of `from` is added to that of `into`, modulo 2^64.
#[derive(Clone, Copy, Debug, PartialEq, Eq)]
pub struct Addition {
    pub into: Cell,
    pub from: Cell,
}

/// The word of the cell.
fn word(store: Store, cell: Cell) -> u64
    ensures { result ≡ word_at store cell }
{
    match cell {
        Cell::First => store.first,
        Cell::Second => store.second,
        Cell::Third => store.third,
    }
}

/// The store with another word in the cell.
fn with_word(store: Store, cell: Cell, word: u64) -> Store
    ensures { (c : Cell) → word_at result c ≡ (if same_cell cell c then word else word_at store c) }
{
    match cell {
        Cell::First => Store {
            first: word,
            ..store
        },
        Cell::Second => Store {
            second: word,
            ..store
        },
        Cell::Third => Store {
            third: word,
            ..store
        },
    }
}

/// The store after one step.
fn after(store: Store, step: Addition) -> Store
    ensures { (c : Cell) → word_at result c ≡ after_step additions step (word_at store) c }
{
    let sum = word(store, step.into).wrapping_add(word(store, step.from));
    with_word(store, step.into, sum)
}

/// The store after the steps, one after the other.
pub fn run(steps: &[Addition], store: Store) -> Store
    ensures { (c : Cell) → word_at result c ≡ after_steps additions steps.now (word_at store) c }
{
    let mut reached = store;
    for step in steps {
        reached = after(reached, *step);
    }
    reached
}

/// Additions meet what the law of like orders asks of steps, and two of them are free of conflict
/// where neither reads the cell into which the other adds, be it one cell or two.
pub fn additions_are_steps()
    ensures steps { AreSteps additions }
    ensures free { FreeWhereUnread }
{}
