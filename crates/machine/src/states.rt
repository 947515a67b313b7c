//! The states of a run: what each item still has to do, and the words of arrays and cells.
use crate::clashes::Visit;
use crate::enabled::Enabled;
use crate::plan::{Plan, plan_of};
use affine_rows::{Listed, Name};
use code_tree::{Code, CodeArray};
use expr_tree::Cell;
use run_words::words::ZERO;
use run_words::{Args, Extent, Launch, Shelf, few, launch_of, length_of, param_ranges, words_of};
use std::alloc::{AllocError, Global};
use wrap_words::{Kind, Word, of_number};

/// A run has at most so many words: of arrays, of local and private cells, and for each item its loop variables and one
/// more.
pub const MAX_WORDS: u64 = 16_777_216;

/// One place of an array or a cell.
#[derive(Clone, Copy)]
pub struct Touch {
    pub cell: Cell,
    pub index: i64,
}

/// What a code and its arguments say of a run: its tasks and cells, the numbers of the parameters, the launch numbers, how
/// many numbers of its own an item has, its axes before its loop variables, and the rows of words. These are the arrays, of
/// which there is one copy, the local cells, one a group, and the private cells, one an item; the first two sorts are
/// common to items.
#[derive(Drop)]
pub struct Setup {
    pub plan: Plan,
    pub params: Vec<i64>,
    pub launch: Launch,
    pub own: u32,
    pub rows: Vec<Extent>,
    pub arrays: usize,
    pub common: usize,
}

/// The number of a parameter.
fn param_of(names: &Listed<Name>, args: &Args, var: u32) -> i64 {
    match names.get(var as usize) {
        Some(name) => args.number(name).unwrap_or(0),
        None => 0,
    }
}

/// The rows of words. An array without a line has no place.
fn rows_of(
    alloc: Global,
    code: &Code,
    cells: &[(Kind, u32)],
    args: &Args,
    launch: &Launch,
) -> Result<Vec<Extent>, AllocError> {
    let mut rows = Vec::new(alloc);
    for array in code.arrays.as_slice() {
        let length = length_of(args.count(&array.name).unwrap_or(0));
        rows.push(Extent { copies: 1, length })?;
    }
    for at in 0..cells.len() {
        let copies = if at < code.locals.len() {
            few(launch.groups())
        } else {
            few(launch.items())
        };
        let length = cells[at].1;
        rows.push(Extent { copies, length })?;
    }
    Ok(rows)
}

/// What a run of the code needs. It takes the number 0 where the arguments have no line.
pub fn setup_of(alloc: Global, code: &Code, args: &Args) -> Result<Setup, AllocError> {
    let mut params = Vec::new(alloc);
    for var in code.params.as_slice() {
        params.push(param_of(&code.names, args, *var))?;
    }
    let ranges = param_ranges(alloc, params.as_slice())?;
    let launch = launch_of(code, ranges.as_slice());
    let plan = plan_of(alloc, code)?;
    let rows = rows_of(alloc, code, plan.cells.as_slice(), args, &launch)?;
    Ok(Setup {
        plan,
        launch,
        own: length_of(code.names.len().saturating_sub(params.len())),
        params,
        rows,
        arrays: code.arrays.len(),
        common: code.arrays.len().saturating_add(code.locals.len()),
    })
}

impl Setup {
    /// Whether a run has at most as many words as it may have.
    pub fn fits(&self) -> bool {
        let loops = u64::from(self.own.saturating_sub(self.launch.axes));
        let own = self.launch.items().saturating_mul(loops.saturating_add(1));
        words_of(self.rows.as_slice()).saturating_add(own) <= MAX_WORDS
    }

    /// The row of an array or a cell, the arrays before the cells.
    pub fn row_of(&self, cell: Cell) -> usize {
        match cell {
            Cell::Array(place) if (place as usize) < self.arrays => place as usize,
            Cell::Array(_) => usize::MAX,
            Cell::Temp(place) => self.arrays.saturating_add(place as usize),
        }
    }

    /// The copy of a row that an item has.
    pub fn copy_of(&self, visit: Visit, row: usize) -> u32 {
        if row < self.arrays {
            0
        } else if row < self.common {
            visit.group
        } else {
            visit.item
        }
    }
}

/// Whether a run of the code has at most as many words as it may have.
pub fn fits_words(alloc: Global, code: &Code, args: &Args) -> Result<bool, AllocError> {
    Ok(setup_of(alloc, code, args)?.fits())
}

/// What an item does next: the task at a place, or nothing where there is none; or it waits at a barrier.
#[derive(Clone, Copy, PartialEq, Eq)]
pub enum Spot {
    Does(usize),
    Waits(usize),
}

impl Spot {
    /// The place of the task.
    pub fn task(self) -> usize {
        match self {
            Spot::Does(task) | Spot::Waits(task) => task,
        }
    }
}

/// A group: how many barriers it has passed, and how many of its items may step.
#[derive(Clone, Copy)]
pub struct Group {
    pub passed: u32,
    pub busy: u32,
}

/// All that items read and write, and what they still have to do: the rows of words, none where nothing was written to a
/// local cell; of each item its own numbers and what it does next; the groups; which items may step, how many have not
/// ended, and how many steps were made.
#[derive(Drop)]
pub struct Store {
    pub setup: Setup,
    pub words: Shelf<Option<Word>>,
    pub numbers: Shelf<i64>,
    pub spots: Vec<Spot>,
    pub groups: Vec<Group>,
    pub enabled: Enabled,
    pub left: u32,
    pub steps: u32,
}

/// Gives the row of an array the words of its line.
fn fill(words: &mut Shelf<Option<Word>>, row: usize, array: &CodeArray, args: &Args) {
    if let Some(number) = args.number(&array.name) {
        let word = of_number(array.kind, i128::from(number));
        words.put(0, row, 0, Some(word));
    }
    if let Some(numbers) = args.list(&array.name) {
        let mut index: i64 = 0;
        for number in numbers {
            words.put(0, row, index, Some(of_number(array.kind, *number)));
            index = index.saturating_add(1);
        }
    }
}

/// The words of the arguments, and cells as they begin: local ones unset, private ones at 0.
fn words_at_first(
    alloc: Global,
    code: &Code,
    args: &Args,
    setup: &Setup,
) -> Result<Shelf<Option<Word>>, AllocError> {
    let mut words = Shelf::new(alloc, setup.rows.as_slice(), Some(ZERO))?;
    let arrays = code.arrays.as_slice();
    for row in 0..arrays.len() {
        fill(&mut words, row, &arrays[row], args);
    }
    for row in setup.arrays..setup.common {
        for group in 0..few(setup.launch.groups()) {
            words.fill(group, row, None);
        }
    }
    Ok(words)
}

/// The items' own numbers, with those of their axes.
fn numbers_at_first(alloc: Global, setup: &Setup) -> Result<Shelf<i64>, AllocError> {
    let items = few(setup.launch.items());
    let own = Extent {
        copies: items,
        length: setup.own,
    };
    let mut numbers = Shelf::new(alloc, &[own], 0)?;
    for item in 0..items {
        let axes = setup.launch.axes_of(item);
        for axis in 0..setup.launch.axes.min(6) {
            numbers.put(item, 0, i64::from(axis), axes[axis as usize]);
        }
    }
    Ok(numbers)
}

impl Store {
    /// The words as they begin, and items before their first task.
    pub fn new(alloc: Global, code: &Code, args: &Args, setup: Setup) -> Result<Store, AllocError> {
        let groups = few(setup.launch.groups()) as usize;
        let items = few(setup.launch.items());
        let begins = !setup.plan.tasks.is_empty();
        let group = Group {
            passed: 0,
            busy: if begins { setup.launch.size() } else { 0 },
        };
        Ok(Store {
            words: words_at_first(alloc, code, args, &setup)?,
            numbers: numbers_at_first(alloc, &setup)?,
            spots: vec![in alloc; Spot::Does(0); items as usize]?,
            groups: vec![in alloc; group; groups]?,
            enabled: Enabled::new(alloc, items, begins)?,
            left: if begins { items } else { 0 },
            steps: 0,
            setup,
        })
    }

    /// The word of a place, none outside its array or cell, and where a local cell was not written.
    pub fn word_in(&self, visit: Visit, touch: Touch) -> Option<Word> {
        let row = self.setup.row_of(touch.cell);
        let copy = self.setup.copy_of(visit, row);
        self.words.get(copy, row, touch.index)?
    }

    /// Whether a place is outside its array or cell.
    pub fn is_outside(&self, touch: Touch) -> bool {
        let size = self.words.size(self.setup.row_of(touch.cell));
        touch.index < 0 || touch.index as usize >= size
    }

    /// Puts a word at a place.
    pub fn put(&mut self, visit: Visit, touch: Touch, word: Word) {
        let row = self.setup.row_of(touch.cell);
        let copy = self.setup.copy_of(visit, row);
        self.words.put(copy, row, touch.index, Some(word));
    }

    /// An item's private cells are 0, so many of them from the first one on.
    pub fn zero(&mut self, item: u32, first: usize, cells: usize) {
        let first = self.setup.arrays.saturating_add(first);
        for row in first..first.saturating_add(cells) {
            self.words.fill(item, row, Some(ZERO));
        }
    }

    /// What an item does next.
    pub fn spot(&self, item: u32) -> Spot {
        let spot = self.spots.get(item as usize);
        spot.copied().unwrap_or(Spot::Does(usize::MAX))
    }

    /// What an item does next from now on.
    pub fn set_spot(&mut self, item: u32, spot: Spot) {
        if (item as usize) < self.spots.len() {
            self.spots[item as usize] = spot;
        }
    }

    /// A group.
    pub fn group(&self, group: u32) -> Group {
        let state = self.groups.get(group as usize);
        state.copied().unwrap_or(Group { passed: 0, busy: 0 })
    }

    /// The group is so from now on.
    pub fn set_group(&mut self, group: u32, state: Group) {
        if (group as usize) < self.groups.len() {
            self.groups[group as usize] = state;
        }
    }
}
