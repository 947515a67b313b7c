//! The steps of items.
use crate::clashes::Visit;
use crate::history::{History, Stepped};
use crate::moves::{Move, move_of};
use crate::plan::{Task, stmt_at};
use crate::seen::Sights;
use crate::states::{MAX_WORDS, Spot, Store, setup_of};
use code_tree::Code;
use kernel_ir::{Fault, Refusal, Site};
use run_words::exact::Numbers;
use run_words::words::ZERO;
use run_words::{Args, length_of};
use std::alloc::Global;
use wrap_words::Word;

/// A state of a run of a code. What is kept of the accesses stands beside the store: it decides races and nothing else.
#[derive(Drop)]
pub struct State {
    store: Store,
    history: History,
}

impl Store {
    fn visit(&self, item: u32) -> Visit {
        let group = item / self.setup.launch.size().max(1);
        Visit {
            item,
            group,
            passed: self.group(group).passed,
            step: self.steps,
        }
    }

    /// What the item would do next, none where the step meets a fault, which then stands in the history.
    fn next_move(
        &self,
        code: &Code,
        history: &mut History,
        visit: Visit,
        at: usize,
    ) -> Option<Move> {
        let tasks = self.setup.plan.tasks.as_slice();
        let stmt = stmt_at(code, tasks, at)?;
        let numbers = Numbers {
            params: self.setup.params.as_slice(),
            own: self.numbers.row(visit.item, 0),
        };
        let sights = Sights {
            code,
            store: self,
            numbers,
            visit,
        };
        move_of(tasks.get(at)?, stmt, &sights, history)
    }

    /// Into the body of a task's statement, whose private cells are then 0.
    fn enter(&mut self, item: u32, task: &Task) -> Spot {
        self.zero(item, task.first_cell, task.cells);
        Spot::Does(task.inside)
    }

    /// Does a move that met no fault. It gives what the item does next.
    fn carry_out(&mut self, visit: Visit, at: usize, task: &Task, made: Move) -> Spot {
        match made {
            Move::Past => Spot::Does(task.after),
            Move::Into => self.enter(visit.item, task),
            Move::Turn(value) => {
                let turn = i64::from(task.turn.unwrap_or(0));
                self.numbers.put(visit.item, 0, turn, value);
                self.enter(visit.item, task)
            }
            Move::Put(touch, word) => {
                self.put(visit, touch, word);
                Spot::Does(task.after)
            }
            Move::Wait => Spot::Waits(at),
        }
    }

    /// What comes of a step that met no fault before, the item being at this spot then.
    fn settled(&mut self, visit: Visit, spot: Spot) -> Stepped {
        self.steps = self.steps.saturating_add(1);
        self.set_spot(visit.item, spot);
        if !self.may_step(spot) && self.rest(visit.group, visit.item) {
            Stepped::Divergent { group: visit.group }
        } else if self.left == 0 {
            Stepped::Done
        } else {
            Stepped::Went
        }
    }

    /// Does a move that met no fault, and what follows from it.
    fn moved(&mut self, visit: Visit, at: usize, made: Move) -> Stepped {
        match self.setup.plan.tasks.get(at).copied() {
            Some(task) => {
                let spot = self.carry_out(visit, at, &task, made);
                self.settled(visit, spot)
            }
            None => Stepped::Went,
        }
    }
}

impl State {
    /// The opening state of a code. It needs arguments with a line for each parameter and array and for nothing else,
    /// and with the right counts and ranges. It is refused by rule 3 where the run has too many words.
    pub fn new(alloc: Global, code: &Code, args: &Args) -> Result<State, Fault> {
        let setup = setup_of(alloc, code, args)?;
        if !setup.fits() {
            let limit = Refusal::limit(alloc, Site::Args, "words", i128::from(MAX_WORDS))?;
            return Err(Fault::Rule(limit));
        }
        Ok(State {
            history: History::new(alloc, &setup)?,
            store: Store::new(alloc, code, args, setup)?,
        })
    }

    /// How many items all groups have.
    pub fn items(&self) -> u32 {
        length_of(self.store.spots.len())
    }

    /// Whether no step has met a fault and there is such an item, which has not ended and does not wait.
    pub fn enabled(&self, item: u32) -> bool {
        self.store.enabled.has(item)
    }

    /// How many items are enabled.
    pub fn count_enabled(&self) -> u32 {
        self.store.enabled.count()
    }

    /// The enabled item with so many enabled ones before it.
    pub fn nth_enabled(&self, before: u32) -> Option<u32> {
        self.store.enabled.nth(before)
    }

    /// The word of a place that the array has.
    pub fn word(&self, array: u32, index: u32) -> Word {
        match self.store.words.get(0, array as usize, i64::from(index)) {
            Some(word) => word.unwrap_or(ZERO),
            None => ZERO,
        }
    }

    /// How many places an array has.
    pub fn length(&self, array: u32) -> u32 {
        length_of(self.store.words.size(array as usize))
    }

    /// The number, in text order from 0, of the statement that an enabled item does next.
    pub fn at(&self, item: u32) -> u32 {
        match self
            .store
            .setup
            .plan
            .tasks
            .get(self.store.spot(item).task())
        {
            Some(task) => task.number,
            None => 0,
        }
    }

    /// One step of an enabled item. It needs the code from which the state was made, and takes no memory. After a fault no
    /// item is enabled.
    pub fn step(&mut self, code: &Code, item: u32) -> Stepped {
        let at = self.store.spot(item).task();
        let visit = self.store.visit(item);
        self.history.found = Stepped::Went;
        let made = self.store.next_move(code, &mut self.history, visit, at);
        let stepped = match (self.history.found, made) {
            (Stepped::Went, Some(made)) => self.store.moved(visit, at, made),
            (found, _) => found,
        };
        if stepped != Stepped::Went && stepped != Stepped::Done {
            self.store.enabled.clear();
        }
        stepped
    }
}
