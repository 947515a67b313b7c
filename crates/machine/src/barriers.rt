//! When a barrier opens, and when a group is stuck.
use crate::plan::Task;
use crate::states::{Group, Spot, Store};

/// Whether the loops round a task have the same values for two items.
fn same_loops(tasks: &[Task], at: usize, a: &[i64], b: &[i64]) -> bool {
    let Some(task) = tasks.get(at) else {
        return true;
    };
    let is_same = match task.turn {
        Some(place) => a.get(place as usize) == b.get(place as usize),
        None => true,
    };
    match task.parent {
        Some(parent) if parent < at => is_same && same_loops(tasks, parent, a, b),
        _ => is_same,
    }
}

impl Store {
    /// Whether an item at the spot has nothing left to do.
    pub fn has_ended(&self, spot: Spot) -> bool {
        match spot {
            Spot::Does(task) => task >= self.setup.plan.tasks.len(),
            Spot::Waits(_) => false,
        }
    }

    /// Whether an item at the spot has not ended and does not wait.
    pub fn may_step(&self, spot: Spot) -> bool {
        match spot {
            Spot::Does(task) => task < self.setup.plan.tasks.len(),
            Spot::Waits(_) => false,
        }
    }

    /// Whether two items wait at one barrier with the same values of the loops round it.
    fn waits_with(&self, a: u32, b: u32) -> bool {
        match (self.spot(a), self.spot(b)) {
            (Spot::Waits(first), Spot::Waits(second)) => {
                let tasks = self.setup.plan.tasks.as_slice();
                let one = self.numbers.row(a, 0);
                first == second && same_loops(tasks, first, one, self.numbers.row(b, 0))
            }
            _ => false,
        }
    }

    /// Whether so many items from the first one on wait together.
    fn meet(&self, first: u32, size: u32) -> bool {
        for item in first..first.saturating_add(size) {
            if !self.waits_with(first, item) {
                return false;
            }
        }
        size > 0
    }

    /// Whether so many items from the first one on have ended.
    fn all_ended(&self, first: u32, size: u32) -> bool {
        for item in first..first.saturating_add(size) {
            if !self.has_ended(self.spot(item)) {
                return false;
            }
        }
        true
    }

    /// Opens the barrier at which so many items of a group wait, from the first one on.
    fn open(&mut self, group: u32, first: u32, size: u32) {
        let at = self.spot(first).task();
        let spot = match self.setup.plan.tasks.get(at) {
            Some(task) => Spot::Does(task.after),
            None => Spot::Waits(at),
        };
        let can_step = self.may_step(spot);
        for item in first..first.saturating_add(size) {
            self.set_spot(item, spot);
            self.enabled.set(item, can_step);
        }
        if !can_step {
            self.left = self.left.saturating_sub(size);
        }
        let passed = self.group(group).passed.saturating_add(1);
        let busy = if can_step { size } else { 0 };
        self.set_group(group, Group { passed, busy });
    }

    /// An item of a group no longer may step. Where it is the last one, the barrier opens if all items wait together. It
    /// tells whether the group is stuck, which it is where not all have ended either.
    pub fn rest(&mut self, group: u32, item: u32) -> bool {
        self.enabled.set(item, false);
        if self.has_ended(self.spot(item)) {
            self.left = self.left.saturating_sub(1);
        }
        let old = self.group(group);
        let busy = old.busy.saturating_sub(1);
        self.set_group(group, Group { busy, ..old });
        let size = self.setup.launch.size();
        let first = group.saturating_mul(size);
        if busy > 0 {
            false
        } else if self.meet(first, size) {
            self.open(group, first, size);
            false
        } else {
            !self.all_ended(first, size)
        }
    }
}
