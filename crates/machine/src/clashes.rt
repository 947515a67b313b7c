//! The accesses of a step, and which of them race with earlier ones.
//!
//! Of the accesses of one place a fixed number of words is kept, in place of the list of all: while no race has come, a
//! place that was written has accesses of one group alone, and in a phase of that group in which it was written those of
//! one item alone. A phase of a group is the time between two of its barriers.

/// Who makes an access, and when: the item with its group, how many barriers the group has passed, and the step.
#[derive(Clone, Copy)]
pub struct Visit {
    pub item: u32,
    pub group: u32,
    pub passed: u32,
    pub step: u32,
}

/// An access: the item, and the step in which it came.
#[derive(Clone, Copy)]
struct Mark {
    item: u32,
    step: u32,
}

/// The items of the first and the last write, and the phase of the last one.
#[derive(Clone, Copy)]
struct Writes {
    first: u32,
    last: u32,
    phase: u32,
}

/// What is kept of the accesses of one place: the group and the item of the first one, the first one of another group,
/// of the last phase in which the first group accessed the place the first one and the first one of another item, and
/// the writes.
#[derive(Clone, Copy)]
pub struct Marks {
    group: u32,
    first: u32,
    foreign: Option<Mark>,
    phase: u32,
    one: Mark,
    two: Option<Mark>,
    writes: Option<Writes>,
}

impl Visit {
    fn access(self) -> Mark {
        Mark {
            item: self.item,
            step: self.step,
        }
    }
}

/// The item of the earlier one of two accesses.
fn earlier(a: Option<Mark>, b: Option<Mark>) -> Option<u32> {
    match (a, b) {
        (Some(a), Some(b)) if b.step < a.step => Some(b.item),
        (Some(a), _) => Some(a.item),
        (None, b) => Some(b?.item),
    }
}

impl Marks {
    /// A place that is accessed for the first time.
    fn begun(visit: Visit) -> Marks {
        Marks {
            group: visit.group,
            first: visit.item,
            foreign: None,
            phase: visit.passed,
            one: visit.access(),
            two: None,
            writes: None,
        }
    }

    /// The first access of another item of the first group in this phase.
    fn in_phase(&self, visit: Visit) -> Option<Mark> {
        if self.phase != visit.passed {
            None
        } else if self.one.item != visit.item {
            Some(self.one)
        } else {
            self.two
        }
    }

    /// The item of the first access with which this one races, if there is one.
    fn race(&self, visit: Visit, write: bool) -> Option<u32> {
        if write {
            return if self.group != visit.group {
                Some(self.first)
            } else {
                earlier(self.foreign, self.in_phase(visit))
            };
        }
        let writes = self.writes?;
        if self.group != visit.group {
            Some(writes.first)
        } else if writes.phase == visit.passed && writes.last != visit.item {
            Some(writes.last)
        } else {
            None
        }
    }

    /// With one access more.
    fn accessed(self, visit: Visit) -> Marks {
        let mut marks = self;
        if self.group != visit.group {
            marks.foreign = Some(self.foreign.unwrap_or(visit.access()));
        } else if self.phase != visit.passed {
            marks.phase = visit.passed;
            marks.one = visit.access();
            marks.two = None;
        } else if self.one.item != visit.item {
            marks.two = Some(self.two.unwrap_or(visit.access()));
        }
        marks
    }

    /// With one write more.
    fn written(self, visit: Visit) -> Marks {
        let first = match self.writes {
            Some(writes) => writes.first,
            None => visit.item,
        };
        let writes = Writes {
            first,
            last: visit.item,
            phase: visit.passed,
        };
        Marks {
            writes: Some(writes),
            ..self
        }
    }
}

/// The item of the first access with which this one races, if there is one.
pub fn first_clash(marks: Option<Marks>, visit: Visit, write: bool) -> Option<u32> {
    marks?.race(visit, write)
}

/// What is kept with one access more, which races with none.
pub fn noted(marks: Option<Marks>, visit: Visit, write: bool) -> Marks {
    let marks = match marks {
        Some(marks) => marks.accessed(visit),
        None => Marks::begun(visit),
    };
    if write { marks.written(visit) } else { marks }
}
