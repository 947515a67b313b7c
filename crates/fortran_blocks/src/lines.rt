//! The text of a kernel file that says what a block says.
use crate::scope::Scope;
use affine_rows::{Listed, Name};
use fortran_syntax::{Declared, Intent, Stated, Statement};
use kernel_grammar::Step;
use kind_faults::kind_word;
use std::alloc::{AllocError, Global};
use text_writer::{put, put_digits, put_gap};
use wrap_words::Kind;

/// A kernel has at most so many instructions, so a line past it is refused.
const MAX_INSNS: u64 = 64;

/// The text of a kernel file, and for each line of it the line that it stands for.
#[derive(Drop)]
pub(crate) struct BlockText {
    pub(crate) text: Vec<u8>,
    pub(crate) lines: Vec<u32>,
}

/// The text so far, the count of its instructions, and what names stand for.
#[derive(Drop)]
struct Lines {
    made: BlockText,
    insns: u64,
    scope: Scope,
}

/// Adds expressions with `,` between them, in brackets.
fn put_places(
    alloc: Global,
    out: &mut Vec<u8>,
    scope: &Scope,
    places: Listed<Listed<Step>>,
) -> Result<(), AllocError> {
    if places.is_empty() {
        return Ok(());
    }
    put(out, "[")?;
    let mut first = true;
    for place in places.into_vec() {
        put_gap(out, first, ", ")?;
        scope.spelled(alloc, place)?.put(out)?;
        first = false;
    }
    put(out, "]")
}

/// Adds the ids of the instructions, of which there are so many.
fn put_ids(out: &mut Vec<u8>, insns: u64) -> Result<(), AllocError> {
    for at in 0..insns {
        put_gap(out, at == 0, ":")?;
        put(out, "insn_")?;
        put_digits(out, at)?;
    }
    Ok(())
}

/// Adds the inames of the open loops, if there are any.
fn put_inames(out: &mut Vec<u8>, open: &[(usize, Name)]) -> Result<(), AllocError> {
    let mut gap = ", inames=";
    for (_, iname) in open {
        put(out, gap)?;
        put(out, iname.as_str())?;
        gap = ":";
    }
    Ok(())
}

/// Adds a line that declares a parameter.
fn put_parameter(out: &mut Vec<u8>, name: &Name) -> Result<(), AllocError> {
    put(out, "domain [")?;
    put(out, name.as_str())?;
    put(out, "] -> {[]}")
}

/// Adds a line that declares a name twice, which is taken then.
fn put_twice(out: &mut Vec<u8>, name: &Name) -> Result<(), AllocError> {
    put(out, "domain [] -> {[")?;
    put(out, name.as_str())?;
    put(out, ", ")?;
    put(out, name.as_str())?;
    put(out, "]}")
}

/// Adds what a line declares, by the word before it, and its kind.
fn put_declared(out: &mut Vec<u8>, word: &str, name: &Name, kind: Kind) -> Result<(), AllocError> {
    put(out, word)?;
    put(out, name.as_str())?;
    put(out, " : ")?;
    put(out, kind_word(kind))
}

/// The word before an array.
fn array_word(intent: Intent) -> &'static str {
    match intent {
        Intent::In => "input ",
        Intent::Local | Intent::Stored => "output ",
    }
}

impl Lines {
    /// Ends a line of the text, which stands for this one.
    fn end(&mut self, line: u32) -> Result<(), AllocError> {
        put(&mut self.made.text, "\n")?;
        self.made.lines.push(line)?;
        Ok(())
    }

    /// Adds a declared scalar. A variable of a loop is no temporary.
    fn declare_scalar(
        &mut self,
        alloc: Global,
        line: u32,
        kind: Kind,
        intent: Intent,
        name: &Name,
    ) -> Result<(), AllocError> {
        if intent != Intent::In && self.scope.is_variable(name) {
            if self.scope.declare_variable(alloc, name)? {
                return Ok(());
            }
            put_twice(&mut self.made.text, name)?;
        } else if !self.scope.declare(alloc, name)? {
            put_twice(&mut self.made.text, name)?;
        } else if intent == Intent::In {
            put_parameter(&mut self.made.text, name)?;
        } else {
            put_declared(&mut self.made.text, "temp ", name, kind)?;
        }
        self.end(line)
    }

    /// Adds a declared array. One whose name is taken is refused for it, unless its shape is refused first.
    fn declare_array(
        &mut self,
        alloc: Global,
        line: u32,
        kind: Kind,
        intent: Intent,
        item: Declared,
    ) -> Result<(), AllocError> {
        let Declared { name, shape } = item;
        if !self.scope.declare(alloc, &name)? && self.scope.is_variable(&name) {
            put_twice(&mut self.made.text, &name)?;
            return self.end(line);
        }
        put_declared(&mut self.made.text, array_word(intent), &name, kind)?;
        put_places(alloc, &mut self.made.text, &self.scope, shape)?;
        self.end(line)
    }

    /// Adds a declared item.
    fn declare(
        &mut self,
        alloc: Global,
        line: u32,
        kind: Kind,
        intent: Intent,
        item: Declared,
    ) -> Result<(), AllocError> {
        if item.shape.is_empty() {
            self.declare_scalar(alloc, line, kind, intent, &item.name)
        } else {
            self.declare_array(alloc, line, kind, intent, item)
        }
    }

    /// Adds declared items.
    fn declare_all(
        &mut self,
        alloc: Global,
        line: u32,
        kind: Kind,
        intent: Intent,
        items: Listed<Declared>,
    ) -> Result<(), AllocError> {
        for item in items.into_vec() {
            self.declare(alloc, line, kind, intent, item)?;
        }
        Ok(())
    }

    /// Adds the domain of a loop, which is opened.
    fn begin_loop(
        &mut self,
        alloc: Global,
        line: u32,
        var: &Name,
        lower: Listed<Step>,
        upper: Listed<Step>,
    ) -> Result<(), AllocError> {
        let lower = self.scope.spelled(alloc, lower)?;
        let upper = self.scope.spelled(alloc, upper)?;
        let iname = self.scope.begin_loop(alloc, var)?;
        put(&mut self.made.text, "domain [] -> {[")?;
        put(&mut self.made.text, iname.as_str())?;
        put(&mut self.made.text, "] : ")?;
        lower.put(&mut self.made.text)?;
        put(&mut self.made.text, " <= ")?;
        put(&mut self.made.text, iname.as_str())?;
        put(&mut self.made.text, " <= ")?;
        upper.put(&mut self.made.text)?;
        put(&mut self.made.text, "}")?;
        self.end(line)
    }

    /// Adds the options of an instruction: it depends on all earlier ones, and has the inames of all open loops.
    fn put_options(
        &mut self,
        alloc: Global,
        condition: Option<Listed<Step>>,
    ) -> Result<(), AllocError> {
        put(&mut self.made.text, " {dep=*")?;
        put_ids(&mut self.made.text, self.insns)?;
        put_inames(&mut self.made.text, self.scope.open_loops())?;
        if let Some(condition) = condition {
            put(&mut self.made.text, ", if=")?;
            let condition = self.scope.spelled(alloc, condition)?;
            condition.put(&mut self.made.text)?;
        }
        put(&mut self.made.text, "}")
    }

    /// Adds an instruction.
    fn assign(
        &mut self,
        alloc: Global,
        line: u32,
        condition: Option<Listed<Step>>,
        name: &Name,
        place: Listed<Listed<Step>>,
        value: Listed<Step>,
    ) -> Result<(), AllocError> {
        put(&mut self.made.text, name.as_str())?;
        put_places(alloc, &mut self.made.text, &self.scope, place)?;
        put(&mut self.made.text, " = ")?;
        let value = self.scope.spelled(alloc, value)?;
        value.put(&mut self.made.text)?;
        self.put_options(alloc, condition)?;
        self.insns = self.insns.saturating_add(1);
        self.end(line)
    }

    /// Adds what a statement says.
    fn say(&mut self, alloc: Global, stated: Stated) -> Result<(), AllocError> {
        let Stated { line, statement } = stated;
        match statement {
            Statement::Declaration {
                kind,
                intent,
                items,
            } => self.declare_all(alloc, line, kind, intent, items),
            Statement::Do { var, lower, upper } => self.begin_loop(alloc, line, &var, lower, upper),
            Statement::EndDo => {
                self.scope.end_loop();
                Ok(())
            }
            Statement::Assignment {
                condition,
                name,
                place,
                value,
            } => self.assign(alloc, line, condition, &name, place, value),
            Statement::End => Ok(()),
        }
    }
}

/// The scope of a block with the variables of its loops.
fn scope_of(alloc: Global, stated: &[Stated]) -> Result<Scope, AllocError> {
    let mut scope = Scope::new(alloc);
    for one in stated {
        if let Statement::Do { var, .. } = &one.statement {
            scope.add_variable(alloc, var)?;
        }
    }
    Ok(scope)
}

/// A text with the first line of a kernel file alone, which stands for no line.
fn first_line(alloc: Global) -> Result<BlockText, AllocError> {
    let mut text = Vec::new(alloc);
    put(&mut text, "kernel 1\n")?;
    let mut lines = Vec::new(alloc);
    lines.push(0u32)?;
    Ok(BlockText { text, lines })
}

/// The text of a kernel file that says what the statements say. What stands behind a line that is refused for the limit on
/// instructions is left out.
pub(crate) fn lines_of(alloc: Global, stated: Listed<Stated>) -> Result<BlockText, AllocError> {
    let mut lines = Lines {
        made: first_line(alloc)?,
        insns: 0,
        scope: scope_of(alloc, stated.as_slice())?,
    };
    for one in stated.into_vec() {
        if lines.insns <= MAX_INSNS {
            lines.say(alloc, one)?;
        }
    }
    let Lines { made, .. } = lines;
    Ok(made)
}
