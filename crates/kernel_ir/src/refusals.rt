//! How refusals are made: by a rule and its site, and then what they keep, piece by piece.
ghost use Rattle.std.specs.Prelude.{◌≡◌, Some, [], ◌∷◌, ◌++◌, IfOk};
ghost use Rattle.kernel_ir.specs.Refusals.{passed_limit, refusal, taken_name, unknown_name};

use crate::fault::{Refusal, Site};
use affine_rows::{Listed, Name, Point};
use std::alloc::{AllocError, Global};

impl Refusal {
    /// The refusal by the rule of this number at a site, without a line, and with nothing kept. It takes no memory.
    pub fn of_rule(alloc: Global, site: Site, number: u8) -> Refusal
        ensures { result ≡ refusal site number [] [] }
    {
        Refusal {
            site,
            line: 0,
            number,
            names: Listed::new(alloc),
            numbers: Listed::new(alloc),
            point: None,
        }
    }

    /// The same refusal at a line, counted from 1.
    pub fn at_line(self, line: u32) -> Refusal
        ensures { result ≡ record self { line = line } }
    {
        Refusal { line, ..self }
    }

    /// It keeps a name more.
    pub fn with_name(mut self, alloc: Global, name: &Name) -> Result<Refusal, AllocError>
        ensures { IfOk result (λ r. r ≡ record self { names = self.names ++ name.now ∷ [] }) }
    {
        self.names.push(name.copy(alloc)?)?;
        Ok(self)
    }

    /// It keeps a word more.
    pub fn with_word(mut self, alloc: Global, word: &str) -> Result<Refusal, AllocError>
        ensures { IfOk result (λ r. r ≡ record self { names = self.names ++ word.now ∷ [] }) }
    {
        self.names.push(Name::from_str(alloc, word)?)?;
        Ok(self)
    }

    /// It keeps a number more.
    pub fn with_number(mut self, number: i128) -> Result<Refusal, AllocError>
        ensures { IfOk result (λ r. r ≡ record self { numbers = self.numbers ++ number ∷ [] }) }
    {
        self.numbers.push(number)?;
        Ok(self)
    }

    /// It keeps a point at which what the rule forbids could not be ruled out.
    pub fn with_point(self, point: Point) -> Refusal
        ensures { result ≡ record self { point = Some point } }
    {
        Refusal {
            point: Some(point),
            ..self
        }
    }

    /// Rule 1: the name is unknown.
    pub fn unknown(alloc: Global, site: Site, name: &Name) -> Result<Refusal, AllocError>
        ensures { IfOk result (λ r. r ≡ unknown_name site name.now) }
    {
        Refusal::of_rule(alloc, site, 1).with_name(alloc, name)
    }

    /// Rule 2: the name is taken.
    pub fn taken(alloc: Global, site: Site, name: &Name) -> Result<Refusal, AllocError>
        ensures { IfOk result (λ r. r ≡ taken_name site name.now) }
    {
        Refusal::of_rule(alloc, site, 2).with_name(alloc, name)
    }

    /// Rule 3: there are more of these than the limit.
    pub fn limit(alloc: Global, site: Site, what: &str, limit: i128) -> Result<Refusal, AllocError>
        ensures { IfOk result (λ r. r ≡ passed_limit site what.now limit) }
    {
        Refusal::of_rule(alloc, site, 3)
            .with_word(alloc, what)?
            .with_number(limit)
    }
}
