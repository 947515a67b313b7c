//! Copies of index forms.
ghost use Rattle.std.specs.Prelude.{◌≡◌, IfOk};

use crate::form::Form;
use crate::listed::Listed;
use crate::quasi::{Floor, Quasi};
use std::alloc::{AllocError, Global};

impl Form {
    /// An equal form.
    pub fn copy(&self, alloc: Global) -> Result<Form, AllocError>
        ensures { IfOk result (λ f. f ≡ self.now) }
    {
        let quasi = self.quasi().copy(alloc)?;
        Ok(Form::new(quasi))
    }
}

impl Quasi {
    /// An equal form.
    #[cycle(copy)]
    pub fn copy(&self, alloc: Global) -> Result<Quasi, AllocError>
        ensures { IfOk result (λ q. q ≡ self.now) }
    {
        let terms = Listed::from_slice(alloc, self.terms.as_slice())?;
        let floors = copy_floors(alloc, self.floors.as_slice())?;
        Ok(Quasi {
            constant: self.constant,
            terms,
            floors,
        })
    }
}

#[cycle(copy)]
fn copy_floors(alloc: Global, floors: &[Floor]) -> Result<Listed<Floor>, AllocError>
    ensures { IfOk result (λ fs. fs ≡ floors.now) }
{
    let mut copied = Listed::new(alloc);
    for floor in floors {
        let inner = floor.inner.copy(alloc)?;
        copied.push(Floor {
            times: floor.times,
            inner,
            by: floor.by,
        })?;
    }
    Ok(copied)
}

/// Equal forms.
pub fn copy_forms(alloc: Global, forms: &[Form]) -> Result<Listed<Form>, AllocError>
    ensures { IfOk result (λ fs. fs ≡ forms.now) }
{
    let mut copied = Listed::new(alloc);
    for form in forms {
        copied.push(form.copy(alloc)?)?;
    }
    Ok(copied)
}
