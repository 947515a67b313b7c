//! What names stand for where an expression is written.
ghost use Rattle.std.specs.Prelude.{◌≡◌, bytes_eq, IfOk};
ghost use Rattle.quasi_forms.specs.Alike.{distinct};
ghost use Rattle.kernel_names.specs.Roles.{no_iname};

use crate::declarations::{Declarations, add_names};
use crate::numbering::Numbering;
use affine_rows::Name;
use std::alloc::{AllocError, Global};
use untyped::{Role, Scope};

/// In instructions and domains all names of the one name space are known.
impl Scope for Declarations {
    ghost use Rattle.kernel_names.specs.Roles.{kernel_roles};

    ghost roles = { kernel_roles };

    fn role(&self, name: &Name) -> Role {
        Declarations::role(self, name)
    }
}

fn no_iname(role: Role) -> Role
    ensures { result ≡ no_iname role }
{
    match role {
        Role::Iname(_) => Role::Unknown,
        role => role,
    }
}

/// In assumptions and shapes an iname is unknown.
#[derive(Clone, Copy)]
pub struct ParameterScope<'a> {
    pub declarations: &'a Declarations,
}

impl Scope for ParameterScope<'_> {
    ghost use Rattle.kernel_names.specs.Roles.{parameter_roles};

    ghost roles = { λ s. parameter_roles s.declarations.now };

    fn role(&self, name: &Name) -> Role {
        no_iname(self.declarations.role(name))
    }
}

/// In the body of a rule its own parameters come first, and an iname is unknown.
#[derive(Drop)]
pub struct BodyScope<'a> {
    declarations: &'a Declarations,
    own: Numbering,
}

impl<'a> BodyScope<'a> {
    /// The scope of the body of a rule with these parameters of its own.
    pub fn new(
        alloc: Global,
        declarations: &'a Declarations,
        params: &[Name],
    ) -> Result<BodyScope<'a>, AllocError>
        ensures declarations { IfOk result (λ s. s.declarations.now ≡ declarations.now) }
        ensures own { IfOk result (λ s. s.own ≡ distinct bytes_eq params.now) }
    {
        let mut own = Numbering::new(alloc);
        add_names(alloc, &mut own, params)?;
        Ok(BodyScope { declarations, own })
    }
}

impl Scope for BodyScope<'_> {
    ghost use Rattle.kernel_names.specs.Roles.{body_roles};

    ghost roles = { λ s. body_roles s.declarations.now s.own };

    fn role(&self, name: &Name) -> Role {
        if self.own.has(name) {
            Role::Parameter(self.declarations.number(name))
        } else {
            no_iname(self.declarations.role(name))
        }
    }
}
