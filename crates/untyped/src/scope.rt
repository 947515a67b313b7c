//! What names stand for.
use affine_rows::Name;
use expr_tree::Cell;

/// What a name stands for where an expression is written.
#[derive(Clone, Copy, Debug, PartialEq, Eq)]
pub enum Role {
    /// A parameter, of the kernel or of the rule in whose body the expression stands, by its number as a variable.
    Parameter(u32),
    /// An iname, by its number as a variable.
    Iname(u32),
    /// An array or a temporary, with its count of places, none for a scalar.
    Cell { cell: Cell, places: u32 },
    /// A rule, by its place in the list of those.
    Rule(u32),
    /// Nothing.
    Unknown,
}

/// Who knows what names stand for.
pub trait Scope {
    ghost use Rattle.std.specs.Prelude.{List, ℕ, ◌≡◌};
    ghost use Rattle.untyped.specs.declared.scope.Role.{Role};

    ghost roles: { Self → List ℕ → Role };

    /// What the name stands for.
    fn role(&self, name: &Name) -> Role
        ensures { result ≡ roles self.now name.now };
}
