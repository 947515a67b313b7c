//! What an expression is evaluated in.
ghost use Rattle.std.specs.Prelude.{◌≡◌, true};
ghost use Rattle.wrap_words.specs.Words.{IsWord};

use crate::tree::Cell;
use affine_rows::Vars;
use wrap_words::{Kind, Word};

/// The numbers of variables, and the kinds and words of cells. The numbers come from `Vars`, since index forms are
/// evaluated below this crate and need no more. Its answers depend on its arguments alone, and it has places of 64-bit
/// subscripts alone.
pub trait Sight: Vars {
    ghost use Rattle.std.specs.Prelude.{◌≡◌, true, List, ℤ, All, FitsSigned};
    ghost use Rattle.std.specs.Int.{w64};
    ghost use Rattle.expr_tree.specs.Value.{Store};
    ghost use Rattle.expr_tree.specs.declared.tree.Cell.{Cell};

    ghost store: { Self → Store };

    /// The kind of a cell.
    fn kind(&self, cell: &Cell) -> Kind
        ensures { result ≡ (store self.now).kind cell.now };

    /// The word at a place that the cell has, of the kind that `kind` tells.
    fn cell(&self, cell: &Cell, place: &[i64]) -> Word
        requires { (store self.now).has cell.now place.now ≡ true }
        ensures value { result ≡ (store self.now).word cell.now place.now }
        ensures word { IsWord ((store self.now).kind cell.now) result };

    ghost places_fit: { (s : Self) (cell : Cell) (place : List ℤ) → (store s).has cell place ≡ true → All (FitsSigned w64) place };
}
