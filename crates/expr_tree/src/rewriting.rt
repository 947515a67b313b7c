//! What a rewriting puts for parts of trees.
ghost use Rattle.std.specs.Prelude.{◌≡◌, ◌≢◌, IfOk, Ok, Err};
ghost use Rattle.std.specs.Result.{IfErr};

use crate::build::ExprFault;
use crate::tree::{Expr, Node};
use affine_rows::{Form, Listed};
use std::alloc::Global;

/// What is put for leaves, forms and lists of inames. Its answers depend on its arguments alone, want of memory aside.
pub trait Rewriting {
    ghost use Rattle.std.specs.Prelude.{◌≡◌, ◌≢◌, IfOk, Ok, Err};
    ghost use Rattle.std.specs.Result.{IfErr};
    ghost use Rattle.expr_tree.specs.Rewritten.{Rules};

    ghost rules: { Self → Rules };

    /// The tree that is put for a number, an index form, a read or the use of a rule, if there is one.
    fn leaf(&self, alloc: Global, node: &Node) -> Result<Option<Expr>, ExprFault>
        ensures answer { IfOk result (λ put. (rules self.now).leaf node.now ≡ Ok put) }
        ensures refusal { IfErr result (λ f. f ≢ ExprFault.OutOfMemory → (rules self.now).leaf node.now ≡ Err f) };

    /// The form that is put for one side of a test of two index forms, if there is one.
    fn form(&self, alloc: Global, form: &Form) -> Result<Option<Form>, ExprFault>
        ensures answer { IfOk result (λ put. (rules self.now).form form.now ≡ Ok put) }
        ensures refusal { IfErr result (λ f. f ≢ ExprFault.OutOfMemory → (rules self.now).form form.now ≡ Err f) };

    /// The inames that are put for those of a reduction, if there are any.
    fn over(&self, alloc: Global, inames: &[u32]) -> Result<Option<Listed<u32>>, ExprFault>
        ensures answer { IfOk result (λ put. (rules self.now).over inames.now ≡ Ok put) }
        ensures refusal { IfErr result (λ f. f ≢ ExprFault.OutOfMemory → (rules self.now).over inames.now ≡ Err f) };
}
