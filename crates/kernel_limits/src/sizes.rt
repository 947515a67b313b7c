//! The sizes of arrays.
ghost use Rattle.std.specs.Prelude.{◌≡◌, ◌≤◌, ◌^◌, ◌&&◌, true, Some, IfOk, IfSome, unsigned_abs};
ghost use Rattle.std.specs.List.{list_all};
ghost use Rattle.std.specs.Option.{is_some};
ghost use Rattle.affine_rows.specs.Forms.{IsForm};
ghost use Rattle.quasi_forms.specs.Fits.{fits_form};
ghost use Rattle.quasi_forms.specs.Affine.{Part};
ghost use Rattle.kernel_ir.specs.Limits.{size_forms, size_from};
ghost use Rattle.kernel_limits.specs.Asked.{fits_size};
ghost use Rattle.kernel_limits.specs.SizeForms.{size_form, small_size_form};
ghost use Rattle.kernel_limits.specs.Sizes.{IsSize, Multiplies, joins, moved};

use affine_rows::{Form, Listed};
use quasi_forms::{FormFault, is_constant, number_of, small_sum_of};
use std::alloc::{AllocError, Global};

/// The largest product of shape entries.
const LARGEST_SIZE: i64 = 2_147_483_647;

/// Whether both hold.
fn both(first: bool, second: bool) -> bool
    ensures { result ≡ (first && second) }
{
    first && second
}

/// Whether at most one of the entries, and of what stands before them, has variables.
fn joins(constant: bool, entries: &[Form]) -> bool
    ensures { result ≡ joins constant entries.now }
{
    match entries.split_first() {
        None => true,
        Some((entry, others)) => {
            let own = is_constant(entry.quasi());
            (constant || own) && joins(constant && own, others)
        }
    }
}

/// A number plus the multiple of a form, if it is within the limits.
fn moved(alloc: Global, constant: i64, times: i64, form: &Form) -> Result<Option<Form>, AllocError>
    requires { unsigned_abs constant ≤ 2 ^ 62 }
    ensures form { IfOk result (λ made. IfSome made (λ f. f ≡ moved constant times form.now)) }
    ensures within { IfOk result (λ made. IfSome made (λ f. IsForm f)) }
    ensures fits { IfOk result (λ made. is_some made ≡ fits_form (moved constant times form.now)) }
{
    let constant = Form::affine(alloc, constant, Listed::new(alloc));
    match small_sum_of(alloc, &constant, times, form) {
        Ok(sum) => Ok(Some(sum)),
        Err(FormFault::Limit) => Ok(None),
        Err(FormFault::OutOfMemory) | Err(FormFault::NotAffine) => Err(AllocError),
    }
}

/// The product so far times an entry, of which one has no variable, if it is within the limits of a form.
fn times_entry(
    alloc: Global,
    size: &Form,
    constant: bool,
    entry: &Form,
) -> Result<Option<Form>, AllocError>
    ensures { IfOk result (λ made. Multiplies size.now constant entry.now made) }
{
    if constant {
        moved(alloc, 0, number_of(size), entry)
    } else {
        moved(alloc, 0, number_of(entry), size)
    }
}

/// The row that says that the product with further entries is at most 2^31-1: that number less the product, if each form
/// on the way is within the limits.
fn row_from(
    alloc: Global,
    size: &Form,
    constant: bool,
    entries: &[Form],
) -> Result<Option<Form>, AllocError>
    requires { joins constant entries.now ≡ true }
    ensures fits { IfOk result (λ made. (p : Part) → IsSize p size.now constant → is_some made ≡ list_all fits_form (size_forms (size_from (Some p) entries.now))) }
    ensures row { IfOk result (λ made. IfSome made (λ f. (p : Part) → IsSize p size.now constant → Some f ≡ size_form (size_from (Some p) entries.now))) }
{
    match entries.split_first() {
        None => moved(alloc, LARGEST_SIZE, -1, size),
        Some((entry, others)) => {
            let own = is_constant(entry.quasi());
            match times_entry(alloc, size, constant, entry)? {
                None => Ok(None),
                Some(next) => row_from(alloc, &next, both(constant, own), others),
            }
        }
    }
}

/// Whether each form on the way to the product of the entries, and to the row that says that it is at most 2^31-1, is
/// within its limits, if at most one entry has variables. The only error is want of memory.
pub fn fits_size(alloc: Global, shape: &[Form]) -> Result<bool, AllocError>
    ensures { IfOk result (λ fits. fits ≡ fits_size shape.now) }
{
    match shape.split_first() {
        None => Ok(true),
        Some((entry, others)) => {
            let constant = is_constant(entry.quasi());
            if !joins(constant, others) {
                return Ok(true);
            }
            Ok(row_from(alloc, entry, constant, others)?.is_some())
        }
    }
}

/// The row that says that the product of the entries is at most 2^31-1: that number less the product, if each form on the
/// way is within its limits, as `fits_size` asks. None for a shape without entries, or with variables in more than one.
/// The only error is want of memory.
pub fn size_form(alloc: Global, shape: &[Form]) -> Result<Option<Form>, AllocError>
    ensures { IfOk result (λ made. made ≡ small_size_form shape.now) }
{
    match shape.split_first() {
        None => Ok(None),
        Some((entry, others)) => {
            let constant = is_constant(entry.quasi());
            if !joins(constant, others) {
                return Ok(None);
            }
            row_from(alloc, entry, constant, others)
        }
    }
}
