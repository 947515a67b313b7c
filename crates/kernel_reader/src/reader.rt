//! The reader of kernel files.
ghost use Rattle.std.specs.Prelude.{◌≡◌, IfOk, OnOk};
ghost use Rattle.kernel_files.specs.Files.{kernel_of};
ghost use Rattle.kernel_ir.specs.Valid.{IsValid};
ghost use Rattle.kernel_reader.specs.Reading.{IsContentRefusal, IsReadingRefusal, IsSomeFile, IsUsesRefusal, Says};
ghost use Rattle.subst_rules.specs.Ready.{IsExpandable};
ghost use Rattle.subst_rules.specs.Refused.{RefusesAs};
ghost use Rattle.type_infer.specs.Inferred.{inferred};

use kernel_files::{ReadKernel, read_entries, read_file};
use kernel_formed::laws::{file_is_formed, file_is_made};
use kernel_grammar::KernelFile;
use kernel_ir::{Fault, Kernel};
use kernel_kinds::laws::typed_by_trees;
use kernel_kinds::{check_calls, check_kinds};
use std::alloc::Global;
use subst_rules::expand;
use type_infer::infer;

/// Refuses a kernel for its uses of rules, with them replaced, and for its kinds. The trees are those of its rules and
/// instructions.
fn check_uses(alloc: Global, read: &ReadKernel) -> Result<(), Fault>
    ensures refused { RefusesAs (IsUsesRefusal read.now) result }
    ensures ready { OnOk result (IsExpandable read.now.kernel) }
{
    let rules = read.rules.as_slice();
    let insns = read.insns.as_slice();
    match check_calls(alloc, &read.kernel, rules, insns) {
        Ok(()) => {}
        Err(fault) => return Err(fault),
    }
    match expand(alloc, &read.kernel) {
        Ok(_) => check_kinds(alloc, &read.kernel, rules, insns),
        Err(fault) => Err(fault),
    }
}

/// The kernel that a kernel file says, with the kinds of its temporaries. The file is what some bytes are read as.
///
/// The first of these that holds refuses: line by line, of one line in this order, rule 3, a limit, rule 1, an unknown name, rule
/// 2, a name that is taken, and rule 6, what is no index expression; rule 8, a use of a rule with another count of arguments,
/// first in bodies and then in instructions; rule 7, a rule that reaches itself; rule 3, what passes a limit once the uses of
/// rules are replaced; and instruction by instruction rule 10, a temporary that gets no kind, and rule 9, another kind than is
/// asked, then rule 9 in rules that no instruction uses. `OutOfMemory` may come in place of any answer.
pub fn kernel_of_file(alloc: Global, file: &KernelFile) -> Result<Kernel, Fault>
    requires { IsSomeFile file.now }
    ensures valid { IfOk result IsValid }
    ensures kernel { IfOk result (λ k. k ≡ inferred (kernel_of file.now)) }
    ensures refused { RefusesAs (IsContentRefusal file.now) result }
{
    match read_entries(alloc, file) {
        Ok(read) => match check_uses(alloc, &read) {
            Ok(()) => {
                let _formed = file_is_formed();
                let _made = file_is_made();
                let _typed = typed_by_trees();
                infer(alloc, read.kernel)
            }
            Err(fault) => Err(fault),
        },
        Err(fault) => Err(fault),
    }
}

/// The kernel that the bytes of a kernel file say, with the kinds of its temporaries.
///
/// The first of these that holds refuses: rule 3, more than 1,048,576 bytes; rule 5, the first line that says something is not
/// `kernel 1`, with its first word; rule 4, the text is no kernel file, after so many bytes of a line; line by line, of one
/// line in this order, rule 3, a limit, rule 1, an unknown name, rule 2, a name that is taken, and rule 6, what is no index
/// expression; rule 8, a use of a rule with another count of arguments, first in bodies and then in instructions; rule 7, a
/// rule that reaches itself; rule 3, what passes a limit once the uses of rules are replaced; and instruction by instruction
/// rule 10, a temporary that gets no kind, and rule 9, another kind than is asked, then rule 9 in rules that no instruction
/// uses. `OutOfMemory` may come in place of any answer.
pub fn read_kernel(alloc: Global, bytes: &[u8]) -> Result<Kernel, Fault>
    ensures valid { IfOk result IsValid }
    ensures kernel { IfOk result (Says bytes.now) }
    ensures refused { RefusesAs (IsReadingRefusal bytes.now) result }
{
    match read_file(alloc, bytes) {
        Ok(file) => kernel_of_file(alloc, &file),
        Err(fault) => Err(fault),
    }
}
