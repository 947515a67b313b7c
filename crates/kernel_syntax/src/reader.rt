//! The syntax of the bytes of a kernel file.
ghost use Rattle.std.specs.Prelude.{◌≡◌, List, ◌<◌, ◌-◌, ◌^◌, length, IfOk};
ghost use Rattle.std.specs.List.{All};
ghost use Rattle.std.specs.Result.{IfErr};
ghost use Rattle.text_reader.specs.declared.form.Form.TheVariants.{Kernel};
ghost use Rattle.text_reader.specs.Spelling.{IsSpelledIn};
ghost use Rattle.text_reader.specs.declared.token.Token.{Token};
ghost use Rattle.text_reader.specs.Tokens.{IsTokensOf, IsWithin};
ghost use Rattle.kernel_grammar.specs.Files.{file_of, file_text, IsKernelFile};
ghost use Rattle.kernel_grammar.specs.Lexicals.{lexicals};
ghost use Rattle.kernel_expressions.specs.Reads.{IsItem};
ghost use Rattle.kernel_expressions.specs.Texts.{IsFit};
ghost use Rattle.kernel_syntax.specs.Refused.{IsReadStuck};
ghost use Rattle.kernel_syntax.specs.Refusals.{IfSyntax, IsNoFile, IsNoLimit, IsSyntaxFault};
ghost use Rattle.kernel_expressions.specs.Settled.{Spells};

use crate::file::file;
use crate::place::fault_at;
use kernel_expressions::lexemes::lexemes;
use kernel_expressions::stop::Stop;
use kernel_grammar::KernelFile;
use std::alloc::{AllocError, Global};
use text_reader::laws::{few_tokens, one_list, spelled_tokens};
use text_reader::{Form, Front, TextFault, Token, read_front, scan};

/// The syntax of tokens, behind which stand the bytes from one place to another.
fn syntax_of(
    alloc: Global,
    bytes: &[u8],
    tokens: &[Token],
    left: (usize, usize),
) -> Result<KernelFile, TextFault>
    requires short { length bytes.now < 2 ^ 32 - 1 }
    requires within { All (IsWithin bytes.now) tokens.now }
    requires spelled { All (IsSpelledIn Kernel bytes.now) tokens.now }
    ensures read { IfOk result (λ file. IsItem (IsFit (lexicals bytes.now tokens.now)) file_text file_of file (lexicals bytes.now tokens.now)) }
    ensures unlimited { IfErr result IsNoLimit }
    ensures none { IfErr result (IfSyntax (Spells file_text (lexicals bytes.now tokens.now) → ⊥)) }
    ensures stuck { IsReadStuck bytes.now tokens.now left → IfErr result (IsSyntaxFault bytes.now) }
    ensures whole { IsTokensOf Kernel bytes.now tokens.now → left ≡ (length bytes.now, length bytes.now) → IfErr result (IsSyntaxFault bytes.now) }
{
    let lexemes = lexemes(alloc, bytes, tokens)?;
    match file(alloc, &lexemes) {
        Ok(file) => Ok(file),
        Err(Stop::Refused { at }) => Err(fault_at(alloc, bytes, tokens, at, left)?),
        Err(Stop::OutOfMemory) => Err(TextFault::OutOfMemory),
    }
}

/// The fault of bytes that are no text of tokens.
fn text_fault(alloc: Global, bytes: &[u8]) -> Result<TextFault, AllocError>
    requires { length bytes.now < 2 ^ 32 - 1 }
    ensures place { ((tokens : List Token) → IsTokensOf Kernel bytes.now tokens → ⊥) → IfOk result (IsSyntaxFault bytes.now) }
    ensures unlimited { IfOk result IsNoLimit }
{
    let Front { tokens, place } = read_front(alloc, bytes, Form::Kernel)?;
    let left = (place.at, place.at.saturating_add(2).min(bytes.len()));
    match syntax_of(alloc, bytes, &tokens, left) {
        Ok(_) => fault_at(alloc, bytes, &tokens, tokens.len(), left),
        Err(fault) => Ok(fault),
    }
}

/// The syntax of the bytes of a kernel file. The bytes are at most 4294967294. Nesting costs no stack.
///
/// It is `Syntax` exactly where the bytes are no kernel file, at the end of their longest front with which some kernel file
/// begins. It is never `Limit`: a number past 18446744073709551615 is one of the syntax.
pub fn read_syntax(alloc: Global, bytes: &[u8]) -> Result<KernelFile, TextFault>
    requires { length bytes.now < 2 ^ 32 - 1 }
    ensures read { IfOk result (IsKernelFile bytes.now) }
    ensures refused { IfErr result (IsSyntaxFault bytes.now) }
{
    few_tokens();
    one_list();
    spelled_tokens();
    match scan(alloc, bytes, Form::Kernel) {
        Ok(tokens) => {
            let file = syntax_of(alloc, bytes, &tokens, (bytes.len(), bytes.len()))?;
            Ok(file)
        }
        Err(TextFault::Syntax { .. }) => Err(text_fault(alloc, bytes)?),
        Err(fault) => Err(fault),
    }
}
