//! The lines that declare names, and the line of the store.
ghost use Rattle.std.specs.Prelude.{◌≡◌, ℕ, true, List, map, MatchOption};
ghost use Rattle.first_form.specs.Form.{are_names};
ghost use Rattle.first_form.specs.Lines.{IsArrayLine, IsDomainLine, IsStoreLine};

use crate::scan::{after, factor_at, name_after};
use crate::words::is_among;

/// What a domain line declares, and what follows it.
#[derive(Clone, Copy)]
pub struct Domain<'a> {
    pub param: &'a [u8],
    pub iname: &'a [u8],
    pub rest: &'a [u8],
}

/// The domain line at the front.
pub fn domain_line(bytes: &[u8]) -> Option<Domain<'_>>
    ensures { MatchOption result ((param iname rest : List ℕ) → ¬ (IsDomainLine bytes.now param iname rest)) (λ found. IsDomainLine bytes.now found.param.now found.iname.now found.rest.now) }
{
    let (param, rest) = name_after(bytes, &[b"domain ["])?;
    let (iname, rest) = name_after(rest, &[b"] -> { ["])?;
    let rest = after(rest, &[b"] : 0 <= ", iname, b" < ", param, b" }\n"])?;
    if is_among(param, &[iname]) {
        return None;
    }
    Some(Domain { param, iname, rest })
}

/// The name that an array line at the front declares, and the rest. The role is `input` or `output`.
pub fn array_line<'a>(
    bytes: &'a [u8],
    role: &[u8],
    param: &[u8],
    declared: &[&[u8]],
) -> Option<(&'a [u8], &'a [u8])>
    requires { are_names (map (λ name. name.now) declared.now) ≡ true }
    ensures { let line = IsArrayLine role.now param.now (map (λ name. name.now) declared.now) bytes.now in MatchOption result ((name rest : List ℕ) → ¬ (line name rest)) (λ found. line found.0.now found.1.now) }
{
    let (name, rest) = name_after(bytes, &[role, b" "])?;
    let rest = after(rest, &[b": int32[", param, b"]\n"])?;
    if is_among(name, declared) {
        None
    } else {
        Some((name, rest))
    }
}

/// The factor of a store line at the front, and the rest.
pub fn store_line<'a>(
    bytes: &'a [u8],
    output: &[u8],
    input: &[u8],
    iname: &[u8],
) -> Option<(u32, &'a [u8])>
    ensures { let line = IsStoreLine output.now input.now iname.now bytes.now in MatchOption result ((factor : ℕ) (rest : List ℕ) → ¬ (line factor rest)) (λ found. line found.0 found.1.now) }
{
    let rest = after(bytes, &[output, b"[", iname, b"] = "])?;
    let (factor, rest) = factor_at(rest)?;
    let rest = after(rest, &[b"*", input, b"[", iname, b"]\n"])?;
    Some((factor, rest))
}
