//! All variables but some are cancelled.
ghost use Rattle.std.specs.Prelude.{◌≡◌, ◌+◌, ◌≤◌, ◌<◌, IfOk, IfErr, OnOk, map};
ghost use Rattle.affine_rows.specs.Reduced.{reduced_row};
ghost use Rattle.elimination.specs.Refusals.{AreWithin, IsShadowFault};
ghost use Rattle.elimination.specs.Shadows.{AreShadow};
ghost use Rattle.elimination.specs.Stages.{IsSystem, cancelled_from, is_cancelled, shadow_rows};

use crate::fault::SetFault;
use crate::pairs::add_reduced;
use crate::stages::stage;
use affine_rows::{Listed, Row, System};
use std::alloc::Global;

fn is_cancelled(keep: &[u32], var: u32) -> bool
    ensures { result ≡ is_cancelled keep.now var }
{
    for kept in keep {
        if *kept == var {
            return false;
        }
    }
    true
}

fn reduced_rows(alloc: Global, rows: &[Row]) -> Result<Vec<Row>, SetFault>
    ensures rows { IfOk result (λ made. made.items ≡ map reduced_row rows.now) }
    ensures fault { IfErr result (λ fault. fault ≡ SetFault.OutOfMemory) }
{
    let mut made = Vec::new(alloc);
    for row in rows {
        add_reduced(alloc, row, &mut made)?;
    }
    Ok(made)
}

/// The system with its rows reduced.
pub(crate) fn reduced_system(alloc: Global, system: &System) -> Result<System, SetFault>
    requires { IsSystem system.now }
    ensures width { IfOk result (λ made. made.width ≡ system.now.width) }
    ensures rows { IfOk result (λ made. made.rows ≡ map reduced_row system.now.rows) }
    ensures system { IfOk result IsSystem }
    ensures fault { IfErr result (λ fault. fault ≡ SetFault.OutOfMemory) }
{
    let rows = reduced_rows(alloc, system.rows.as_slice())?;
    Ok(System {
        width: system.width,
        rows: Listed::from_vec(rows),
    })
}

/// The system without the variables that are not kept, the last of which is cancelled first. It holds exactly at those
/// values of the kept variables at which the system has a rational point.
pub fn shadow(alloc: Global, system: &System, keep: &[u32]) -> Result<System, SetFault>
    requires { IsSystem system.now }
    ensures width { IfOk result (λ made. made.width ≡ system.now.width) }
    ensures rows { IfOk result (λ made. made.rows ≡ shadow_rows (cancelled_from keep.now 0 system.now.width) (map reduced_row system.now.rows)) }
    ensures system { IfOk result IsSystem }
    ensures within { OnOk result (AreWithin (cancelled_from keep.now 0 system.now.width) (map reduced_row system.now.rows)) }
    ensures fault { IfErr result (IsShadowFault keep.now system.now.width (map reduced_row system.now.rows)) }
    ensures points { IfOk result (λ made. AreShadow (cancelled_from keep.now 0 system.now.width) system.now.rows made.rows) }
{
    let mut made = reduced_system(alloc, system)?;
    let mut number = 0;
    let mut next = system.width;
    'variables: while next > 0 {
        let var = next - 1;
        if is_cancelled(keep, var) {
            number += 1;
            made = stage(alloc, &made, var, number)?;
        }
        next = var;
    }
    Ok(made)
}
