// Whole files read, and whole texts written, over any host.
ghost use Rattle.std.specs.Prelude.{◌≡◌, ◌≢◌, ◌≤◌, ◌+◌, ◌^◌, length, IfOk, OnOk, OnErr};
ghost use Rattle.host_io.specs.Told.{after_out, after_err, FailsOutAfter, FailsErrAfter, IsFile, IsLongerThan, OpenMayFail, ReadsAtMost, Rose};

use crate::host::{Failed, Host, ReadError};
use std::alloc::Global;

/// The most bytes that a file may have.
pub const READ_LIMIT: usize = 1_048_576;

const PIECE: usize = 4096;

/// All the bytes of a file, of which there are at most `READ_LIMIT`. `TooLong` exactly where the file has more; the
/// call takes at most one byte more than the limit. `Failed` only where the reading count rose. `OutOfMemory` where
/// there is no memory for the bytes.
pub fn read_all<H: Host>(alloc: Global, host: &mut H, name: &str) -> Result<Vec<u8>, ReadError>
    ensures content { IfOk result (λ bytes. IsFile (H.told host.old) name.now bytes.items) }
    ensures short { IfOk result (λ bytes. length bytes.items ≤ 2 ^ 20) }
    ensures too_long { result ≡ Err ReadError.TooLong → IsLongerThan (H.told host.old) name.now (2 ^ 20) }

    ensures failed { result ≡ Err ReadError.Failed → Rose (H.told host.old).read_faults (H.told host.new).read_faults }
    ensures cause { result ≡ Err ReadError.Failed → OpenMayFail (H.told host.old) name.now }
    ensures later { (H.told host.old).read_faults ≤ (H.told host.new).read_faults }
    ensures no_fault { result ≢ Err ReadError.Failed → (H.told host.new).read_faults ≡ (H.told host.old).read_faults }

    // It stops after one byte more than the limit, and changes nothing but what it opens and reads.
    ensures reads { ReadsAtMost (H.told host.old) (H.told host.new) name.now (2 ^ 20 + 1) }
{
    let file = host.open_file(name)?;
    let mut bytes = Vec::new(alloc);
    let mut piece = [0u8; PIECE];
    'pieces: while bytes.len() <= READ_LIMIT {
        let room = PIECE.min(READ_LIMIT + 1 - bytes.len());
        let count = host.read(file, &mut piece[..room])?;
        if count == 0 {
            return Ok(bytes);
        }
        bytes.extend_from_slice(&piece[..count])?;
    }
    Err(ReadError::TooLong)
}

/// Appends all the bytes to out. `Failed` only where the out count rose; out then has grown by a front of them.
pub fn write_all<H: Host>(host: &mut H, bytes: &[u8]) -> Result<(), Failed>
    ensures written { OnOk result (H.told host.new ≡ after_out (H.told host.old) bytes.now) }
    ensures failed { OnErr result (FailsOutAfter (H.told host.old) (H.told host.new) bytes.now) }
{
    let mut rest = bytes;
    while !rest.is_empty() {
        let count = host.write_out(rest)?;
        rest = &rest[count..];
    }
    Ok(())
}

/// Appends all the bytes to err. `Failed` only where the err count rose; err then has grown by a front of them.
pub fn write_all_err<H: Host>(host: &mut H, bytes: &[u8]) -> Result<(), Failed>
    ensures written { OnOk result (H.told host.new ≡ after_err (H.told host.old) bytes.now) }
    ensures failed { OnErr result (FailsErrAfter (H.told host.old) (H.told host.new) bytes.now) }
{
    let mut rest = bytes;
    while !rest.is_empty() {
        let count = host.write_err(rest)?;
        rest = &rest[count..];
    }
    Ok(())
}
