//! Files that are read one after the other.
ghost use Rattle.std.specs.Prelude.{◌≡◌, IfOk, IfErr};
ghost use Rattle.loopw_core.specs.Reading.{IsLongStop, IsUnreadStop, ReadsMore, ReadsWhole, StopsAt, StopsIn};

use crate::lines::too_long;
use crate::stop::Stop;
use crate::words::Source;
use affine_rows::Listed;
use host_io::{Host, ReadError, read_all};
use kernel_ir::Name;
use std::alloc::{AllocError, Global};

fn refused_length(alloc: Global, source: &Source) -> Result<Stop, AllocError>
    ensures { IfOk result (IsLongStop source.now) }
{
    let refusal = too_long(alloc, source.site)?;
    let word = Name::from_str(alloc, "")?;
    Ok(Stop::Refused(refusal, word))
}

fn long_stop(alloc: Global, source: &Source) -> Stop
    ensures { IsLongStop source.now result }
{
    match refused_length(alloc, source) {
        Ok(stop) => stop,
        Err(_) => Stop::OutOfMemory,
    }
}

fn unread_stop(alloc: Global, source: &Source) -> Stop
    ensures { IsUnreadStop source.now result }
{
    match source.path.copy(alloc) {
        Ok(path) => Stop::Unread(path),
        Err(_) => Stop::OutOfMemory,
    }
}

fn read_one<H: Host>(alloc: Global, source: &Source, host: &mut H) -> Result<Listed<u8>, Stop>
    ensures whole { IfOk result (λ bytes. ReadsWhole (H.told host.old) (H.told host.new) source.now.path bytes) }
    ensures stops { IfErr result (λ stop. StopsIn (H.told host.old) (H.told host.new) source.now stop) }
{
    match read_all(alloc, host, source.path.as_str()) {
        Ok(bytes) => Ok(Listed::from_vec(bytes)),
        Err(ReadError::TooLong) => Err(long_stop(alloc, source)),
        Err(ReadError::Failed) => Err(unread_stop(alloc, source)),
        Err(ReadError::OutOfMemory) => Err(Stop::OutOfMemory),
    }
}

/// Adds the bytes of the files, one after the other, until one cannot be opened or read or is too long.
pub(crate) fn read_sources<H: Host>(
    alloc: Global,
    sources: &[Source],
    host: &mut H,
    files: &mut Listed<Listed<u8>>,
) -> Result<(), Stop>
    ensures read { IfOk result (λ _. ReadsMore (H.told host.old) (H.told host.new) sources.now files.old files.new) }
    ensures stops { IfErr result (λ stop. StopsAt (H.told host.old) (H.told host.new) sources.now stop) }
{
    match sources {
        [] => Ok(()),
        [source, rest @ ..] => {
            let bytes = read_one(alloc, source, host)?;
            match files.push(bytes) {
                Ok(()) => read_sources(alloc, rest, host, files),
                Err(_) => Err(Stop::OutOfMemory),
            }
        }
    }
}
