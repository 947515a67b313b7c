// A host by what it tells, and what each call does to that.
ghost use Rattle.std.specs.Prelude.{◌≡◌, ◌<◌, ◌≤◌, length, take, Contains, IfOk, OnErr, IsNone};
ghost use Rattle.host_io.specs.declared.host.ReadError.TheVariants.{OutOfMemory, Failed as not_read};
ghost use Rattle.std.specs.Io.KnownBytes.{IsAtEnd};
ghost use Rattle.host_io.specs.Told.{Told, Opens, Takes, FailsRead, FailsOut, FailsErr, after_out, after_err, OpenMayFail, LacksRoom};

use std::alloc::AllocError;
use thiserror::Error;

/// The host could not do what was asked, and raised the count of that sort of fault.
#[derive(Clone, Copy, Debug, PartialEq, Eq)]
pub struct Failed;

/// Why a file could not be read whole.
#[derive(Clone, Copy, Debug, PartialEq, Eq, Error)]
pub enum ReadError {
    /// The host could not open or read the file; its reading count rose.
    #[error("the file could not be read")]
    Failed,
    /// The file has more than `READ_LIMIT` bytes.
    #[error("the file is too long")]
    TooLong,
    /// There was no memory for its bytes.
    #[error("out of memory")]
    OutOfMemory,
}

impl From<AllocError> for ReadError {
    ghost from_gives = { λ _ e. e ≡ OutOfMemory };

    fn from(_: AllocError) -> Self {
        ReadError::OutOfMemory
    }
}

impl From<Failed> for ReadError {
    ghost from_gives = { λ _ e. e ≡ not_read };

    fn from(_: Failed) -> Self {
        ReadError::Failed
    }
}

/// The outside: files that are read, and two streams that are written. Each host tells the numbers of its open files
/// and three counts of faults, from 0 to 2^64 - 1, which never fall: of `open_file` and `read`, of `write_out`, and of
/// `write_err`. It may also tell content, and the clauses on content hold where it does.
/// A host that is sure of itself tells its room; its calls fail only at a missing name, a fifth open file or want of room.
pub trait Host {
    /// What the host tells.
    ghost told: { Self → Told };

    /// Opens a file and answers its number, under which the whole file is unread. `Failed` where no file has the name
    /// or the host can't open it.
    fn open_file(&mut self, name: &str) -> Result<u32, Failed>
        ensures opened { IfOk result (Opens (told self.old) (told self.new) name.now) }
        ensures failed { OnErr result (FailsRead (told self.old) (told self.new)) }
        ensures cause { OnErr result (OpenMayFail (told self.old) name.now) };

    /// Takes the next bytes of an open file into the front of `into`, and answers how many: 0 only at the file's end.
    /// `Failed` where the host can't read.
    fn read(&mut self, file: u32, into: &mut [u8]) -> Result<usize, Failed>
        requires is_open { Contains (told self.old).numbers file }
        requires room { 0 < length into.old }
        ensures count { IfOk result (λ count. count ≤ length into.new) }
        ensures taken { IfOk result (λ count. Takes (told self.old) (told self.new) file (take count into.new)) }
        ensures end { result ≡ Ok 0 → IsAtEnd ((told self.old).unread file) }
        ensures failed { OnErr result (FailsRead (told self.old) (told self.new)) }
        ensures cause { OnErr result (IsNone (told self.old).sure_room) };

    /// Appends the first bytes of `piece` to out, at least one, and answers how many. `Failed` where the host can't
    /// write, and out then stays.
    fn write_out(&mut self, piece: &[u8]) -> Result<usize, Failed>
        requires { 0 < length piece.now }
        ensures count { IfOk result (λ count. (0 < count) × (count ≤ length piece.now)) }
        ensures written { IfOk result (λ count. told self.new ≡ after_out (told self.old) (take count piece.now)) }
        ensures failed { OnErr result (FailsOut (told self.old) (told self.new)) }
        ensures cause { OnErr result (LacksRoom (told self.old) 1) };

    /// Appends the first bytes of `piece` to err, at least one, and answers how many. `Failed` where the host can't
    /// write, and err then stays.
    fn write_err(&mut self, piece: &[u8]) -> Result<usize, Failed>
        requires { 0 < length piece.now }
        ensures count { IfOk result (λ count. (0 < count) × (count ≤ length piece.now)) }
        ensures written { IfOk result (λ count. told self.new ≡ after_err (told self.old) (take count piece.now)) }
        ensures failed { OnErr result (FailsErr (told self.old) (told self.new)) }
        ensures cause { OnErr result (LacksRoom (told self.old) 1) };
}
