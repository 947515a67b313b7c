// A host in memory, which fails where it is told to.
ghost use Rattle.std.specs.Prelude.{◌≡◌, ◌+◌, ◌-◌, ◌<◌, ◌≤◌, min, [], ◌∷◌, ◌^◌, ◌||◌, length, nat_le, take, Some, Contains, position, is_none, is_err, IfSome, IfOk, IfErr, OnErr, IsNone, IsSomeAnd, vec_capacity};
ghost use Rattle.host_io.specs.Files.{has_name};
ghost use Rattle.std.specs.Io.KnownBytes.{IsAtEnd};
ghost use Rattle.host_io.specs.Reader.{left_of};
ghost use Rattle.host_io.specs.Setup.{is_listed};

use crate::find::find_file;
use crate::host::{Failed, Host, ReadError};
use std::alloc::Global;

const MOST_OPEN: usize = 4;

#[derive(Clone, Copy)]
struct Reader {
    place: usize,
    position: usize,
}

/// A host over files in memory, which tells everything and fails exactly where its lists, a missing name, its four
/// open files or its room say so. Its host calls take no memory.
#[derive(Drop)]
pub struct MemoryHost {
    files: Vec<(String, Vec<u8>)>,
    piece: usize,
    room: usize,
    fail_open: Vec<u64>,
    fail_read: Vec<u64>,
    fail_write: Vec<u64>,
    opens: u64,
    reads: u64,
    writes: u64,
    readers: [Reader; 4],
    opened: usize,
    out: Vec<u8>,
    err: Vec<u8>,
    read_faults: u64,
    out_faults: u64,
    err_faults: u64,
    ghost few: { opened ≤ 4 },
    ghost takes_some: { 0 < piece },
    ghost out_fits: { room ≤ vec_capacity out },
    ghost err_fits: { room ≤ vec_capacity err },
}

impl MemoryHost {
    ghost use Rattle.host_io.specs.MemoryHost.{told_by, setup_of, new_told, new_setup};

    /// A host with these files, of which the first counts where several have one name. A call takes or gives at most
    /// `piece` bytes, at least 1. Out and err hold `room` bytes together, and a write fails once they do. The lists
    /// name the calls that fail: opens, reads, and writes to out or err as one sort, each counted from 1.
    /// `OutOfMemory` where there is no memory for twice `room` bytes.
    pub fn new(
        alloc: Global,
        files: Vec<(String, Vec<u8>)>,
        piece: usize,
        room: usize,
        fail_open: Vec<u64>,
        fail_read: Vec<u64>,
        fail_write: Vec<u64>,
    ) -> Result<MemoryHost, ReadError>
        requires { 0 < piece }
        ensures told { IfOk result (λ host. told_by host ≡ new_told files.items room fail_open.items fail_read.items fail_write.items) }
        ensures setup { IfOk result (λ host. setup_of host ≡ new_setup piece room fail_open.items fail_read.items fail_write.items) }
        ensures refused { IfErr result (λ error. error ≡ ReadError.OutOfMemory) }
    {
        let out = Vec::with_capacity(alloc, room)?;
        let err = Vec::with_capacity(alloc, room)?;
        Ok(MemoryHost {
            files,
            piece,
            room,
            fail_open,
            fail_read,
            fail_write,
            opens: 0,
            reads: 0,
            writes: 0,
            readers: [Reader {
                place: 0,
                position: 0,
            }; MOST_OPEN],
            opened: 0,
            out,
            err,
            read_faults: 0,
            out_faults: 0,
            err_faults: 0,
        })
    }

    /// The bytes on out.
    pub fn out_bytes(&self) -> &[u8]
        ensures { Some result.now ≡ (told_by self.now).out }
    {
        &self.out
    }

    /// The bytes on err.
    pub fn err_bytes(&self) -> &[u8]
        ensures { Some result.now ≡ (told_by self.now).err }
    {
        &self.err
    }

    /// The counts of failed opens and reads, of failed writes to out, and of failed writes to err.
    pub fn faults(&self) -> [u64; 3]
        ensures { result ≡ (told_by self.now).read_faults ∷ (told_by self.now).out_faults ∷ (told_by self.now).err_faults ∷ [] }
    {
        [self.read_faults, self.out_faults, self.err_faults]
    }

    // The place of the file that the open counted last opens, none where it fails.
    fn place_to_open(&self, name: &str) -> Option<usize>
        ensures found { IfSome result (λ place. position (has_name name.now) self.now.files.items ≡ Some place) }
        ensures fails { is_none result ≡ ((is_listed self.now.fail_open.items self.now.opens || nat_le 4 self.now.opened) || is_none (position (has_name name.now) self.now.files.items)) }
    {
        if self.fail_open.contains(&self.opens) || self.opened == MOST_OPEN {
            return None;
        }
        find_file(&self.files, name)
    }

    // How many bytes out and err can still take.
    fn room_left(&self) -> usize
        ensures { result ≡ self.now.room - (length self.now.out.items + length self.now.err.items) }
    {
        let used = self.out.len().saturating_add(self.err.len());
        self.room.saturating_sub(used)
    }

    // Whether the write that was counted last fails.
    fn refuses_write(&self) -> bool
        ensures { result ≡ (is_listed self.now.fail_write.items self.now.writes || nat_le self.now.room (length self.now.out.items + length self.now.err.items)) }
    {
        self.fail_write.contains(&self.writes) || self.room_left() == 0
    }
}

// The bytes that a reader has not yet read.
fn rest_of(files: &[(String, Vec<u8>)], reader: Reader) -> &[u8]
    ensures rest { result.now ≡ left_of files.now reader }
    ensures fits { reader.position + length result.now < 2 ^ 64 }
{
    match files.get(reader.place) {
        Some((_, bytes)) => bytes.get(reader.position..).unwrap_or(&[]),
        None => &[],
    }
}

impl Host for MemoryHost {
    ghost use Rattle.host_io.specs.MemoryHost.{told_by, setup_of};
    ghost use Rattle.host_io.specs.Setup.{after_open, after_read, after_write, open_fails, read_fails, write_fails};
    ghost use Rattle.host_io.specs.Told.{Opens, Takes, FailsRead, FailsOut, FailsErr, after_out, after_err, next_count, held, OpenMayFail, LacksRoom};

    ghost told = { told_by };

    /// Fails exactly where this open is listed, no file has the name, or four files are open.
    fn open_file(&mut self, name: &str) -> Result<u32, Failed>
        ensures opened { IfOk result (Opens (told_by self.old) (told_by self.new) name.now) }
        ensures failed { OnErr result (FailsRead (told_by self.old) (told_by self.new)) }
        ensures cause { OnErr result (OpenMayFail (told_by self.old) name.now) }
        ensures fails { is_err result ≡ open_fails (setup_of self.old) (told_by self.old) name.now }
        ensures counted { OnErr result ((told_by self.new).read_faults ≡ next_count (told_by self.old).read_faults) }
        ensures setup { setup_of self.new ≡ after_open (setup_of self.old) }
    {
        self.opens = self.opens.saturating_add(1);
        let Some(place) = self.place_to_open(name) else {
            self.read_faults = self.read_faults.saturating_add(1);
            return Err(Failed);
        };
        let number = self.opened;
        self.readers[number] = Reader { place, position: 0 };
        self.opened = number + 1;
        Ok(number as u32)
    }

    /// Fails exactly where this read is listed, and else takes as much as the file has left, the piece allows and
    /// `into` holds.
    fn read(&mut self, file: u32, into: &mut [u8]) -> Result<usize, Failed>
        requires is_open { Contains (told_by self.old).numbers file }
        requires room { 0 < length into.old }
        ensures count { IfOk result (λ count. count ≤ length into.new) }
        ensures taken { IfOk result (λ count. Takes (told_by self.old) (told_by self.new) file (take count into.new)) }
        ensures end { result ≡ Ok 0 → IsAtEnd ((told_by self.old).unread file) }
        ensures failed { OnErr result (FailsRead (told_by self.old) (told_by self.new)) }
        ensures exact { IfOk result (λ count. IsSomeAnd ((told_by self.old).unread file) (λ left. count ≡ min (length left) (min (setup_of self.old).piece (length into.old)))) }
        ensures cause { OnErr result (IsNone (told_by self.old).sure_room) }
        ensures fails { is_err result ≡ read_fails (setup_of self.old) }
        ensures counted { OnErr result ((told_by self.new).read_faults ≡ next_count (told_by self.old).read_faults) }
        ensures setup { setup_of self.new ≡ after_read (setup_of self.old) }
    {
        self.reads = self.reads.saturating_add(1);
        if self.fail_read.contains(&self.reads) {
            self.read_faults = self.read_faults.saturating_add(1);
            return Err(Failed);
        }
        let number = file as usize;
        let reader = self.readers[number];
        let rest = rest_of(&self.files, reader);
        let count = rest.len().min(self.piece.min(into.len()));
        into[..count].copy_from_slice(&rest[..count]);
        self.readers[number].position = reader.position + count;
        Ok(count)
    }

    /// Fails exactly where this write is listed or no room is left, and else takes as much of `piece` as the host's
    /// piece and the room left allow.
    fn write_out(&mut self, piece: &[u8]) -> Result<usize, Failed>
        requires { 0 < length piece.now }
        ensures count { IfOk result (λ count. (0 < count) × (count ≤ length piece.now)) }
        ensures written { IfOk result (λ count. told_by self.new ≡ after_out (told_by self.old) (take count piece.now)) }
        ensures failed { OnErr result (FailsOut (told_by self.old) (told_by self.new)) }
        ensures exact { IfOk result (λ count. count ≡ min (length piece.now) (min (setup_of self.old).piece ((setup_of self.old).room - held (told_by self.old)))) }
        ensures cause { OnErr result (LacksRoom (told_by self.old) 1) }
        ensures fails { is_err result ≡ write_fails (setup_of self.old) (told_by self.old) }
        ensures counted { OnErr result ((told_by self.new).out_faults ≡ next_count (told_by self.old).out_faults) }
        ensures setup { setup_of self.new ≡ after_write (setup_of self.old) }
    {
        self.writes = self.writes.saturating_add(1);
        if self.refuses_write() {
            self.out_faults = self.out_faults.saturating_add(1);
            return Err(Failed);
        }
        let count = piece.len().min(self.piece.min(self.room_left()));
        self.out.extend_from_slice(&piece[..count]).unwrap();
        Ok(count)
    }

    /// As `write_out`, on err.
    fn write_err(&mut self, piece: &[u8]) -> Result<usize, Failed>
        requires { 0 < length piece.now }
        ensures count { IfOk result (λ count. (0 < count) × (count ≤ length piece.now)) }
        ensures written { IfOk result (λ count. told_by self.new ≡ after_err (told_by self.old) (take count piece.now)) }
        ensures failed { OnErr result (FailsErr (told_by self.old) (told_by self.new)) }
        ensures exact { IfOk result (λ count. count ≡ min (length piece.now) (min (setup_of self.old).piece ((setup_of self.old).room - held (told_by self.old)))) }
        ensures cause { OnErr result (LacksRoom (told_by self.old) 1) }
        ensures fails { is_err result ≡ write_fails (setup_of self.old) (told_by self.old) }
        ensures counted { OnErr result ((told_by self.new).err_faults ≡ next_count (told_by self.old).err_faults) }
        ensures setup { setup_of self.new ≡ after_write (setup_of self.old) }
    {
        self.writes = self.writes.saturating_add(1);
        if self.refuses_write() {
            self.err_faults = self.err_faults.saturating_add(1);
            return Err(Failed);
        }
        let count = piece.len().min(self.piece.min(self.room_left()));
        self.err.extend_from_slice(&piece[..count]).unwrap();
        Ok(count)
    }
}
