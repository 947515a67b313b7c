// The real host: std's files and standard streams. It tells no content.
ghost use Rattle.std.specs.Prelude.{◌≡◌, ◌≤◌, length, IfSome};
ghost use Rattle.host_io.specs.RealHost.{counts_told};

use crate::host::{Failed, Host};
use std::io::Read;
use std::rt::Runtime;
use std::{fs, str};

/// The host over a runtime: the system's files, standard out and standard err. It opens at most four files, and a
/// further open is `Failed`. So is a write to out that takes nothing, and a write to err of bytes that are no UTF-8
/// text. Each failure raises its call's count by one, up to 2^64 - 1.
#[derive(Drop)]
pub struct RealHost<R: Runtime> {
    rt: R,
    opened: u32,
    first: Option<R::File>,
    second: Option<R::File>,
    third: Option<R::File>,
    fourth: Option<R::File>,
    read_faults: u64,
    out_faults: u64,
    err_faults: u64,
    ghost few: { opened ≤ 4 },
}

impl<R: Runtime> RealHost<R> {
    /// A host with no open file and no fault.
    pub fn new(rt: R) -> RealHost<R>
        ensures { ⟦<RealHost<R> as Host>⟧.told result ≡ counts_told 0 0 0 0 }
    {
        RealHost {
            rt,
            opened: 0,
            first: None,
            second: None,
            third: None,
            fourth: None,
            read_faults: 0,
            out_faults: 0,
            err_faults: 0,
        }
    }
}

// Reads from a file, if one is there and can be read.
fn read_slot<F: Read>(slot: &mut Option<F>, into: &mut [u8]) -> Option<usize>
    ensures { IfSome result (λ count. count ≤ length into.new) }
{
    match slot {
        Some(file) => file.read(into).ok(),
        None => None,
    }
}

impl<R: Runtime> Host for RealHost<R> {
    ghost told = { λ host. counts_told host.opened host.read_faults host.out_faults host.err_faults };

    fn open_file(&mut self, name: &str) -> Result<u32, Failed> {
        let number = self.opened;
        if number < 4 {
            if let Ok(file) = fs::open(&self.rt, name) {
                match number {
                    0 => self.first = Some(file),
                    1 => self.second = Some(file),
                    2 => self.third = Some(file),
                    _ => self.fourth = Some(file),
                }
                self.opened = number + 1;
                return Ok(number);
            }
        }
        self.read_faults = self.read_faults.saturating_add(1);
        Err(Failed)
    }

    fn read(&mut self, file: u32, into: &mut [u8]) -> Result<usize, Failed> {
        let taken = match file {
            0 => read_slot(&mut self.first, into),
            1 => read_slot(&mut self.second, into),
            2 => read_slot(&mut self.third, into),
            _ => read_slot(&mut self.fourth, into),
        };
        match taken {
            Some(count) => Ok(count),
            None => {
                self.read_faults = self.read_faults.saturating_add(1);
                Err(Failed)
            }
        }
    }

    fn write_out(&mut self, piece: &[u8]) -> Result<usize, Failed> {
        match self.rt.write_some(piece) {
            Ok(count) if count > 0 => Ok(count),
            _ => {
                self.out_faults = self.out_faults.saturating_add(1);
                Err(Failed)
            }
        }
    }

    fn write_err(&mut self, piece: &[u8]) -> Result<usize, Failed> {
        if let Ok(text) = str::from_utf8(piece) {
            if self.rt.eprint(text).is_ok() {
                return Ok(piece.len());
            }
        }
        self.err_faults = self.err_faults.saturating_add(1);
        Err(Failed)
    }
}
