//! Reads rows from its input: files, calls of the top call over a host in memory that holds them, and what is wanted of each
//! call; and says of each row whether it is so. A row is lines of these words, a size being that of the bytes which follow
//! its line, with a line feed behind them:
//!
//!     row NAME                    begins a row
//!     file NAME SIZE              a file of the host
//!     long NAME SIZE TOTAL        a file that a comment fills up to so many bytes
//!     call WORDS [> FILE]         the call, whose output is kept as a file
//!     status N                    what is wanted of the last call: its status,
//!     out SIZE, err SIZE          all that is written,
//!     lines SIZE                  lines that stand together in the output,
//!     begins SIZE                 how the line on err begins
//!     end                         ends the row
#![tactic(auto)]

mod cursor;
mod outcome;
mod row;

use cursor::Cursor;
use row::Row;
use std::io::{self, Read};

fn main(rt: HostRuntime) -> io::Result<()> {
    let alloc = rt.alloc();
    let mut text = Vec::new(alloc);
    rt.stdin().read_to_end(&mut text)?;
    let mut cursor = Cursor::new(&text);
    let mut row = Row::new(alloc);
    for _ in 0..text.len() {
        match cursor.line() {
            None => break,
            Some(line) => {
                if let Some(said) = row.follow(alloc, line, &mut cursor)? {
                    println!(rt; "{said}")?;
                }
            }
        }
    }
    Ok(())
}
