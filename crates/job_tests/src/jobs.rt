//! The top call over a host in memory: the statuses, with what is on out and err.
use host_io::{MemoryHost, ReadError};
use loopw_core::top;
use std::alloc::{AllocError, Global};
use std::process::Abort;
use std::test::Fail;

const DOUBLE: &str = "kernel 1
domain [n] -> { [i] : 0 <= i < n }
input a: int32[n]
output out: int32[n]
out[i] = 2*a[i]
";

const USAGE: &str =
    "usage: loopw write c|opencl KERNEL SCRIPT, show KERNEL SCRIPT, eval KERNEL ARGS, run CODE ARGS SCHEDULE, gen NUMBER
";

// A host with the file `double.txt`, if there is one.
fn host_with(
    alloc: Global,
    bytes: Option<&[u8]>,
    piece: usize,
    fail_read: &[u64],
    fail_write: &[u64],
) -> Result<MemoryHost, ReadError> {
    let mut files = Vec::new(alloc);
    if let Some(bytes) = bytes {
        let named = (String::from_str(alloc, "double.txt")?, bytes.to_vec(alloc)?);
        files.push(named).map_err(AllocError::from)?;
    }
    MemoryHost::new(
        alloc,
        files,
        piece.max(1),
        4096,
        Vec::new(alloc),
        fail_read.to_vec(alloc)?,
        fail_write.to_vec(alloc)?,
    )
}

fn words_of(alloc: Global, words: &[&str]) -> Result<Vec<String>, AllocError> {
    let mut listed = Vec::new(alloc);
    for word in words {
        listed.push(String::from_str(alloc, *word)?)?;
    }
    Ok(listed)
}

const WRITE: [&str; 4] = ["write", "c", "double.txt", "-"];

#[test]
fn the_smallest_kernel_is_written(rt: HostRuntime) -> Result<(), Fail> {
    let alloc = rt.alloc();
    let mut host = host_with(alloc, Some(DOUBLE.as_bytes()), 50, &[], &[])?;
    let words = words_of(alloc, &WRITE)?;
    assert_eq!(rt; top(alloc, &words, &mut host), 0);
    assert!(rt; host.out_bytes().starts_with(b"/* loopw c */\n".as_slice()));
    assert!(rt; host.err_bytes().is_empty());
    Ok(())
}

#[test]
fn other_kernels_are_written_and_shown(rt: HostRuntime) -> Result<(), Fail> {
    let alloc = rt.alloc();
    let kernel = b"kernel 1\ndomain [] -> { [i] : i = 3 }\noutput out: int32[4]\nout[i] = 7\n";
    let mut host = host_with(alloc, Some(kernel.as_slice()), 4096, &[], &[])?;
    let words = words_of(alloc, &WRITE)?;
    assert_eq!(rt; top(alloc, &words, &mut host), 0);
    assert!(rt;
        host.out_bytes().ends_with(
            b"  for (int64_t v_i = 3; v_i <= 3; ++v_i) {\n    v_out[v_i] = (int32_t)7u;\n  }\n}\n".as_slice()
        )
    );
    let mut host = host_with(alloc, Some(kernel.as_slice()), 4096, &[], &[])?;
    let words = words_of(alloc, &["show", "double.txt", "-"])?;
    assert_eq!(rt; top(alloc, &words, &mut host), 0);
    assert!(rt;
        host.out_bytes()
            .starts_with(b"kernel 1\ndomain [] -> { [i] : ".as_slice())
    );
    Ok(())
}

#[test]
fn files_are_refused_by_one_line(rt: HostRuntime) -> Result<(), Fail> {
    let alloc = rt.alloc();
    let full = vec![in alloc; b'x'; 1_048_576]?;
    let over = vec![in alloc; b'x'; 1_048_577]?;
    for (bytes, line) in [
        (b"".as_slice(), "kernel: rule 11 NoBlock: -\n"),
        (b"hello\n".as_slice(), "kernel: rule 11 NoBlock: -\n"),
        (over.as_slice(), "kernel: rule 3 Limit: bytes 1048576\n"),
    ] {
        let mut host = host_with(alloc, Some(bytes), 4096, &[], &[])?;
        let words = words_of(alloc, &WRITE)?;
        assert_eq!(rt; top(alloc, &words, &mut host), 1, "{line}");
        assert!(rt; host.out_bytes().is_empty());
        assert_eq!(rt; host.err_bytes(), line.as_bytes());
    }
    let mut host = host_with(alloc, Some(full.as_slice()), 4096, &[], &[])?;
    let words = words_of(alloc, &WRITE)?;
    assert_eq!(rt; top(alloc, &words, &mut host), 1);
    Ok(())
}

#[test]
fn faults_of_the_host_have_a_status_each(rt: HostRuntime) -> Result<(), Fail> {
    let alloc = rt.alloc();
    let words = words_of(alloc, &WRITE)?;
    let mut unreadable = host_with(alloc, Some(DOUBLE.as_bytes()), 50, &[2], &[])?;
    let mut missing = host_with(alloc, None, 50, &[], &[])?;
    assert_eq!(rt; top(alloc, &words, &mut unreadable), 3);
    assert_eq!(rt; top(alloc, &words, &mut missing), 3);
    for host in [&unreadable, &missing] {
        assert!(rt; host.out_bytes().is_empty());
        assert_eq!(rt; host.err_bytes(), b"read fault: double.txt\n".as_slice());
    }
    let mut whole = host_with(alloc, Some(DOUBLE.as_bytes()), 100, &[], &[])?;
    let mut unwritable = host_with(alloc, Some(DOUBLE.as_bytes()), 100, &[], &[3])?;
    assert_eq!(rt; top(alloc, &words, &mut whole), 0);
    assert_eq!(rt; top(alloc, &words, &mut unwritable), 4);
    assert_eq!(rt; Some(unwritable.out_bytes()), whole.out_bytes().get(..200));
    assert!(rt; unwritable.err_bytes().is_empty());
    Ok(())
}

fn gives_the_usage_line(rt: &impl Abort, alloc: Global, words: &[&str]) -> Result<(), Fail> {
    let mut host = host_with(alloc, Some(DOUBLE.as_bytes()), 50, &[], &[])?;
    let words = words_of(alloc, words)?;
    assert_eq!(rt; top(alloc, &words, &mut host), 2);
    assert!(rt; host.out_bytes().is_empty());
    assert_eq!(rt; host.err_bytes(), USAGE.as_bytes());
    Ok(())
}

#[test]
fn other_words_give_the_usage_line(rt: HostRuntime) -> Result<(), Fail> {
    let alloc = rt.alloc();
    gives_the_usage_line(&rt, alloc, &[])?;
    gives_the_usage_line(&rt, alloc, &["write", "fortran", "k", "s"])?;
    gives_the_usage_line(&rt, alloc, &["write", "c", "double.txt", "-", "-"])?;
    gives_the_usage_line(&rt, alloc, &["show", "double.txt"])?;
    gives_the_usage_line(&rt, alloc, &["gen", "65"])
}
