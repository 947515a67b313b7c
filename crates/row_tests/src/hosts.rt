use host_io::{
    Failed, Host, MemoryHost, READ_LIMIT, ReadError, RealHost, read_all, write_all, write_all_err,
};
use std::alloc::{AllocError, Global};
use std::fs;
use std::test::Fail;

// A host with one file, `a`, that takes and gives at most four bytes a call.
fn host_with(
    alloc: Global,
    bytes: &[u8],
    room: usize,
    fail_read: &[u64],
    fail_write: &[u64],
) -> Result<MemoryHost, ReadError> {
    let mut files = Vec::new(alloc);
    let named = (String::from_str(alloc, "a")?, bytes.to_vec(alloc)?);
    files.push(named).map_err(AllocError::from)?;
    MemoryHost::new(
        alloc,
        files,
        4,
        room,
        Vec::new(alloc),
        fail_read.to_vec(alloc)?,
        fail_write.to_vec(alloc)?,
    )
}

#[test]
fn a_file_is_read_whole(rt: HostRuntime) -> Result<(), Fail> {
    let alloc = rt.alloc();
    let mut host = host_with(alloc, b"0123456789", 0, &[], &[])?;
    let bytes = read_all(alloc, &mut host, "a")?;
    assert_eq!(rt; bytes.as_slice(), b"0123456789".as_slice());
    assert_eq!(rt; host.faults(), [0, 0, 0]);
    Ok(())
}

#[test]
fn a_fault_of_a_read_is_counted(rt: HostRuntime) -> Result<(), Fail> {
    let alloc = rt.alloc();
    let mut host = host_with(alloc, b"0123456789", 0, &[2], &[])?;
    assert_eq!(rt;
        read_all(alloc, &mut host, "a").err(),
        Some(ReadError::Failed)
    );
    assert_eq!(rt; host.faults(), [1, 0, 0]);
    assert_eq!(rt;
        read_all(alloc, &mut host, "b").err(),
        Some(ReadError::Failed)
    );
    assert_eq!(rt; host.faults(), [2, 0, 0]);
    Ok(())
}

#[test]
fn a_file_past_the_limit_is_too_long(rt: HostRuntime) -> Result<(), Fail> {
    let alloc = rt.alloc();
    for (length, error) in [
        (READ_LIMIT, None),
        (READ_LIMIT + 1, Some(ReadError::TooLong)),
    ] {
        let long = vec![in alloc; b'x'; length]?;
        let mut host = host_with(alloc, &long, 0, &[], &[])?;
        assert_eq!(rt; read_all(alloc, &mut host, "a").err(), error, "at {length}");
    }
    Ok(())
}

#[test]
fn both_streams_are_written(rt: HostRuntime) -> Result<(), Fail> {
    let alloc = rt.alloc();
    let mut host = host_with(alloc, b"", 20, &[], &[4])?;
    assert_eq!(rt; write_all(&mut host, b"0123456789"), Ok(()));
    assert_eq!(rt; write_all_err(&mut host, b"abcdef"), Err(Failed));
    assert_eq!(rt; write_all_err(&mut host, b"abcdef"), Ok(()));
    assert_eq!(rt; write_all_err(&mut host, b"ghijkl"), Err(Failed));
    assert_eq!(rt; host.out_bytes(), b"0123456789".as_slice());
    assert_eq!(rt; host.err_bytes(), b"abcdefghij".as_slice());
    assert_eq!(rt; host.faults(), [0, 0, 2]);
    Ok(())
}

#[test]
fn the_real_host_reads_what_was_written(rt: HostRuntime) -> Result<(), Fail> {
    let alloc = rt.alloc();
    fs::write(&rt, "real.txt", "some text")?;
    let mut host = RealHost::new(rt.clone()?);
    let bytes = read_all(alloc, &mut host, "real.txt")?;
    assert_eq!(rt; bytes.as_slice(), b"some text".as_slice());
    assert_eq!(rt; write_all(&mut host, b"on out\n"), Ok(()));
    assert_eq!(rt; write_all_err(&mut host, b"on err\n"), Ok(()));
    assert_eq!(rt;
        read_all(alloc, &mut host, "no such file").err(),
        Some(ReadError::Failed)
    );
    fs::remove_file(&rt, "real.txt")?;
    Ok(())
}
