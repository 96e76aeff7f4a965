use crate::*;
use std::alloc::{AllocError, Global};
use std::fs;
use std::test::Fail;

const SOURCE: &[u8] = b"int main(void) { return 0; }\n";

#[test]
fn reads_a_real_file(rt: HostRuntime) -> Result<(), Fail> {
    let path = "io_edge_test_read";
    fs::write(&rt, path, SOURCE)?;

    let mut files = StdFiles::new(&rt);
    assert!(rt;
        matches!(files.next(&mut [0u8; 4]), Ok(0)),
        "no file is open"
    );
    let bytes = read_file(rt.alloc(), &mut files, path, 29)?;
    assert_eq!(rt; bytes.as_slice(), SOURCE);
    let refusals = [
        (path, 28, "TooLong"),
        ("io_edge_test_none", 29, "ReadFault"),
        (".", 29, "ReadFault"),
    ];
    for (name, most, want) in refusals {
        let result = read_file(rt.alloc(), &mut files, name, most);
        assert_eq!(rt; message(rt.alloc(), result)?.as_str(), want, "at {name}");
    }
    fs::remove_file(&rt, path)?;
    Ok(())
}

#[test]
fn writes_a_real_output(rt: HostRuntime) -> Result<(), Fail> {
    let path = "io_edge_test_write";
    let mut sink = StdSink::new(fs::create(&rt, path)?);
    write_all(&mut sink, b"int main(void) ")?;
    write_all(&mut sink, b"{ return 0; }\n")?;
    assert_eq!(rt; fs::read(&rt, path)?.as_slice(), SOURCE);

    let mut read_only = StdSink::new(fs::open(&rt, path)?);
    assert!(rt; write_all(&mut read_only, b"more").is_err());
    fs::remove_file(&rt, path)?;
    Ok(())
}

// The calls of a reading are numbered: 1 opens, 2 to 4 give "ab", "cd" and "e", 5 gives none.
#[test]
fn passes_pieces_and_fails_at_chosen_calls(rt: HostRuntime) -> Result<(), Fail> {
    let rows = [
        ("a.c", 5, 6, "abcde"),
        ("a.c", 5, 5, "ReadFault"),
        ("a.c", 5, 3, "ReadFault"),
        ("a.c", 5, 1, "ReadFault"),
        ("a.c", 4, 9, "TooLong"),
        ("b.c", 0, 9, ""),
        ("c.c", 5, 9, "ReadFault"),
    ];
    for (name, most, failing, want) in rows {
        let mut files = MemFiles::new(records(rt.alloc())?, 2, number(rt.alloc(), failing)?);
        let result = read_file(rt.alloc(), &mut files, name, most);
        assert_eq!(rt;
            message(rt.alloc(), result)?.as_str(),
            want,
            "{name} up to {most}, {failing}"
        );
    }

    let mut sink = MemSink::new(rt.alloc(), 5, 2, number(rt.alloc(), 2)?)?;
    assert!(rt;
        write_all(&mut sink, b"abcde").is_err(),
        "the second call fails"
    );
    assert_eq!(rt; sink.given(), b"ab".as_slice());
    write_all(&mut sink, b"cde")?;
    assert!(rt; write_all(&mut sink, b"f").is_err(), "no room is left");
    assert_eq!(rt; sink.given(), b"abcde".as_slice());
    assert_eq!(rt;
        format!(in rt.alloc(); "{}", ReadError::Memory)?.as_str(),
        "Memory"
    );
    Ok(())
}

// The bytes as text, or the message of the refusal.
fn message(alloc: Global, outcome: Result<Vec<u8>, ReadError>) -> Result<String, Fail> {
    match outcome {
        Ok(bytes) => Ok(String::from_str(alloc, str::from_utf8(&bytes)?)?),
        Err(e) => Ok(format!(in alloc; "{e}")?),
    }
}

fn records(alloc: Global) -> Result<NamedFiles, AllocError> {
    let items = vec![in alloc;
        record(alloc, "a.c", "abcde")?,
        record(alloc, "a.c", "second")?,
        record(alloc, "b.c", "")?,
    ]?;
    Ok(NamedFiles { items })
}

fn record(alloc: Global, name: &str, bytes: &str) -> Result<NamedFile, AllocError> {
    let name = Bytes {
        items: name.as_bytes().to_vec(alloc)?,
    };
    let bytes = Bytes {
        items: bytes.as_bytes().to_vec(alloc)?,
    };
    Ok(NamedFile { name, bytes })
}

fn number(alloc: Global, n: u32) -> Result<Numbers, AllocError> {
    let items = vec![in alloc; n]?;
    Ok(Numbers { items })
}
