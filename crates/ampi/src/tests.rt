//! The program over files and sinks in memory.
use crate::{Status, ampi, ampi_surely};
use am_io::{MemFiles, MemSink, SureFiles, SureSink};
use std::alloc::{AllocError, Global};
use std::test::Fail;

const HELLO: &[u8] = b"#include <stdio.h>\nint main(void) { printf(\"hello\\n\"); return 0; }\n";

fn words_of(alloc: Global, words: &[&str]) -> Result<Vec<String>, AllocError> {
    let mut all = Vec::new(alloc);
    for word in words {
        all.push(String::from_str(alloc, word)?)?;
    }
    Ok(all)
}

/// A run over files in memory: the answer, the output and the journal.
fn answer(
    alloc: Global,
    words: &[&str],
    name: &str,
    text: &[u8],
) -> Result<(Status, MemSink, MemSink), AllocError> {
    let words = words_of(alloc, words)?;
    let mut files = MemFiles::new(alloc);
    files.add(name, text)?;
    let mut out = MemSink::new(alloc);
    let mut journal = MemSink::new(alloc);
    let status = ampi(alloc, &words, &mut files, &mut out, &mut journal);
    Ok((status, out, journal))
}

#[test]
fn the_numbers_of_the_answers(rt: HostRuntime) {
    let table = [
        (Status::Deadlock, 6),
        (Status::OutOfTicks, 7),
        (Status::Trapped { rank: 255 }, 8),
        (Status::NoMemory, 11),
    ];
    for (status, number) in table {
        assert_eq!(rt; status.number(), number);
    }
}

#[test]
fn nothing_fails_over_sure_files_and_sinks(rt: HostRuntime) -> Result<(), Fail> {
    let alloc = rt.alloc();
    let words = words_of(alloc, &["run", "r.c"])?;
    let mut files = SureFiles::new(alloc);
    files.add("r.c", b"int main(void) { return 7; }")?;
    let mut out = SureSink::new(alloc);
    let mut journal = SureSink::new(alloc);
    assert_eq!(rt;
        ampi(alloc, &words, &mut files, &mut out, &mut journal),
        Status::Done
    );
    assert_eq!(rt;
        out.bytes(),
        b"rank 0 ended 7 ticks 2 on 0\nampi: done\n".as_slice()
    );
    assert_eq!(rt;
        journal.bytes(),
        b"ampi-journal 1 1 1000000\nT 0 2\nC\n".as_slice()
    );
    Ok(())
}

#[test]
fn a_load_that_fails_is_told(rt: HostRuntime) -> Result<(), Fail> {
    let alloc = rt.alloc();
    let words = words_of(alloc, &["run", "hello.c"])?;
    let mut files = MemFiles::new(alloc);
    files.add("hello.c", HELLO)?;
    files.fail_at(0)?;
    let mut out = MemSink::new(alloc);
    let mut journal = MemSink::new(alloc);
    let status = ampi(alloc, &words, &mut files, &mut out, &mut journal);
    assert_eq!(rt; status, Status::ReadFault { file: 0 });
    assert_eq!(rt; out.bytes(), b"ampi: cannot read hello.c\n".as_slice());
    assert_eq!(rt; files.faults(), 1);
    Ok(())
}

#[test]
fn a_source_one_byte_too_long_is_named(rt: HostRuntime) -> Result<(), Fail> {
    let text = vec![in rt.alloc(); b' '; 1_048_577]?;
    let (status, out, _) = answer(rt.alloc(), &["run", "big.c"], "big.c", text.as_slice())?;
    assert_eq!(rt; status, Status::TooLong { file: 0 });
    assert_eq!(rt; status.number(), 3);
    assert_eq!(rt; out.bytes(), b"ampi: big.c is too long\n".as_slice());
    let (status, _, _) = answer(
        rt.alloc(),
        &["run", "big.c"],
        "big.c",
        &text.as_slice()[1..],
    )?;
    assert_eq!(rt; status.number(), 4);
    Ok(())
}

/// Hello with the put of this number failing in the output or in the journal, after it took so many bytes.
fn broken_off(
    alloc: Global,
    in_journal: bool,
    put: u64,
    taken: usize,
) -> Result<(Status, MemSink, MemSink), AllocError> {
    let words = words_of(alloc, &["run", "hello.c"])?;
    let mut files = MemFiles::new(alloc);
    files.add("hello.c", HELLO)?;
    let mut out = MemSink::new(alloc);
    let mut journal = MemSink::new(alloc);
    let failing = if in_journal { &mut journal } else { &mut out };
    failing.fail_at(put)?;
    failing.takes(taken);
    let status = ampi(alloc, &words, &mut files, &mut out, &mut journal);
    Ok((status, out, journal))
}

#[test]
fn a_put_that_fails_ends_the_program(rt: HostRuntime) -> Result<(), Fail> {
    let header = b"ampi-journal 1 1 1000000\n".as_slice();
    let whole = b"ampi-journal 1 1 1000000\nT 0 4\nC\n".as_slice();
    let cases = [
        (true, 0, 0, b"".as_slice(), b"".as_slice()),
        (true, 0, 4, b"".as_slice(), b"ampi".as_slice()),
        (true, 1, 0, b"".as_slice(), header),
        (
            true,
            1,
            2,
            b"".as_slice(),
            b"ampi-journal 1 1 1000000\nT ".as_slice(),
        ),
        (false, 0, 0, b"".as_slice(), whole),
        (false, 0, 2, b"[0".as_slice(), whole),
        (false, 1, 0, b"[0] hello\n".as_slice(), whole),
        (false, 1, 4, b"[0] hello\nrank".as_slice(), whole),
    ];
    for (in_journal, put, taken, out_is, journal_is) in cases {
        let (status, out, journal) = broken_off(rt.alloc(), in_journal, put, taken)?;
        assert_eq!(rt; status, Status::WriteFault);
        assert_eq!(rt; status.number(), 10);
        assert_eq!(rt; out.bytes(), out_is);
        assert_eq!(rt; journal.bytes(), journal_is);
    }
    Ok(())
}

#[test]
fn a_refusal_that_cannot_be_written_is_a_write_fault(rt: HostRuntime) -> Result<(), Fail> {
    let alloc = rt.alloc();
    let words = words_of(alloc, &["run"])?;
    let mut files = MemFiles::new(alloc);
    let mut out = MemSink::new(alloc);
    out.fail_at(0)?;
    out.takes(5);
    let mut journal = MemSink::new(alloc);
    let status = ampi(alloc, &words, &mut files, &mut out, &mut journal);
    assert_eq!(rt; status, Status::WriteFault);
    assert_eq!(rt; out.bytes(), b"usage".as_slice());
    Ok(())
}
