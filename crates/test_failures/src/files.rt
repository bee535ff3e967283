//! Conversions and unrollings between files in memory that fail, and files that move few bytes in a
//! call.
use crate::failures::row_parts;
use crate::memory_files::{Calls, MemoryFiles, Readable};
use crate::run::{Behaviour, run};
use crate::streams::NEVER;
use aig_tools::output_is_terminal;
use std::alloc::{AllocError, Global};
use std::fs;
use std::fs::Metadata;
use std::os::unix::fs::MetadataExt;
use std::rt::Files;
use std::test::Fail;

/// Whether the program answers this status and reports this, over these files: no byte is read from
/// the standard input or written to the standard output, since their first call would fail.
fn is_reported(
    alloc: Global,
    files: &MemoryFiles<'_, '_>,
    line: &str,
    status: u8,
    message: &str,
) -> bool {
    let behaviour = Behaviour {
        piece: 1,
        failing_read: 0,
        failing_write: 0,
    };
    match run(files, alloc, line, b"aag 0 0 0 0 0\n", behaviour) {
        Ok(outcome) => {
            outcome.has_told(status, message) && outcome.reads == 0 && outcome.output.calls == 0
        }
        Err(_) => false,
    }
}

/// Words, `$`, the text of the source, `=` and what is written, with a `#` between rows.
const ROWS: &str = "\
aiger aigtoaig source destination.aag$aag 3 1 1 2 0
6
2 7
2
0
=aag 3 1 1 2 0
6
2 7
2
0
#\
aiger aigtoaig --sync --strip source destination$aag 9 1 0 1 0
18
19
i0 a
c
=aig 1 1 0 1 0
3
#\
aiger aigtoaig --keep-map source destination$aag 9 1 0 1 0
18
19
=aig 1 1 0 1 0
3
c
aigmap 1 9 1 0 0 0
9
aigmap end
#\
aiger aigtoaig --undo-map --ascii source destination$aig 1 1 0 1 0
3
c
aigmap 1 9 1 0 0 0
9
aigmap end
=aag 9 1 0 1 0
18
19
#\
aiger aigunroll --frames 2 --sync source destination.aag$aag 1 0 1 1 0
2 3
2
=aag 0 0 0 2 0
0
1
#\
aiger aigunroll --frames 3 source destination$aag 1 1 0 1 0
2
3
=aig 3 3 0 3 0
3
5
7
";

fn on_disk<T: Files>(rt: &T) -> Result<Metadata, Fail> {
    fs::write(rt, "on_disk", "")?;
    let metadata = fs::metadata(rt, "on_disk");
    fs::remove_file(rt, "on_disk")?;
    Ok(metadata?)
}

/// The words of a row and its files, which move three bytes in a call; none can be closed yet.
fn row_of<'a>(row: &'a str, calls: &'a Calls) -> (&'a str, MemoryFiles<'a, 'a>) {
    let (words, text, wanted) = row_parts(row);
    let source = Readable {
        name: "source",
        text,
        failing: NEVER,
    };
    let files = MemoryFiles {
        readable: [source, source],
        wanted: Some(wanted),
        piece: 3,
        failing_write: NEVER,
        metadata: None,
        calls,
    };
    (words, files)
}

/// What is told where the destination is not written, and why.
fn unwritten(alloc: Global, words: &str, why: &str) -> Result<String, AllocError> {
    let ending = if words.ends_with(".aag") { ".aag" } else { "" };
    format!(in alloc; "aiger: destination{ending}: cannot write: {why}\n")
}

/// The files hold what is wanted. One is opened, one made and, where there is no disk, synced;
/// nothing else is done.
#[test]
fn files_in_pieces(rt: HostRuntime) -> Result<(), Fail> {
    let metadata = Metadata::of_file(0);
    for row in ROWS.split('#') {
        for piece in [1, 7, 30_000] {
            let calls = Calls::none();
            let (words, mut files) = row_of(row, &calls);
            files.piece = piece;
            files.metadata = Some(&metadata);
            let held = is_reported(rt.alloc(), &files, words, 0, "") && calls.are(1, 1, 1);
            assert!(rt; held, "in pieces of {piece}");
        }
    }
    Ok(())
}

/// On a disk it is synced where that is asked for.
#[test]
fn files_on_a_disk(rt: HostRuntime) -> Result<(), Fail> {
    let metadata = on_disk(&rt)?;
    let unasked = u32::from(metadata.dev() & 0x000f_ff00 == 0);
    for row in ROWS.split('#') {
        let calls = Calls::none();
        let (words, mut files) = row_of(row, &calls);
        files.metadata = Some(&metadata);
        let synced = if words.contains("--sync") { 1 } else { unasked };
        assert!(rt; is_reported(rt.alloc(), &files, words, 0, "") && calls.are(1, 1, synced));
    }
    Ok(())
}

/// What is not a file is not synced.
#[test]
fn unsynced_files(rt: HostRuntime) -> Result<(), Fail> {
    let metadata = fs::metadata(&rt, ".")?;
    for row in ROWS.split('#') {
        let calls = Calls::none();
        let (words, mut files) = row_of(row, &calls);
        files.metadata = Some(&metadata);
        assert!(rt; is_reported(rt.alloc(), &files, words, 0, "") && calls.are(1, 1, 0));
    }
    Ok(())
}

/// The source cannot be opened, or each of its reads fails in turn.
#[test]
fn failed_sources(rt: HostRuntime) {
    let line = "aiger: source: cannot read: Interrupted system call\n";
    for row in ROWS.split('#') {
        let calls = Calls::none();
        let (words, mut files) = row_of(row, &calls);
        for read in 0..row_parts(row).1.len() as u64 / 3 {
            files.readable[0].failing = read;
            assert!(rt;
                is_reported(rt.alloc(), &files, words, 1, line),
                "read {read}"
            );
        }
        let words = "aiger aigtoaig another destination";
        let line = "aiger: another: cannot read: No such file or directory\n";
        assert!(rt; is_reported(rt.alloc(), &files, words, 1, line));
    }
}

/// The destination cannot be made or closed, or each of its writes fails in turn.
#[test]
fn failed_destinations(rt: HostRuntime) -> Result<(), Fail> {
    for row in ROWS.split('#') {
        let calls = Calls::none();
        let (words, mut files) = row_of(row, &calls);
        let line = unwritten(rt.alloc(), words, "Input/output error")?;
        assert!(rt;
            is_reported(rt.alloc(), &files, words, 1, line.as_str()),
            "close"
        );
        let line = unwritten(rt.alloc(), words, "No space left on device")?;
        for write in 0..row_parts(row).2.len() as u64 / 3 {
            files.failing_write = write;
            let held = is_reported(rt.alloc(), &files, words, 1, line.as_str());
            assert!(rt; held, "write {write}");
        }
        files.wanted = None;
        let line = unwritten(rt.alloc(), words, "Permission denied")?;
        assert!(rt;
            is_reported(rt.alloc(), &files, words, 1, line.as_str()),
            "create"
        );
    }
    Ok(())
}

/// The standard output is a terminal where it is a character device with such a number. Without
/// metadata of it nothing is known.
#[test]
fn terminals(rt: HostRuntime) -> Result<(), Fail> {
    for (name, is_terminal) in [("/dev/tty", true), ("/dev/null", false), (".", false)] {
        let metadata = fs::metadata(&rt, name)?;
        let calls = Calls::none();
        let (_, mut files) = row_of(ROWS, &calls);
        assert!(rt; !output_is_terminal(&files));
        files.metadata = Some(&metadata);
        assert!(rt; output_is_terminal(&files) == is_terminal, "{name}");
    }
    Ok(())
}

/// Words, `$` and a source that is refused, or whose circuit cannot be unrolled, `=` and what is
/// told of it.
const REFUSED: &str = "\
aiger aigtoaig source destination$aag 1 1 0 0 0
=aiger: source: line 2: file ends too early
#\
aiger aigtoaig --undo-map source destination$aig 0 0 0 0 0
=aiger: source: no map
#\
aiger aigunroll --frames 1 source destination$aag 0 0 0 0 0 0 0 0 1
0
=aiger: source: justice or fairness cannot be unrolled
";

/// Such a source is opened, and no destination is made.
#[test]
fn refused_sources(rt: HostRuntime) {
    for row in REFUSED.split('#') {
        let calls = Calls::none();
        let (words, files) = row_of(row, &calls);
        let (_, line) = row.split_once('=').unwrap_or((row, row));
        assert!(rt; is_reported(rt.alloc(), &files, words, 1, line) && calls.are(1, 0, 0));
    }
}
