//! Each read and each write of a call failing in turn.

use crate::cli::calls::{Call, HI, Row, rows};
use crate::cli::slow::{SlowReader, SlowWriter};
use pr_jobs::{BLOCK, CliFault, Ending, TeeReader, Watched};
use std::alloc::{AllocError, Global};
use std::io::Read;
use std::process::Abort;

/// Whether the call reports that this read failed and has written nothing; or writes its text, where
/// no read fails. There is one read for each byte, and one that finds the end.
fn tells_read(alloc: Global, call: Call, input: &[u8], text: &[u8], fail_at: usize) -> bool {
    let mut reader = Watched::new(SlowReader::new(input, fail_at));
    let mut output = Watched::new(Vec::new(alloc));
    let answer = call.make(alloc, &mut reader, &mut output);
    let failed = reader.failed();
    let written = output.into_inner();
    if fail_at <= input.len() {
        answer == Err(CliFault::ReadFailed) && failed && written.is_empty()
    } else {
        answer == Ok(Ending::Done) && !failed && written.as_slice() == text
    }
}

/// Whether the call reports that this write or flush failed, and has written its text up to there; or
/// all of it, where none fails. There is one write for each byte.
fn tells_write(
    alloc: Global,
    call: Call,
    input: &[u8],
    text: &[u8],
    fail_at: usize,
    takes_none: bool,
) -> bool {
    let mut reader = Watched::new(input);
    let mut output = Watched::new(SlowWriter::new(alloc, fail_at, takes_none));
    let answer = call.make(alloc, &mut reader, &mut output);
    let failed = output.failed();
    let written = output.into_inner().bytes;
    let flushed = fail_at.saturating_sub(written.len());
    if fail_at < text.len().saturating_add(call.flushes()) {
        answer == Err(CliFault::WriteFailed)
            && failed
            && text.starts_with(written.as_slice())
            && written.len() <= fail_at
            && flushed < call.flushes()
    } else {
        answer == Ok(Ending::Done) && !failed && written.as_slice() == text
    }
}

/// Each read of a row failing in turn, and none.
fn reads_fail(rt: &(impl Abort + AllocGlobal), number: usize, (call, input, wanted): Row) {
    let input = input.as_bytes();
    let text = wanted.as_bytes();
    for fail_at in 0..input.len().saturating_add(3) {
        let is_told = tells_read(rt.alloc(), call, input, text, fail_at);
        assert!(rt; is_told, "row {number}, read {fail_at}");
    }
}

/// Each write and flush of a row failing in turn, and none: by an error, or by taking no byte.
fn writes_fail(rt: &(impl Abort + AllocGlobal), number: usize, (call, input, wanted): Row) {
    let input = input.as_bytes();
    let text = wanted.as_bytes();
    for fail_at in 0..text.len().saturating_add(5) {
        let is_told = tells_write(rt.alloc(), call, input, text, fail_at, false)
            && tells_write(rt.alloc(), call, input, text, fail_at, true);
        assert!(rt; is_told, "row {number}, write {fail_at}");
    }
}

/// A failed read is reported before a bad line that came earlier, too.
#[test]
fn each_read_fails(rt: HostRuntime) {
    for (number, row) in rows().iter().enumerate() {
        reads_fail(&rt, number, *row);
    }
    let is_told = tells_read(rt.alloc(), Call::Check, b"0 121\n100 001\n", b"", 10);
    assert!(&rt; is_told, "failed_read_before_bad_line");
}

#[test]
fn each_write_fails(rt: HostRuntime) {
    for (number, row) in rows().iter().enumerate() {
        writes_fail(&rt, number, *row);
    }
}

/// A script that prints thirty lines of 255 letters.
fn long_script(alloc: Global) -> Result<Vec<u8>, AllocError> {
    let mut script = b"OPEN 4,4\n".to_vec(alloc)?;
    for _ in 0..30 {
        script.extend_from_slice(b"PRINT#4,\"")?;
        script.extend_from_slice(&[b'A'; 255])?;
        script.extend_from_slice(b"\"\n")?;
    }
    Ok(script)
}

/// A page text of more than one block, with writes failing near the end of the first block, in
/// the next one, at the flush, and not at all.
#[test]
fn long_text(rt: HostRuntime) {
    let script = long_script(rt.alloc()).expect(&rt, "memory");
    let (_answer, text) = Call::PageText.answer(rt.alloc(), &script);
    let whole = text.len();
    assert!(&rt; BLOCK < whole && whole < 2 * BLOCK);
    for fail_at in [
        0,
        1,
        BLOCK - 1024,
        BLOCK - 1,
        BLOCK,
        BLOCK + 1,
        whole - 1,
        whole,
        whole + 1,
    ] {
        let is_told = tells_write(rt.alloc(), Call::PageText, &script, &text, fail_at, false);
        assert!(&rt; is_told, "write {fail_at}");
    }
}

/// What is kept of the script where this read fails, and whether it was read whole.
fn kept_of(alloc: Global, fail_at: usize, is_kept: bool) -> (Option<Vec<u8>>, bool) {
    let reader = SlowReader::new(HI.as_bytes(), fail_at);
    let mut input = Watched::new(TeeReader::new(alloc, reader, is_kept));
    let mut output = Watched::new(Vec::new(alloc));
    let is_whole = Call::PageText.make(alloc, &mut input, &mut output).is_ok();
    (input.into_inner().into_bytes(), is_whole)
}

#[test]
fn all_that_came_is_kept(rt: HostRuntime) {
    for fail_at in 0..HI.len() + 3 {
        let (kept, is_whole) = kept_of(rt.alloc(), fail_at, true);
        let came = &HI.as_bytes()[..fail_at.min(HI.len())];
        let kept = kept.expect(&rt, "memory");
        let is_well = kept.as_slice() == came && is_whole == (fail_at > HI.len());
        assert!(&rt; is_well, "read {fail_at}");
    }
    let (kept, is_whole) = kept_of(rt.alloc(), HI.len() + 1, false);
    assert!(&rt; kept.is_none() && is_whole, "nothing_is_kept_unasked");
}

#[test]
fn watched_stays_failed(rt: HostRuntime) {
    let mut input = Watched::new(SlowReader::new(HI.as_bytes(), 0));
    let mut buffer = [0u8; 4];
    assert!(&rt; input.read(&mut buffer).is_err() && input.failed());
    assert!(&rt; input.read(&mut buffer).is_ok() && input.failed());
    assert!(&rt; input.into_inner().given == 1);
}
