//! Readers and writers, and what is built on them: the data and the report.

use ss_base::{
    Alpha, Counted, FaultKind, Faulty, FaultyRead, FaultyWrite, MemoryRead, MemoryWrite, Plan,
    WriteFailure,
};
use ss_machine::{Missed, Source};
use ss_picture::{Sink, SinkError};
use std::alloc::{AllocError, Global};
use std::test::Fail;

// Whether a read of four bytes gives these; None is an error.
fn reads<R: FaultyRead>(reader: &mut R, wanted: Option<&[u8]>) -> bool {
    let mut buf = [0; 4];
    match reader.read_some(&mut buf) {
        Ok(count) => buf.get(..count) == wanted,
        Err(_) => wanted.is_none(),
    }
}

// How often a reader or a writer failed.
fn faults<T: Faulty>(stream: &T) -> u64 {
    stream.faults()
}

#[test]
fn a_reader_of_the_library_is_counted(rt: HostRuntime) {
    let mut reader = Counted::new(b"HELLO".as_slice());
    assert!(rt; reads(&mut reader, Some(b"HELL")));
    assert_eq!(rt; reader.into_inner(), b"O".as_slice());
}

// Whether a reader gives three bytes, and fails then.
fn is_broken_off<R: FaultyRead>(reader: &mut R) -> bool {
    reads(reader, Some(b"HEL")) && reads(reader, None) && faults(reader) == 1
}

#[test]
fn a_reader_fails(rt: HostRuntime) -> Result<(), Fail> {
    let mut reader = MemoryRead::new(rt.alloc(), b"HELLO", Plan::wrong_from_call(3, 2))?;
    assert!(rt; is_broken_off(&mut reader));
    Ok(())
}

// A writer that takes three bytes and then fails.
fn of_three(alloc: Global, failure: WriteFailure) -> Result<MemoryWrite, AllocError> {
    MemoryWrite::new(alloc, 100, Plan::wrong_after_bytes(4096, 3), failure)
}

// How many bytes a writer takes in two writes, and how often it fails.
fn taken<W: FaultyWrite>(writer: &mut W) -> ([Option<usize>; 2], u64) {
    let taken = [
        writer.write_some(b"HELLO").ok(),
        writer.write_some(b"LO").ok(),
    ];
    (taken, faults(writer))
}

#[test]
fn a_writer_fails(rt: HostRuntime) -> Result<(), Fail> {
    let mut writer = of_three(rt.alloc(), WriteFailure::Error)?;
    assert_eq!(rt; taken(&mut writer), ([Some(3), None], 1));
    Ok(())
}

// What two lines answer, and how many of their bytes go out.
fn sent(report: &mut Sink<MemoryWrite>) -> ([Result<(), SinkError>; 2], u128) {
    let answers = [report.write(b"1\n"), report.write(b"2\n")];
    (answers, report.sent())
}

#[test]
fn a_report_is_cut_off(rt: HostRuntime) -> Result<(), Fail> {
    let mut report = Sink::new(of_three(rt.alloc(), WriteFailure::Error)?);
    let answers = [Ok(()), Err(SinkError::Failed)];
    assert_eq!(rt; sent(&mut report), (answers, 3));
    assert_eq!(rt; report.into_inner().bytes(), b"1\n2".as_slice());
    Ok(())
}

// What a report answers, how many of its bytes go out, and how often the writer fails.
fn answer_of(mut report: Sink<MemoryWrite>) -> (Result<(), SinkError>, u128, u64) {
    let answer = report.write(b"ANSWER");
    let sent = report.sent();
    (answer, sent, faults(&report.into_inner()))
}

#[test]
fn a_report_stalls(rt: HostRuntime) -> Result<(), Fail> {
    let writer = of_three(rt.alloc(), WriteFailure::NoByte)?;
    let given_up = (Err(SinkError::Stalled), 3, 1000);
    assert_eq!(rt; answer_of(Sink::new(writer)), given_up);
    Ok(())
}

// Whether a text and 7 are all that is there.
fn are_words<R: FaultyRead>(data: &mut Source<R>) -> bool {
    data.alpha().ok() == Alpha::of(b"BOX")
        && data.ended() == Ok(false)
        && data.integer() == Ok(7)
        && data.ended() == Ok(true)
        && data.integer() == Err(Missed::Fault(FaultKind::EndOfData))
}

#[test]
fn words_are_read(rt: HostRuntime) {
    let mut data = Source::new(Counted::new(b"BOX 7 ".as_slice()));
    assert!(rt; are_words(&mut data));
    assert_eq!(rt; data.into_inner().into_inner(), b"".as_slice());
}

// What is read as a number, and how often the reader fails.
fn number_of(mut data: Source<MemoryRead>) -> (Result<i64, Missed>, u64) {
    let answer = data.integer();
    (answer, faults(&data.into_inner()))
}

#[test]
fn data_cannot_be_read(rt: HostRuntime) -> Result<(), Fail> {
    let reader = MemoryRead::new(rt.alloc(), b"5", Plan::wrong_from_call(1, 1))?;
    assert_eq!(rt; number_of(Source::new(reader)), (Err(Missed::Input), 1));
    Ok(())
}
