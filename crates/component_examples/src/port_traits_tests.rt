use crate::judging::bytes_of;
use port_traits::*;
use std::alloc::Global;
use wire_base::Failed;

/// Which calls fail: the one of this number.
fn fails_at(alloc: Global, call: u64) -> Fails {
    match Fails::from_slice(alloc, &[call]) {
        Ok(fails) => fails,
        Err(_) => Fails::new(alloc),
    }
}

/// What is read of a source with these bytes, whose call of this number fails: the fault, or whether it is all of the bytes.
fn read(alloc: Global, text: &[u8], call: u64) -> Result<bool, ReadError> {
    let mut source = MemorySource::new(bytes_of(alloc, text), fails_at(alloc, call));
    match read_text(alloc, &mut source) {
        Ok(all) => Ok(all.as_slice() == text),
        Err(error) => Err(error),
    }
}

/// The bytes written to a sink whose call of this number fails end so, and these are taken.
fn is_written(
    alloc: Global,
    text: &[u8],
    call: u64,
    end: Result<(), Failed>,
    taken: &[u8],
) -> bool {
    let mut sink = MemorySink::new(alloc, fails_at(alloc, call));
    let ended = write_all(&mut sink, text);
    ended == end && sink.taken() == taken
}

#[test]
fn a_text_comes_in_and_goes_out(rt: HostRuntime) {
    let alloc = rt.alloc();
    let text = [7u8; 10_000];
    // no call has the number 0
    assert!(rt; read(alloc, &text, 0) == Ok(true));
    assert!(rt; is_written(alloc, &text, 0, Ok(()), &text));
    // a call that fails
    assert!(rt; read(alloc, &text, 2) == Err(ReadError::Fault));
    assert!(rt; is_written(alloc, &text, 1, Err(Failed), &[]));
}
