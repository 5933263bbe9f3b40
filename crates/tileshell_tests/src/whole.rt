//! Whole inputs and outputs over devices.

use std::io::{BufWriter, ErrorKind};
use std::test::Fail;
use test_devices::drip::{Calls, DripSink, DripSource};
use test_devices::std_devices::Deaf;
use tile_device::{
    FromRead, FromWrite, ReadFault, Retries, Sink, Source, Trouble, read_some, read_to_limit,
    write_all, write_and_flush,
};

const TEXT: &[u8] = b"one two";

/// The counts of a device after one trouble.
fn counts_of(trouble: Trouble) -> (u64, u64) {
    match trouble {
        Trouble::Interrupted => (1, 0),
        Trouble::Failed => (0, 1),
    }
}

#[test]
fn reads_to_the_end_or_the_limit(rt: HostRuntime) -> Result<(), Fail> {
    for (limit, want) in [(0, 0), (3, 3), (6, 6), (7, 7), (8, 7), (100_000, 7)] {
        let mut retries = Retries::new(0);
        let mut source = FromRead::new(TEXT);
        let bytes = read_to_limit(rt.alloc(), &mut source, limit, &mut retries)?;
        assert_eq!(rt; bytes.as_slice(), &TEXT[..want], "at {limit}");
        let mut drip = DripSource::new(TEXT, Calls::untroubled());
        let bytes = read_to_limit(rt.alloc(), &mut drip, limit, &mut retries)?;
        assert_eq!(rt; bytes.as_slice(), &TEXT[..want], "by drips at {limit}");
    }
    Ok(())
}

#[test]
fn reads_more_than_a_piece(rt: HostRuntime) -> Result<(), Fail> {
    let long = vec![in rt.alloc(); 7u8; 40_000]?;
    let mut source = FromRead::new(long.as_slice());
    let bytes = read_to_limit(rt.alloc(), &mut source, 39_999, &mut Retries::new(0))?;
    assert_eq!(rt; bytes.len(), 39_999);
    assert_eq!(rt; source.into_inner().len(), 1);
    Ok(())
}

#[test]
fn reads_up_to_a_trouble(rt: HostRuntime) {
    for trouble in [Trouble::Interrupted, Trouble::Failed] {
        for call in 0..8 {
            let calls = Calls::new(call as u64, call as u64 + 1, trouble);
            let mut source = DripSource::new(TEXT, calls);
            let result = read_to_limit(rt.alloc(), &mut source, 100, &mut Retries::new(0));
            assert_eq!(rt; result.err(), Some(ReadFault::Device(trouble)));
            assert_eq!(rt; source.rest, &TEXT[call..]);
            let counts = source.calls.counts;
            assert_eq!(rt; (counts.interruptions, counts.failures), counts_of(trouble));
        }
    }
}

#[test]
fn writes_all_or_up_to_a_trouble(rt: HostRuntime) {
    for trouble in [Trouble::Interrupted, Trouble::Failed] {
        for call in 0..8 {
            let calls = Calls::new(call as u64, call as u64 + 1, trouble);
            let mut sink = DripSink::new(rt.alloc(), calls);
            let want = if call < 7 { trouble } else { Trouble::Failed };
            let result = write_and_flush(&mut sink, TEXT, &mut Retries::new(0));
            assert_eq!(rt; result, Err(want));
            assert_eq!(rt; sink.taken.as_slice(), &TEXT[..call]);
            let counts = sink.calls.counts;
            assert_eq!(rt; (counts.interruptions, counts.failures), counts_of(want));
        }
    }
}

#[test]
fn interrupted_calls_are_made_again(rt: HostRuntime) {
    for (given, left, trouble) in [
        (2, 0, Some(Trouble::Interrupted)),
        (3, 0, None),
        (5, 2, None),
    ] {
        let mut retries = Retries::new(given);
        let mut source = DripSource::new(TEXT, Calls::interrupted(3));
        let result = read_to_limit(rt.alloc(), &mut source, 100, &mut retries);
        assert_eq!(rt;
            result.err(),
            trouble.map(|trouble| ReadFault::Device(trouble))
        );
        assert_eq!(rt; retries.left(), left);
        let mut retries = Retries::new(given);
        let mut source = DripSource::new(TEXT, Calls::interrupted(3));
        assert_eq!(rt;
            read_some(&mut source, &mut [0; 4], &mut retries).err(),
            trouble
        );
        assert_eq!(rt; retries.left(), left);
        let mut retries = Retries::new(given);
        let mut sink = DripSink::new(rt.alloc(), Calls::interrupted(3));
        assert_eq!(rt; write_all(&mut sink, TEXT, &mut retries).err(), trouble);
        assert_eq!(rt; retries.left(), left);
    }
}

#[test]
fn writes_to_a_vector(rt: HostRuntime) -> Result<(), Fail> {
    let buffered = BufWriter::with_capacity(rt.alloc(), 64, Vec::new(rt.alloc()))?;
    let mut sink = FromWrite::new(buffered);
    assert_eq!(rt;
        write_and_flush(&mut sink, TEXT, &mut Retries::new(0)),
        Ok(())
    );
    assert_eq!(rt; (sink.interruptions(), sink.failures()), (0, 0));
    assert_eq!(rt; sink.into_inner().get_ref().as_slice(), TEXT);
    Ok(())
}

#[test]
fn distinguishes_interruptions_from_failures(rt: HostRuntime) {
    let mut buffer = [0; 4];
    for (kind, trouble) in [
        (ErrorKind::Interrupted, Trouble::Interrupted),
        (ErrorKind::WouldBlock, Trouble::Failed),
        (ErrorKind::Other, Trouble::Failed),
    ] {
        let counts = counts_of(trouble);
        let mut source = FromRead::new(Deaf { error: Some(kind) });
        assert_eq!(rt; source.read(&mut buffer), Err(trouble));
        assert_eq!(rt; (source.interruptions(), source.failures()), counts);
        let mut sink = FromWrite::new(Deaf { error: Some(kind) });
        assert_eq!(rt; sink.write(TEXT), Err(trouble));
        assert_eq!(rt; (sink.interruptions(), sink.failures()), counts);
        assert_eq!(rt; sink.flush(), Err(Trouble::Failed));
        assert_eq!(rt; sink.failures(), counts.1 + 1);
    }
}

#[test]
fn a_write_of_nothing_fails(rt: HostRuntime) {
    let mut sink = FromWrite::new(Deaf { error: None });
    assert_eq!(rt; sink.write(&[]), Ok(0));
    assert_eq!(rt;
        write_all(&mut sink, TEXT, &mut Retries::new(9)),
        Err(Trouble::Failed)
    );
    assert_eq!(rt; (sink.interruptions(), sink.failures()), (0, 1));
}
