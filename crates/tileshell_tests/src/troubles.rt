//! Runs whose devices are interrupted, and runs whose devices fail.

use crate::memory::{Drips, Ran, Wanted, options, outcome_of};
use std::alloc::Global;
use std::io::{BufWriter, ErrorKind};
use std::process::Abort;
use std::test::Fail;
use test_devices::drip::{Calls, DripSink, DripSource};
use test_devices::std_devices::{Deaf, Slip, SlipReader, SlipWriter};
use test_fixtures::tiles::{RENAME, ROADS, T0};
use tileshell::{DeviceName, FromRead, FromWrite, Outcome, Sink};

const FAULT_OF_TILE: Outcome = Outcome::Device(DeviceName::Tile);

const FAULT_OF_SCRIPT: Outcome = Outcome::Device(DeviceName::Script);

const FAULT_OF_REPLIES: Outcome = Outcome::Device(DeviceName::Replies);

const FAULT_OF_OUT: Outcome = Outcome::Device(DeviceName::Out);

/// What was written is a prefix of what is wanted.
fn assert_prefixes(rt: &impl Abort, drips: &Drips<'_>, want: Wanted<'_>) {
    assert!(rt; want.replies.starts_with(&drips.replies.taken));
    assert!(rt; want.tile.starts_with(&drips.out.taken));
}

/// All replies were written; and where the tile was, all of it.
fn assert_whole(rt: &impl Abort, drips: &Drips<'_>, want: Wanted<'_>, has_tile: bool) {
    assert_eq!(rt; drips.replies.taken.as_slice(), want.replies);
    if has_tile {
        assert_eq!(rt; drips.out.taken.as_slice(), want.tile);
    }
}

/// A device failed before the tile was written.
fn assert_cut(rt: &impl Abort, drips: &Drips<'_>, outcome: Outcome) {
    let replies = drips.replies.taken.as_slice();
    assert_eq!(rt; drips.out.calls.made, 0);
    if outcome == FAULT_OF_SCRIPT {
        assert!(rt; replies.is_empty() || replies.ends_with(b"\n"));
    }
    if outcome == FAULT_OF_TILE {
        assert_eq!(rt; drips.replies.calls.made, 0);
    }
}

/// What was written is what the outcome says, where a run without trouble is as wanted.
fn assert_written(rt: &impl Abort, drips: &Drips<'_>, outcome: Outcome, want: Wanted<'_>) {
    assert_prefixes(rt, drips, want);
    if outcome == want.outcome || outcome == FAULT_OF_OUT {
        assert_whole(rt, drips, want, outcome == want.outcome);
    } else {
        assert_cut(rt, drips, outcome);
    }
}

#[test]
fn a_thousand_interrupted_calls_are_made_again(rt: HostRuntime) {
    let want = Wanted {
        outcome: Outcome::Done,
        replies: b"ok\n",
        tile: &ROADS,
    };
    for (tile, script, replies, out, outcome) in [
        (1000, 0, 0, 0, Outcome::Done),
        (1001, 0, 0, 0, FAULT_OF_TILE),
        (0, 1000, 0, 0, Outcome::Done),
        (0, 1001, 0, 0, FAULT_OF_SCRIPT),
        (600, 400, 0, 0, Outcome::Done),
        (600, 401, 0, 0, FAULT_OF_SCRIPT),
        (0, 0, 1000, 0, Outcome::Done),
        (0, 0, 1001, 0, FAULT_OF_REPLIES),
        (250, 250, 250, 250, Outcome::Done),
        (250, 250, 250, 251, FAULT_OF_OUT),
    ] {
        let mut drips = Drips::new(rt.alloc(), &T0, RENAME);
        drips.set_calls(DeviceName::Tile, Calls::interrupted(tile));
        drips.set_calls(DeviceName::Script, Calls::interrupted(script));
        drips.set_calls(DeviceName::Replies, Calls::interrupted(replies));
        drips.set_calls(DeviceName::Out, Calls::interrupted(out));
        let outcome_met = drips.run(rt.alloc(), options(false));
        assert_eq!(rt; outcome_met, outcome, "{tile} {script} {replies} {out}");
        assert_written(&rt, &drips, outcome, want);
        if outcome == FAULT_OF_SCRIPT {
            assert_eq!(rt; drips.replies.calls.made, 0);
        }
    }
}

/// How often each device is called in a run without trouble: once for each byte, and once for the
/// end of a source and for each flush of a sink.
type CallCounts = [(DeviceName, u64); 4];

fn call_counts(tile: u64, script: u64, replies: u64, out: u64) -> CallCounts {
    [
        (DeviceName::Tile, tile),
        (DeviceName::Script, script),
        (DeviceName::Replies, replies),
        (DeviceName::Out, out),
    ]
}

/// A device fails at each of its calls in turn.
fn assert_fails_at_each_call(
    rt: &(impl Abort + AllocGlobal),
    script: &[u8],
    (device, count): (DeviceName, u64),
    want: Wanted<'_>,
) {
    for call in 0..=count {
        let mut drips = Drips::new(rt.alloc(), &T0, script);
        drips.set_calls(device, Calls::failing_at(call));
        let outcome = drips.run(rt.alloc(), options(false));
        if call < count {
            assert_eq!(rt; outcome, Outcome::Device(device), "{device} at {call}");
        } else {
            assert_eq!(rt; outcome, want.outcome, "{device} at {call}");
        }
        assert_written(rt, &drips, outcome, want);
    }
}

/// Each device fails at each of its calls in turn.
fn assert_devices_fail(
    rt: &(impl Abort + AllocGlobal),
    script: &[u8],
    counts: CallCounts,
    want: Wanted<'_>,
) {
    for count in counts {
        assert_fails_at_each_call(rt, script, count, want);
    }
}

#[test]
fn a_device_that_fails_is_named(rt: HostRuntime) {
    let renamed = Wanted {
        outcome: Outcome::Done,
        replies: b"ok\n",
        tile: &ROADS,
    };
    assert_devices_fail(&rt, RENAME, call_counts(33, 25, 4, 37), renamed);
    let undone = Wanted {
        outcome: Outcome::SomeRefused,
        replies: b"ok\nline 2 refused 12 UnknownCommand\nok\n",
        tile: &T0,
    };
    let script = b"rename-layer \"a\" \"roads\"\nfrob\nundo\n";
    assert_devices_fail(&rt, script, call_counts(33, 36, 42, 33), undone);
    let refused = Wanted {
        outcome: Outcome::SomeRefused,
        replies: b"line 4 refused 50 NothingToUndo\n",
        tile: &T0,
    };
    let script = b"# note\n\n \t\nundo";
    assert_devices_fail(&rt, script, call_counts(33, 16, 33, 33), refused);
}

#[test]
fn a_strict_run_stops_before_the_script_fails(rt: HostRuntime) {
    for (strict, outcome, reads) in [(true, Outcome::StrictStop, 5), (false, FAULT_OF_SCRIPT, 6)] {
        let mut drips = Drips::new(rt.alloc(), &T0, b"undo\n");
        drips.set_calls(DeviceName::Script, Calls::failing_at(5));
        assert_eq!(rt; drips.run(rt.alloc(), options(strict)), outcome);
        assert_eq!(rt; drips.script.calls.made, reads);
        assert_eq!(rt;
            drips.replies.taken.as_slice(),
            b"line 1 refused 50 NothingToUndo\n".as_slice()
        );
        assert_eq!(rt; drips.out.calls.made, 0);
    }
}

/// Runs the script with its replies to this sink. Returns the outcome, and how often the script and
/// `out` were called.
fn replying_to<W: Sink>(
    alloc: Global,
    script: &[u8],
    replies: &mut W,
    strict: bool,
) -> (Outcome, u64, u64) {
    let mut script = DripSource::new(script, Calls::untroubled());
    let mut out = DripSink::new(alloc, Calls::untroubled());
    let outcome = outcome_of(
        alloc,
        &mut FromRead::new(T0.as_slice()),
        &mut script,
        replies,
        &mut out,
        options(strict),
    );
    (outcome, script.calls.made, out.calls.made)
}

#[test]
fn replies_that_nobody_takes_are_a_fault(rt: HostRuntime) -> Result<(), Fail> {
    for (script, reads, strict) in [
        (RENAME, 25, false),
        (RENAME, 25, true),
        (b"undo\n".as_slice(), 5, false),
        (b"undo\n".as_slice(), 5, true),
    ] {
        let want = (FAULT_OF_REPLIES, reads, 0);
        let mut deaf = FromWrite::new(Deaf { error: None });
        assert_eq!(rt; replying_to(rt.alloc(), script, &mut deaf, strict), want);
        let held_back = BufWriter::new(rt.alloc(), Deaf { error: None })?;
        let mut held_back = FromWrite::new(held_back);
        assert_eq!(rt;
            replying_to(rt.alloc(), script, &mut held_back, strict),
            want
        );
    }
    Ok(())
}

#[test]
fn what_a_failed_file_took_is_a_prefix(rt: HostRuntime) {
    let mut drips = Drips::new(rt.alloc(), &T0, RENAME);
    drips.out = DripSink::of_most(rt.alloc(), 10, Calls::failing_at(1));
    assert_eq!(rt; drips.run(rt.alloc(), options(false)), FAULT_OF_OUT);
    assert_eq!(rt; drips.replies.taken.as_slice(), b"ok\n".as_slice());
    assert_eq!(rt; drips.out.taken.as_slice(), &ROADS[..10]);
}

/// An error at the third call, where the devices are the same.
fn slip_of(device: DeviceName, troubled: DeviceName, kind: ErrorKind) -> Slip {
    let calls_before = if device == troubled { Some(2) } else { None };
    Slip::new(calls_before, kind)
}

/// Renames over readers and writers of std, one of which returns an error at its third call.
fn renamed_with_slip(alloc: Global, device: DeviceName, kind: ErrorKind) -> Ran {
    let tile_slip = slip_of(DeviceName::Tile, device, kind);
    let script_slip = slip_of(DeviceName::Script, device, kind);
    let replies_slip = slip_of(DeviceName::Replies, device, kind);
    let mut tile = FromRead::new(SlipReader::new(&T0, tile_slip));
    let mut script = FromRead::new(SlipReader::new(RENAME, script_slip));
    let mut replies = FromWrite::new(SlipWriter::new(alloc, replies_slip));
    let out_slip = slip_of(DeviceName::Out, device, kind);
    let mut out = FromWrite::new(SlipWriter::new(alloc, out_slip));
    let outcome = outcome_of(
        alloc,
        &mut tile,
        &mut script,
        &mut replies,
        &mut out,
        options(false),
    );
    Ran {
        outcome,
        replies: replies.into_inner().taken,
        tile: out.into_inner().taken,
    }
}

#[test]
fn an_error_in_mid_stream_is_a_fault(rt: HostRuntime) {
    for (device, replies, tile) in [
        (DeviceName::Tile, b"".as_slice(), b"".as_slice()),
        (DeviceName::Script, b"".as_slice(), b"".as_slice()),
        (DeviceName::Replies, b"ok".as_slice(), b"".as_slice()),
        (DeviceName::Out, b"ok\n".as_slice(), b"\x1a\x22".as_slice()),
    ] {
        for kind in [
            ErrorKind::Other,
            ErrorKind::WouldBlock,
            ErrorKind::UnexpectedEof,
        ] {
            let ran = renamed_with_slip(rt.alloc(), device, kind);
            assert_eq!(rt; ran.outcome, Outcome::Device(device), "{kind:?}");
            assert_eq!(rt; ran.replies.as_slice(), replies, "{device} {kind:?}");
            assert_eq!(rt; ran.tile.as_slice(), tile, "{device} {kind:?}");
        }
        let ran = renamed_with_slip(rt.alloc(), device, ErrorKind::Interrupted);
        assert_eq!(rt; ran.outcome, Outcome::Done);
        assert_eq!(rt; ran.replies.as_slice(), b"ok\n".as_slice());
        assert_eq!(rt; ran.tile.as_slice(), ROADS.as_slice());
    }
}
