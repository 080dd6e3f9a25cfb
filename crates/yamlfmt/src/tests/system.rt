//! Properties of the system that no contract states: that reading and writing succeed, and the results if a reader or a
//! writer fails.

use crate::tests::answers::reports;
use crate::tests::faulty::FaultyReader;
use std::alloc::Global;
use std::io;
use std::io::Read;
use yf_host::report::report;
use yf_lines::fault::Fault;
use yf_lines::output::write_text;
use yf_lines::place::Position;
use yf_lines::watched::{Sink, Source, Watched};
use yf_rules::input::read_all;

/// A reader that gives the same byte for ever.
#[derive(Drop)]
struct EndlessReader;

impl Read for EndlessReader {
    fn read(&mut self, buffer: &mut [u8]) -> io::Result<usize> {
        buffer.fill(b'x');
        Ok(buffer.len())
    }
}

/// Returns whether a reader's bytes are read whole, up to a limit, or reading is refused, as wanted. `fails` says
/// whether the reader must have failed.
fn reads<R: Source + Drop>(
    alloc: Global,
    mut reader: R,
    limit: usize,
    wanted: Option<&[u8]>,
    fails: bool,
) -> bool {
    let good = match (&read_all(alloc, &mut reader, limit), wanted) {
        (Ok(read), Some(bytes)) => read.as_slice() == bytes,
        (Err(Fault::ReadFailed), None) => true,
        _ => false,
    };
    good && reader.failed() == fails
}

#[test]
fn reads_up_to_the_limit(rt: HostRuntime) {
    let bytes = b"0123456789".as_slice();
    assert!(rt; reads(rt.alloc(), Watched::new(bytes), 10, Some(bytes), false));
    assert!(rt; reads(rt.alloc(), Watched::new(bytes), 9, None, false));
    assert!(rt; reads(rt.alloc(), Watched::new(EndlessReader), 10, None, false));
    let broken = FaultyReader {
        rest: b"",
        reads_left: 0,
    };
    assert!(rt; reads(rt.alloc(), Watched::new(broken), 10, None, true));
}

/// Returns whether a writer with room for at most 8 bytes takes a prefix of a text, and fails if that is not the whole
/// text.
fn writes(bytes: &[u8], room: usize) -> bool {
    let room = room.min(8);
    let mut taken = [0; 8];
    let mut writer = Watched::new(&mut taken[..room]);
    let is_whole = match write_text(&mut writer, bytes) {
        Ok(()) => true,
        Err(_) => false,
    };
    let fails = writer.failed();
    is_whole == (bytes.len() <= room)
        && fails != is_whole
        && taken[..room.min(bytes.len())] == bytes[..room.min(bytes.len())]
}

#[test]
fn writes_a_front_and_fails(rt: HostRuntime) {
    assert!(rt; writes(b"---\n- a\n", 3));
    assert!(rt; writes(b"a", 0));
    assert!(rt; writes(b"", 0));
}

const PLACE: Position = Position {
    line: 12,
    column: 7,
};

/// Faults, their statuses and their lines. `settings` tests the fault of a wrong key.
const FAULTS: [(Fault, u8, &str); 11] = [
    (
        Fault::NotUtf8 { offset: 2 },
        2,
        "byte 2 refused: not-utf8\n",
    ),
    (
        Fault::Syntax {
            place: PLACE,
            what: "an entry",
        },
        2,
        "12:7 refused: syntax\n",
    ),
    (
        Fault::TooDeep { place: PLACE },
        2,
        "12:7 refused: too-deep\n",
    ),
    (
        Fault::UnknownHandle { place: PLACE },
        2,
        "12:7 refused: unknown-handle\n",
    ),
    (
        Fault::UnknownAlias { place: PLACE },
        2,
        "12:7 refused: unknown-alias\n",
    ),
    (
        Fault::RepeatedDirective { place: PLACE },
        2,
        "12:7 refused: repeated-directive\n",
    ),
    (
        Fault::BadVersion { place: PLACE },
        2,
        "12:7 refused: bad-version\n",
    ),
    (
        Fault::EscapeValue { place: PLACE },
        2,
        "12:7 refused: escape-value\n",
    ),
    (Fault::Memory, 3, "no memory\n"),
    (Fault::ReadFailed, 3, "read failed\n"),
    (Fault::WriteFailed, 3, "write failed\n"),
];

/// Returns whether the status is kept if the report fails, and the stream then reports a failure.
fn keeps_the_status() -> bool {
    let mut room = [0; 3];
    let mut stream = Watched::new(room.as_mut_slice());
    report(&Fault::Memory, &mut stream) == 3 && stream.failed()
}

#[test]
fn reports_faults(rt: HostRuntime) {
    for (fault, status, line) in &FAULTS {
        assert!(rt; reports(rt.alloc(), fault, *status, line), "{line}");
    }
    assert!(rt; keeps_the_status());
}
