use crate::{Feed, Tray, Trouble};
use std::io::{ErrorKind, Read, Write};

const BYTES: &[u8] = b"fifteen two";

// The number of errors of this kind in the first twenty calls of a reader, and the number of bytes that are left.
fn failed_reads(feed: &mut Feed<'_>, kind: ErrorKind) -> (u32, usize) {
    let mut failed = 0u32;
    let mut buffer = [0; 4];
    for _call in 0..20 {
        if let Err(error) = feed.read(&mut buffer) {
            if error.kind() == kind {
                failed = failed.saturating_add(1);
            }
        }
    }
    (failed, feed.left())
}

#[test]
fn gives_so_many_bytes_a_call(rt: HostRuntime) {
    for piece in 0..13usize {
        let mut feed = Feed::new(BYTES, piece, Trouble::Never);
        let mut buffer = [0; 64];
        let first = piece.max(1).min(BYTES.len());
        match feed.read(&mut buffer) {
            Ok(count) => assert_eq!(rt; count, first),
            Err(_) => panic!(rt; "a call that isn't to fail"),
        }
        assert_eq!(rt; feed.left(), BYTES.len() - first);
        assert_eq!(rt; &buffer[..first], &BYTES[..first]);
    }
}

#[test]
fn fails_at_the_calls_that_it_is_told(rt: HostRuntime) {
    let kind = ErrorKind::Interrupted;
    for (trouble, failed, left) in [
        (Trouble::Never, 0, 0),
        (Trouble::At(1, kind), 1, 0),
        (Trouble::At(20, kind), 1, 0),
        (Trouble::At(21, kind), 0, 0),
        (Trouble::From(1, kind), 20, 11),
        (Trouble::From(3, kind), 18, 9),
        (Trouble::From(4, ErrorKind::Other), 0, 8),
    ] {
        let mut feed = Feed::new(BYTES, 1, trouble);
        assert_eq!(rt; failed_reads(&mut feed, kind), (failed, left));
    }
}

#[test]
fn takes_so_many_bytes_a_call_and_fails_where_it_is_told(rt: HostRuntime) {
    for (piece, trouble, taken) in [
        (0, Trouble::Never, b"".as_slice()),
        (1, Trouble::Never, b"fff".as_slice()),
        (4, Trouble::Never, b"fiftfiftfift".as_slice()),
        (
            7,
            Trouble::At(2, ErrorKind::Other),
            b"fifteenfifteen".as_slice(),
        ),
        (7, Trouble::From(2, ErrorKind::Other), b"fifteen".as_slice()),
    ] {
        let mut tray = Tray::new(rt.alloc(), piece, trouble);
        for _call in 0..3 {
            let _outcome = tray.write(BYTES);
        }
        assert_eq!(rt; tray.into_bytes().as_slice(), taken);
    }
}
