//! What a `Counted` does: each of its calls is one call of the reader or writer inside, with the same result.

use crate::same;
use crate::text::memory::{feeding, tray_of};
use crib_text::{Glitch, Sink, Source};
use failing_devices::Trouble;
use std::io::{Error, ErrorKind};
use std::process::Abort;

const TEXT: &[u8] = b"problem 1\ndealer owner\n";

// All kinds of errors but an interruption.
const FAILURES: &[ErrorKind] = &[
    ErrorKind::NotFound,
    ErrorKind::PermissionDenied,
    ErrorKind::ConnectionRefused,
    ErrorKind::ConnectionReset,
    ErrorKind::HostUnreachable,
    ErrorKind::NetworkUnreachable,
    ErrorKind::ConnectionAborted,
    ErrorKind::NotConnected,
    ErrorKind::AddrInUse,
    ErrorKind::AddrNotAvailable,
    ErrorKind::NetworkDown,
    ErrorKind::BrokenPipe,
    ErrorKind::AlreadyExists,
    ErrorKind::WouldBlock,
    ErrorKind::NotADirectory,
    ErrorKind::IsADirectory,
    ErrorKind::DirectoryNotEmpty,
    ErrorKind::ReadOnlyFilesystem,
    ErrorKind::FilesystemLoop,
    ErrorKind::StaleNetworkFileHandle,
    ErrorKind::InvalidInput,
    ErrorKind::InvalidData,
    ErrorKind::TimedOut,
    ErrorKind::WriteZero,
    ErrorKind::StorageFull,
    ErrorKind::NotSeekable,
    ErrorKind::QuotaExceeded,
    ErrorKind::FileTooLarge,
    ErrorKind::ResourceBusy,
    ErrorKind::ExecutableFileBusy,
    ErrorKind::Deadlock,
    ErrorKind::CrossesDevices,
    ErrorKind::TooManyLinks,
    ErrorKind::InvalidFilename,
    ErrorKind::ArgumentListTooLong,
    ErrorKind::Unsupported,
    ErrorKind::UnexpectedEof,
    ErrorKind::OutOfMemory,
    ErrorKind::InProgress,
    ErrorKind::Other,
    ErrorKind::Uncategorized,
];

// Reads three times. The second call gives an error of this kind, and moves no byte.
fn reads_around(rt: &impl Abort, kind: ErrorKind, wanted: Glitch) {
    let mut source = feeding(TEXT, 5, Trouble::At(2, kind));
    let mut piece = [0u8; 8];
    same(rt, source.read(&mut piece), Ok(5));
    same(rt, &piece[..5], &TEXT[..5]);
    same(
        rt,
        (source.read(&mut piece), source.faults()),
        (Err(wanted), 1),
    );
    same(rt, (source.read(&mut piece), source.faults()), (Ok(5), 1));
    same(rt, &piece[..5], &TEXT[5..10]);
    same(rt, source.into_inner().left(), TEXT.len() - 10);
}

// Writes three times. The second call gives an error of this kind, and moves no byte.
fn writes_around(rt: &(impl Abort + AllocGlobal), kind: ErrorKind, wanted: Glitch) {
    let mut sink = tray_of(rt.alloc(), 5, Trouble::At(2, kind));
    same(rt, sink.write(TEXT), Ok(5));
    same(
        rt,
        (sink.write(&TEXT[5..]), sink.faults()),
        (Err(wanted), 1),
    );
    same(rt, (sink.write(&TEXT[5..]), sink.faults()), (Ok(5), 1));
    same(rt, sink.into_inner().into_bytes().as_slice(), &TEXT[..10]);
}

#[test]
fn each_call_is_one_of_the_device_inside(rt: HostRuntime) {
    reads_around(&rt, ErrorKind::Interrupted, Glitch::Again);
    writes_around(&rt, ErrorKind::Interrupted, Glitch::Again);
    for kind in FAILURES {
        reads_around(&rt, *kind, Glitch::Failed);
        writes_around(&rt, *kind, Glitch::Failed);
    }
}

#[test]
fn an_interruption_alone_may_be_made_again(rt: HostRuntime) {
    let interruption = Error::from(ErrorKind::Interrupted);
    same(&rt, Glitch::from(interruption), Glitch::Again);
    for kind in FAILURES {
        same(&rt, Glitch::from(Error::from(*kind)), Glitch::Failed);
    }
}
