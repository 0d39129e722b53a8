//! Rooms and sinks, in memory and real ones, called through the bounds of their traits.

use pg_cases::agree;
use pg_io::{
    FileRoom, MemoryRoom, MemorySink, QuietRoom, QuietSink, Room, RoomFault, Sink, SinkFault,
    StdSink, read_within,
};
use std::alloc::{AllocError, Global};
use std::fmt::Display;
use std::io::{self, ErrorKind, Read};
use std::test::Fail;
use std::{env, fs, process};

/// The name of a file and the limit of its fetch, with the answer and the bytes.
struct Fetch {
    name: &'static str,
    limit: u64,
    answer: Result<(), RoomFault>,
    bytes: &'static [u8],
}

/// `a` is listed twice.
static LISTED: [(&str, &[u8]); 3] = [("a", b"xyz"), ("b", b""), ("a", b"w")];

/// Calls of a room in memory whose second call fails.
static OF_MEMORY: [Fetch; 5] = [
    Fetch {
        name: "a",
        limit: 3,
        answer: Ok(()),
        bytes: b"xyz",
    },
    Fetch {
        name: "a",
        limit: 3,
        answer: Err(RoomFault::Failed),
        bytes: b"",
    },
    Fetch {
        name: "a",
        limit: 2,
        answer: Err(RoomFault::TooLong(3)),
        bytes: b"",
    },
    Fetch {
        name: "c",
        limit: 9,
        answer: Err(RoomFault::Failed),
        bytes: b"",
    },
    Fetch {
        name: "b",
        limit: 0,
        answer: Ok(()),
        bytes: b"",
    },
];

/// Calls of a quiet room.
static OF_QUIET: [Fetch; 3] = [
    Fetch {
        name: "a",
        limit: 3,
        answer: Ok(()),
        bytes: b"xyz",
    },
    Fetch {
        name: "b",
        limit: 0,
        answer: Ok(()),
        bytes: b"",
    },
    Fetch {
        name: "c",
        limit: 0,
        answer: Ok(()),
        bytes: b"",
    },
];

/// The files of `LISTED`.
fn listed(alloc: Global) -> Result<Vec<(String, Vec<u8>)>, AllocError> {
    let mut files = Vec::new(alloc);
    for (name, bytes) in &LISTED {
        files.push(file(alloc, *name, *bytes)?)?;
    }
    Ok(files)
}

fn file(alloc: Global, name: &str, bytes: &[u8]) -> Result<(String, Vec<u8>), AllocError> {
    let name = String::from_str(alloc, name)?;
    Ok((name, Vec::from_slice(alloc, bytes)?))
}

/// Passes where a fetch answers this, and leaves these bytes in a vector that is empty before it.
fn is_fetched<R: Room>(
    room: &mut R,
    (name, limit): (&str, u64),
    into: &mut Vec<u8>,
    answer: Result<(), RoomFault>,
    bytes: &[u8],
) -> Result<(), Fail> {
    into.clear();
    agree(room.fetch(name, limit, into), answer, name.as_bytes())?;
    agree(into.as_slice(), bytes, name.as_bytes())
}

/// Passes where a room answers these calls in their order.
fn are_fetched<R: Room>(
    room: &mut R,
    calls: &'static [Fetch],
    into: &mut Vec<u8>,
) -> Result<(), Fail> {
    for call in calls {
        is_fetched(room, (call.name, call.limit), into, call.answer, call.bytes)?;
    }
    Ok(())
}

#[test]
fn memory_room_answers(rt: HostRuntime) -> Result<(), Fail> {
    let mut room = MemoryRoom::make(listed(rt.alloc())?, vec![in rt.alloc(); 2u32]?);
    are_fetched(&mut room, &OF_MEMORY, &mut Vec::new(rt.alloc()))
}

#[test]
fn quiet_room_answers(rt: HostRuntime) -> Result<(), Fail> {
    let mut room = QuietRoom::make(listed(rt.alloc())?);
    are_fetched(&mut room, &OF_QUIET, &mut Vec::new(rt.alloc()))
}

/// Passes where three puts answer these.
fn three_puts<K: Sink>(sink: &mut K, answers: [Result<(), SinkFault>; 3]) -> Result<(), Fail> {
    let answered = [sink.put(b"ab"), sink.put(b"cd"), sink.put(b"ef")];
    agree(answered, answers, b"three puts")
}

#[test]
fn memory_sink_answers(rt: HostRuntime) -> Result<(), Fail> {
    let mut sink = MemorySink::make(rt.alloc(), vec![in rt.alloc(); 2u32]?);
    three_puts(&mut sink, [Ok(()), Err(SinkFault::Failed), Ok(())])?;
    agree(sink.bytes(), b"abef", b"the second put fails")
}

#[test]
fn quiet_sink_answers(rt: HostRuntime) -> Result<(), Fail> {
    let mut sink = QuietSink::make(rt.alloc());
    three_puts(&mut sink, [Ok(()), Ok(()), Ok(())])?;
    agree(sink.bytes(), b"abcdef", b"no put fails")
}

/// A reader that gives three bytes and then fails.
#[derive(Drop)]
struct Torn {
    is_read: bool,
}

impl Read for Torn {
    fn read(&mut self, buf: &mut [u8]) -> io::Result<usize> {
        if self.is_read || buf.len() < 3 {
            return Err(io::Error::from(ErrorKind::Other));
        }
        self.is_read = true;
        buf[0] = 1;
        Ok(3)
    }
}

#[test]
fn a_file_that_fails_half_way_is_refused(rt: HostRuntime) -> Result<(), Fail> {
    let mut into = Vec::new(rt.alloc());
    let mut taken = 0;
    let answer = read_within(&mut Torn { is_read: false }, 9, &mut into, &mut taken);
    agree(
        (answer, into.len(), taken),
        (Err(RoomFault::Failed), 0, 3),
        b"a torn file",
    )
}

/// Longer than one read.
static LONG: [u8; 5000] = [7; 5000];

/// Passes where the files of a new folder, and the folder itself, are fetched as they should be.
fn folder_is_fetched(rt: &HostRuntime, folder: &str) -> Result<(), Fail> {
    let alloc = rt.alloc();
    let file = format!(in alloc; "{folder}/file")?;
    let missing = format!(in alloc; "{folder}/missing")?;
    fs::create_dir(rt, folder)?;
    fs::write(rt, file.as_str(), LONG.as_slice())?;
    are_real(
        &mut FileRoom::make(rt),
        [file.as_str(), missing.as_str(), folder],
        &mut Vec::new(alloc),
    )
}

/// Passes where the file that is there is fetched within its length, and the two others are refused.
fn are_real<R: Room>(room: &mut R, paths: [&str; 3], into: &mut Vec<u8>) -> Result<(), Fail> {
    let [file, missing, folder] = paths;
    is_fetched(room, (file, 5000), into, Ok(()), &LONG)?;
    is_fetched(room, (file, u64::MAX), into, Ok(()), &LONG)?;
    is_fetched(room, (file, 4999), into, Err(RoomFault::TooLong(5000)), b"")?;
    is_fetched(room, (missing, 5000), into, Err(RoomFault::Failed), b"")?;
    is_fetched(room, (folder, 5000), into, Err(RoomFault::Failed), b"")
}

#[test]
fn real_files_are_fetched(rt: HostRuntime) -> Result<(), Fail> {
    let name = format!(in rt.alloc(); "pg_io_{}", process::id(rt.process()))?;
    let folder = env::temp_dir(&rt)?.join(rt.alloc(), name.as_str())?;
    // what a killed run may have left
    let _ = fs::remove_dir_all(&rt, folder.as_path());
    let fetched = folder_is_fetched(&rt, folder.as_str());
    let removed = fs::remove_dir_all(&rt, folder.as_path());
    fetched?;
    Ok(removed?)
}

/// An output that takes this line and refuses all else.
#[derive(Drop)]
struct Narrow {
    line: &'static [u8],
}

impl Print for Narrow {
    fn print<D: Display + Drop>(&self, _value: D) -> io::Result<()> {
        Err(io::Error::from(ErrorKind::Unsupported))
    }

    fn println<D: Display + Drop>(&self, _value: D) -> io::Result<()> {
        Err(io::Error::from(ErrorKind::Unsupported))
    }

    fn write_all(&self, bytes: &[u8]) -> io::Result<()> {
        if bytes == self.line {
            return Ok(());
        }
        Err(io::Error::from(ErrorKind::BrokenPipe))
    }
}

#[test]
fn output_is_put() -> Result<(), Fail> {
    let output = Narrow { line: b"ab\n" };
    let mut sink = StdSink::make(&output);
    agree(
        [sink.put(b"ab\n"), sink.put(b"a\n"), sink.put(b"ab\n")],
        [Ok(()), Err(SinkFault::Failed), Ok(())],
        b"ab",
    )
}

#[test]
fn standard_output_is_put(rt: HostRuntime) -> Result<(), Fail> {
    let answer = StdSink::make(&rt).put(b"a line of standard output\n");
    agree(answer, Ok(()), b"standard output")
}
