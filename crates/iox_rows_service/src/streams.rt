//! Reads and writes that are short, that are interrupted, and that fail.
ghost use Rattle.std.specs.Prelude.{◌≤◌, IfOk};

use crate::expected::equal;
use iox_streams::{Fault, read_within, send};
use std::alloc::Global;
use std::io;
use std::io::{ErrorKind, Read, Write};
use std::process::Abort;

/// How a reader or a writer behaves.
#[derive(Clone, Copy)]
struct Way {
    /// The most bytes of a call.
    most: usize,
    /// Whether each call but every second is interrupted.
    interrupts: bool,
    /// The bytes that it gives or takes in all.
    room: usize,
    /// Whether it fails behind these, and does not give or take nothing.
    fails: bool,
    /// Whether its flush fails.
    sticks: bool,
}

/// All comes or goes in one call.
const WHOLE: Way = Way {
    most: 8192,
    interrupts: false,
    room: 8192,
    fails: false,
    sticks: false,
};

/// A reader or a writer that has given or taken these bytes in so many calls.
#[derive(Drop)]
struct Stream {
    way: Way,
    text: Vec<u8>,
    calls: u8,
}

impl Stream {
    /// How many bytes a call moves, of so many that it could.
    fn turn(&mut self, wanted: usize) -> io::Result<usize>
        ensures { IfOk result (λ count. count ≤ wanted) }
    {
        self.calls = self.calls.wrapping_add(1);
        if self.way.interrupts && self.calls % 2 == 1 {
            return Err(io::Error::from(ErrorKind::Interrupted));
        }
        let left = self.way.room.saturating_sub(self.text.len());
        if self.way.fails && left == 0 {
            return Err(io::Error::from(ErrorKind::BrokenPipe));
        }
        Ok(wanted.min(self.way.most).min(left))
    }
}

impl Read for Stream {
    fn read(&mut self, buf: &mut [u8]) -> io::Result<usize> {
        let rest = &TEXT[self.text.len().min(TEXT.len())..];
        let count = self.turn(rest.len().min(buf.len()))?;
        buf[..count].copy_from_slice(&rest[..count]);
        self.text.extend_from_slice(&rest[..count])?;
        Ok(count)
    }
}

impl Write for Stream {
    fn write(&mut self, buf: &[u8]) -> io::Result<usize> {
        let count = self.turn(buf.len())?;
        self.text.extend_from_slice(&buf[..count])?;
        Ok(count)
    }

    fn flush(&mut self) -> io::Result<()> {
        self.turn(0)?;
        if self.way.sticks {
            return Err(io::Error::from(ErrorKind::BrokenPipe));
        }
        Ok(())
    }
}

const TEXT: &[u8] = b"ok
ok
node 0
node 1
client 0
server 1
handle 2
handle 3
words 123
ok
handle 4
words 456
";

/// Reads until nothing comes, and keeps what came.
fn read_all(stream: &mut Stream, kept: &mut Vec<u8>) -> Result<(), Fault> {
    let mut chunk = [0; 50];
    for _ in 0..100 {
        let n = read_within(stream, &mut chunk, 1 << 32)?;
        if n == 0 {
            return Ok(());
        }
        kept.extend_from_slice(&chunk[..n])?;
    }
    Err(Fault::Read)
}

/// What comes of readers, or of writers, of these ways.
struct Row<'a> {
    ways: &'a [Way],
    told: Result<(), Fault>,
    text: &'a [u8],
}

/// One that has given or taken nothing yet.
fn fresh(alloc: Global, way: &Way) -> Stream {
    Stream {
        way: *way,
        text: Vec::new(alloc),
        calls: 0,
    }
}

/// Ends the test where a reader of one of these ways is read otherwise, or gives another text.
fn reads(rt: &impl Abort, alloc: Global, place: usize, row: &Row<'_>) {
    for way in row.ways {
        let mut kept = Vec::new(alloc);
        let told = read_all(&mut fresh(alloc, way), &mut kept);
        equal(rt, (place, way.most, told), (place, way.most, row.told));
        equal(rt, (place, kept.as_slice()), (place, row.text));
    }
}

/// Ends the test where the text goes otherwise to a writer of one of these ways, or it has another.
fn writes(rt: &impl Abort, alloc: Global, place: usize, row: &Row<'_>) {
    for way in row.ways {
        let mut stream = fresh(alloc, way);
        let told = send(&mut stream, TEXT);
        equal(rt, (place, way.most, told), (place, way.most, row.told));
        equal(rt, (place, stream.text.as_slice()), (place, row.text));
    }
}

const PIECES: Row<'static> = Row {
    ways: &[
        Way { most: 1, ..WHOLE },
        Way { most: 2, ..WHOLE },
        Way { most: 7, ..WHOLE },
        WHOLE,
        Way {
            most: 100_000,
            ..WHOLE
        },
    ],
    told: Ok(()),
    text: TEXT,
};

/// Pieces of a few bytes, each behind a call that is interrupted and is tried again.
const INTERRUPTED: Row<'static> = Row {
    ways: &[
        Way {
            most: 3,
            interrupts: true,
            ..WHOLE
        },
        Way {
            most: 50,
            interrupts: true,
            ..WHOLE
        },
    ],
    told: Ok(()),
    text: TEXT,
};

/// The first bytes, and then a failure.
const FAILING: &[Way] = &[Way {
    room: 10,
    fails: true,
    ..WHOLE
}];

#[test]
fn a_text_is_read_in_pieces_of_any_size_up_to_a_failure(rt: HostRuntime) {
    const ROWS: &[Row<'static>] = &[
        PIECES,
        INTERRUPTED,
        Row {
            ways: FAILING,
            told: Err(Fault::Read),
            text: b"ok\nok\nnode",
        },
    ];
    for (place, row) in ROWS.iter().enumerate() {
        reads(&rt, rt.alloc(), place, row);
    }
}

#[test]
fn a_text_is_written_in_pieces_of_any_size_up_to_a_failure(rt: HostRuntime) {
    const ROWS: &[Row<'static>] = &[
        PIECES,
        INTERRUPTED,
        Row {
            ways: FAILING,
            told: Err(Fault::Write),
            text: b"ok\nok\nnode",
        },
        // the first bytes, and then none
        Row {
            ways: &[Way { room: 10, ..WHOLE }],
            told: Err(Fault::Write),
            text: b"ok\nok\nnode",
        },
        // a flush that fails
        Row {
            ways: &[Way {
                sticks: true,
                ..WHOLE
            }],
            told: Err(Fault::Write),
            text: TEXT,
        },
    ];
    for (place, row) in ROWS.iter().enumerate() {
        writes(&rt, rt.alloc(), place, row);
    }
}
