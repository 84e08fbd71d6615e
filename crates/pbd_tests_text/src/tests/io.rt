//! Each source and sink through its trait, with calls that fail in mid-stream.
use pbd_io::{Failed, MemSink, MemSource, Sink, Source, StdSink, StdSource, SureSink, SureSource};
use pbd_tests_rows::{WrongRows, all_hold, each_row, wrong_row};
use std::alloc::{AllocError, Global};
use std::io::{self, ErrorKind, Read, Write};

fn put<K: Sink>(sink: &mut K, piece: &[u8]) -> Result<(), Failed> {
    sink.write(piece)
}

fn get<S: Source>(source: &mut S, into: &mut [u8]) -> Result<usize, Failed> {
    source.read(into)
}

// Moves at most two bytes a call, fails the second call, and takes nothing at the fourth.
// The flush after the seventh fails.
#[derive(Drop)]
struct Halting<T> {
    inner: T,
    calls: u8,
}

impl<T> Halting<T> {
    fn turn(&mut self, len: usize) -> io::Result<usize> {
        self.calls = self.calls.saturating_add(1);
        match self.calls {
            2 => Err(ErrorKind::BrokenPipe.into()),
            4 => Ok(0),
            _ => Ok(len.min(2)),
        }
    }
}

impl<T: Read> Read for Halting<T> {
    fn read(&mut self, buf: &mut [u8]) -> io::Result<usize> {
        let len = self.turn(buf.len())?.min(buf.len());
        self.inner.read(&mut buf[..len])
    }
}

impl<T: Write> Write for Halting<T> {
    fn write(&mut self, buf: &[u8]) -> io::Result<usize> {
        let len = self.turn(buf.len())?.min(buf.len());
        self.inner.write(&buf[..len])
    }

    fn flush(&mut self) -> io::Result<()> {
        if self.calls == 7 {
            return Err(ErrorKind::BrokenPipe.into());
        }
        Ok(())
    }
}

/// A sink with so much room that fails these calls, each after so many bytes.
pub fn failing_sink(
    alloc: Global,
    room: usize,
    fails: &[(u64, usize)],
) -> Result<MemSink, AllocError> {
    MemSink::open(alloc, room, fails.to_vec(alloc)?)
}

/// The second and the fourth call. Of two entries for one call the first counts.
static FAILS: [(u64, usize); 3] = [(2, 1), (4, 9), (2, 5)];

/// What is written, and the answer with what the sink holds then.
static WRITES: [(&[u8], (Result<(), Failed>, &[u8])); 8] = [
    (b"abc", (Ok(()), b"abc")),
    (b"de", (Err(Failed), b"abcd")),
    (b"efghi", (Err(Failed), b"abcd")),
    (b"xy", (Err(Failed), b"abcdxy")),
    (b"", (Ok(()), b"abcdxy")),
    (b"zw", (Ok(()), b"abcdxyzw")),
    (b"q", (Err(Failed), b"abcdxyzw")),
    (b"", (Ok(()), b"abcdxyzw")),
];

#[test]
fn a_sink_in_memory_fails_where_it_is_told(rt: HostRuntime) -> Result<(), WrongRows> {
    let mut sink = failing_sink(rt.alloc(), 8, &FAILS).expect(&rt, "no memory");
    let held =
        each_row!(rt, &WRITES, "is written", (piece, told) => (put(&mut sink, piece), sink.written()), told);
    drop(sink);
    held
}

/// A source of seven bytes, at most three a call, that fails its second and its fifth call.
fn failing_source(alloc: Global) -> Result<MemSource, AllocError> {
    let bytes = b"abcdefg".to_vec(alloc)?;
    match [2, 5].to_vec(alloc) {
        Ok(fails) => Ok(MemSource::new(bytes, 3, fails)),
        Err(error) => {
            drop(bytes);
            Err(error)
        }
    }
}

/// How much is read at most, and the answer with what the buffer holds then.
static READS: [(usize, (Result<usize, Failed>, [u8; 4])); 7] = [
    (4, (Ok(3), *b"abc.")),
    (4, (Err(Failed), *b"....")),
    (2, (Ok(2), *b"de..")),
    (0, (Ok(0), *b"....")),
    (4, (Err(Failed), *b"....")),
    (4, (Ok(2), *b"fg..")),
    (4, (Ok(0), *b"....")),
];

#[test]
fn a_source_in_memory_fails_where_it_is_told(rt: HostRuntime) -> Result<(), WrongRows> {
    let mut source = failing_source(rt.alloc()).expect(&rt, "no memory");
    let held = each_row!(rt, &READS, "are read", (room, told) => {
        let mut into = [b'.'; 4];
        (get(&mut source, &mut into[..(*room).min(4)]), into)
    }, told);
    drop(source);
    held
}

#[test]
fn the_sure_ones_never_fail(rt: HostRuntime) -> Result<(), WrongRows> {
    let mut source = SureSource::new(b"abc");
    let mut into = [b'.'; 2];
    let first = get(&mut source, &mut into);
    let second = get(&mut source, &mut into);
    let given = into;
    let third = get(&mut source, &mut into);
    let mut sink = SureSink::new();
    let written = [put(&mut sink, b"abc"), put(&mut sink, b"de")];
    all_hold(wrong_row(
        &rt,
        (
            &"three bytes",
            "are read three times, and five written twice",
        ),
        &([first, second, third], given, written, sink.taken()),
        &([Ok(2), Ok(1), Ok(0)], *b"cb", [Ok(()), Ok(())], 5),
    ))
}

/// What four reads into three bytes answer and give.
static STD_READS: [(Result<usize, Failed>, [u8; 3]); 4] = [
    (Ok(2), *b"ab."),
    (Err(Failed), *b"..."),
    (Ok(1), *b"c.."),
    (Ok(0), *b"..."),
];

#[test]
fn a_reader_of_std_goes_on_after_a_fault(rt: HostRuntime) -> Result<(), WrongRows> {
    let text: &[u8] = b"abc";
    let mut source = StdSource::new(Halting {
        inner: text,
        calls: 0,
    });
    let held = each_row!(rt, &STD_READS, "are read", told => {
        let mut into = [b'.'; 3];
        (get(&mut source, &mut into), into)
    }, told);
    drop(source);
    held
}

/// What is written, and the answer.
static STD_WRITES: [(&[u8], Result<(), Failed>); 5] = [
    (b"abc", Err(Failed)),
    (b"defg", Err(Failed)),
    (b"hij", Ok(())),
    (b"", Ok(())),
    (b"k", Err(Failed)),
];

#[test]
fn a_writer_of_std_fails_and_goes_on(rt: HostRuntime) -> Result<(), WrongRows> {
    let mut held = Vec::new(rt.alloc());
    let mut sink = StdSink::new(Halting {
        inner: &mut held,
        calls: 0,
    });
    let mut wrong = 0u32;
    for (piece, answer) in &STD_WRITES {
        let answered = put(&mut sink, piece);
        wrong = wrong.saturating_add(wrong_row(&rt, (piece, "is written"), &answered, answer));
    }
    drop(sink);
    let taken = &b"abdehijk".as_slice();
    let all = wrong_row(&rt, (&"all", "that is taken"), &held.as_slice(), taken);
    drop(held);
    all_hold(wrong.saturating_add(all))
}
