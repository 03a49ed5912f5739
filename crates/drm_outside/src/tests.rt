use super::*;
use std::alloc::{AllocError, Global};
use std::fmt::Display;
use std::io;
use std::test::Fail;

const TEXT: &[u8] = b"planner";

struct ReadCase {
    piece: usize,
    failing: &'static [u64],
    limit: u64,
    want: Result<&'static [u8], ReadAllFault>,
}

const READS: [ReadCase; 9] = [
    ReadCase {
        piece: 1,
        failing: &[],
        limit: 7,
        want: Ok(b"planner"),
    },
    ReadCase {
        piece: 3,
        failing: &[],
        limit: 100,
        want: Ok(b"planner"),
    },
    ReadCase {
        piece: 100,
        failing: &[],
        limit: 7,
        want: Ok(b"planner"),
    },
    ReadCase {
        piece: 3,
        failing: &[],
        limit: 6,
        want: Err(ReadAllFault::TooLong(6)),
    },
    ReadCase {
        piece: 1,
        failing: &[],
        limit: 0,
        want: Err(ReadAllFault::TooLong(0)),
    },
    ReadCase {
        piece: 100,
        failing: &[1],
        limit: 7,
        want: Err(ReadAllFault::Failed),
    },
    ReadCase {
        piece: 3,
        failing: &[2],
        limit: 7,
        want: Err(ReadAllFault::Failed),
    },
    // The second read is the one that finds the end.
    ReadCase {
        piece: 100,
        failing: &[2],
        limit: 7,
        want: Err(ReadAllFault::Failed),
    },
    ReadCase {
        piece: 100,
        failing: &[3],
        limit: 7,
        want: Ok(b"planner"),
    },
];

struct WriteCase {
    piece: usize,
    failing: &'static [u64],
    want: Result<(), WriteFault>,
    taken: &'static [u8],
}

const WRITES: [WriteCase; 4] = [
    WriteCase {
        piece: 4,
        failing: &[],
        want: Ok(()),
        taken: b"end 0 0 0\n",
    },
    WriteCase {
        piece: 4,
        failing: &[2],
        want: Err(WriteFault::Failed),
        taken: b"end ",
    },
    WriteCase {
        piece: 100,
        failing: &[1],
        want: Err(WriteFault::Failed),
        taken: b"",
    },
    WriteCase {
        piece: 100,
        failing: &[2],
        want: Ok(()),
        taken: b"end 0 0 0\n",
    },
];

fn list_of<T: Copy>(alloc: Global, items: &[T]) -> Result<List<T>, AllocError> {
    Ok(List::from_vec(items.to_vec(alloc)?))
}

#[test]
fn reads_all_or_says_why_not(rt: HostRuntime) -> Result<(), Fail> {
    let alloc = rt.alloc();
    for case in &READS {
        assert!(rt; case.piece > 0);
        let failing = list_of(alloc, case.failing)?;
        let mut source = MemSource::new(list_of(alloc, TEXT)?, case.piece, failing);
        let answer = read_all(alloc, &mut source, case.limit);
        match answer {
            Ok(bytes) => assert_eq!(rt; Ok(bytes.as_slice()), case.want, "{}", case.piece),
            Err(fault) => assert_eq!(rt; Err(fault), case.want, "{}", case.piece),
        }
    }
    Ok(())
}

#[test]
fn a_read_goes_on_after_a_fault(rt: HostRuntime) -> Result<(), Fail> {
    let alloc = rt.alloc();
    let mut source = MemSource::new(list_of(alloc, TEXT)?, 3, list_of(alloc, &[2])?);
    assert!(rt; read_all(alloc, &mut source, 7).is_err());
    assert_eq!(rt;
        read_all(alloc, &mut source, 7)?.as_slice(),
        b"nner".as_slice()
    );
    Ok(())
}

#[test]
fn writes_all_or_a_prefix(rt: HostRuntime) -> Result<(), Fail> {
    let alloc = rt.alloc();
    for case in &WRITES {
        assert!(rt; case.piece > 0);
        let mut sink = MemSink::new(alloc, case.piece, list_of(alloc, case.failing)?);
        assert_eq!(rt;
            write_all(&mut sink, b"end 0 0 0\n"),
            case.want,
            "{}",
            case.piece
        );
        assert_eq!(rt; sink.taken(), case.taken, "{}", case.piece);
    }
    Ok(())
}

fn filled<E: From<std::alloc::AllocFailed<u8>>>(alloc: Global) -> Result<Vec<u8>, E> {
    let mut bytes = Vec::new(alloc);
    bytes.push(7)?;
    Ok(bytes)
}

#[test]
fn lists_and_words_keep_what_they_hold(rt: HostRuntime) -> Result<(), Fail> {
    let alloc = rt.alloc();
    let list = list_of(alloc, &[3u16, 1, 2])?;
    assert_eq!(rt; list.as_slice(), [3u16, 1, 2].as_slice());
    assert_eq!(rt; list.into_vec().as_slice(), [3u16, 1, 2].as_slice());
    let word = Word::of(String::from_str(alloc, "replay")?);
    assert_eq!(rt; word.as_str(), "replay");
    assert_eq!(rt; filled::<Memory>(alloc)?.as_slice(), [7u8].as_slice());
    assert_eq!(rt; filled::<WriteFault>(alloc)?.as_slice(), [7u8].as_slice());
    assert_eq!(rt; filled::<ReadAllFault>(alloc)?.as_slice(), [7u8].as_slice());
    Ok(())
}

#[test]
fn standard_input_ends(rt: HostRuntime) -> Result<(), Fail> {
    let mut source = StdSource::new(&rt);
    assert_eq!(rt;
        read_all(rt.alloc(), &mut source, 100)?.as_slice(),
        b"".as_slice()
    );
    Ok(())
}

#[test]
fn standard_output_takes_all(rt: HostRuntime) -> Result<(), Fail> {
    let mut sink = StdSink::new(&rt);
    assert_eq!(rt; write_all(&mut sink, b"written\n"), Ok(()));
    Ok(())
}

/// A standard output of which `write_some` answers this, or fails.
#[derive(Drop)]
struct Output {
    some: Option<usize>,
}

impl Print for Output {
    fn print<D: Display + Drop>(&self, _value: D) -> io::Result<()> {
        Ok(())
    }

    fn println<D: Display + Drop>(&self, _value: D) -> io::Result<()> {
        Ok(())
    }

    fn write_all(&self, _bytes: &[u8]) -> io::Result<()> {
        Ok(())
    }

    fn write_some(&self, bytes: &[u8]) -> io::Result<usize> {
        match self.some {
            Some(count) => Ok(count.min(bytes.len())),
            None => Err(io::Error::from(io::ErrorKind::BrokenPipe)),
        }
    }
}

struct OutputCase {
    some: Option<usize>,
    bytes: &'static [u8],
    want: Result<usize, WriteFault>,
}

const OUTPUTS: [OutputCase; 5] = [
    OutputCase {
        some: Some(3),
        bytes: b"end",
        want: Ok(3),
    },
    OutputCase {
        some: Some(1),
        bytes: b"end",
        want: Ok(1),
    },
    OutputCase {
        some: Some(0),
        bytes: b"",
        want: Ok(0),
    },
    OutputCase {
        some: Some(0),
        bytes: b"end",
        want: Err(WriteFault::Failed),
    },
    OutputCase {
        some: None,
        bytes: b"end",
        want: Err(WriteFault::Failed),
    },
];

#[test]
fn standard_output_claims_what_was_written(rt: HostRuntime) -> Result<(), Fail> {
    for case in &OUTPUTS {
        let output = Output { some: case.some };
        let mut sink = StdSink::new(&output);
        assert_eq!(rt; sink.write(case.bytes), case.want);
    }
    Ok(())
}
