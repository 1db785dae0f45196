//! Streams of std that fail: which answers count as a fault, and that each call makes one call of the stream.
use super::*;
use std::io;
use std::io::ErrorKind;
use std::process::Abort;
use std::test::Fail;

/// What a stream answers to a call.
type Answer = Result<usize, ErrorKind>;

/// A stream that answers so. It counts its calls, gives bytes of that number, and keeps the first byte that it took.
#[derive(Drop)]
struct Planned {
    answer: Answer,
    calls: u8,
    taken: u8,
}

impl Planned {
    fn new() -> Planned {
        Planned {
            answer: Ok(0),
            calls: 0,
            taken: 0,
        }
    }
}

impl Read for Planned {
    fn read(&mut self, buf: &mut [u8]) -> io::Result<usize> {
        self.calls = self.calls.saturating_add(1);
        match self.answer {
            Ok(count) => {
                let count = count.min(buf.len());
                buf[..count].fill(self.calls);
                Ok(count)
            }
            Err(kind) => Err(io::Error::from(kind)),
        }
    }
}

impl Write for Planned {
    fn write(&mut self, buf: &[u8]) -> io::Result<usize> {
        self.calls = self.calls.saturating_add(1);
        match self.answer {
            Ok(count) => {
                self.taken = buf.first().copied().unwrap_or(0);
                Ok(count.min(buf.len()))
            }
            Err(kind) => Err(io::Error::from(kind)),
        }
    }

    fn flush(&mut self) -> io::Result<()> {
        Ok(())
    }
}

/// The room or the size of a call, what the stream answers, what is answered, and the count of faults after it.
type Call = (usize, Answer, Result<usize, Failed>, u64);

const READS: [Call; 9] = [
    (4, Ok(3), Ok(3), 0),
    (4, Ok(0), Ok(0), 0),
    (0, Ok(0), Ok(0), 0),
    (4, Err(ErrorKind::Interrupted), Err(Failed), 1),
    (4, Ok(4), Ok(4), 1),
    (4, Err(ErrorKind::WouldBlock), Err(Failed), 2),
    (0, Err(ErrorKind::Other), Err(Failed), 3),
    (4, Ok(0), Ok(0), 3),
    (1, Ok(1), Ok(1), 3),
];

const WRITES: [Call; 9] = [
    (4, Ok(4), Ok(4), 0),
    (0, Ok(0), Ok(0), 0),
    (4, Ok(0), Ok(0), 1),
    (4, Ok(1), Ok(1), 1),
    (1, Ok(0), Ok(0), 2),
    (4, Err(ErrorKind::Interrupted), Err(Failed), 3),
    (0, Err(ErrorKind::WouldBlock), Err(Failed), 4),
    (4, Err(ErrorKind::BrokenPipe), Err(Failed), 5),
    (4, Ok(3), Ok(3), 5),
];

#[test]
fn a_read_that_std_refuses_is_a_fault(rt: HostRuntime) -> Result<(), Fail> {
    let mut source = StdSource::new(Planned::new());
    let mut call = 0u8;
    for (room, answer, result, faults) in READS {
        call = call.saturating_add(1);
        source.reader.answer = answer;
        let mut buf = vec![in rt.alloc(); 0xFF; room]?;
        assert_eq!(rt; source.read(&mut buf), result, "call {call}");
        assert_eq!(rt; source.faults, faults, "call {call}");
        assert_eq!(rt; source.reader.calls, call);
        // the bytes that the stream gave, and no others
        let count = result.unwrap_or(0);
        let given = buf.iter().filter(|byte| **byte == call).count();
        let others = buf.iter().filter(|byte| **byte == 0xFF).count();
        assert!(rt;
            given == count && others == room.saturating_sub(count),
            "call {call}"
        );
    }
    Ok(())
}

#[test]
fn a_write_that_std_refuses_is_a_fault(rt: HostRuntime) -> Result<(), Fail> {
    let mut sink = StdSink::new(Planned::new());
    let mut call = 0u8;
    for (size, answer, result, faults) in WRITES {
        call = call.saturating_add(1);
        sink.writer.answer = answer;
        let text = vec![in rt.alloc(); call; size]?;
        assert_eq!(rt; sink.write(&text), result, "call {call}");
        assert_eq!(rt; sink.faults, faults, "call {call}");
        assert_eq!(rt; sink.writer.calls, call);
        if answer.is_ok() && size > 0 {
            assert_eq!(rt; sink.writer.taken, call);
        }
    }
    Ok(())
}
