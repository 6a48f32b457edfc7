// Cases of logs: the bytes in hex, a tab, and the items and the end that they mean.
ghost use Rattle.std.specs.Prelude.{◌≡◌, length, IfOk};
ghost use Rattle.sources.specs.Logs.{log};

use crate::digits;
use items::cause::{End, Fault};
use items::item::{Item, Mark};
use items::source::Source;
use log_laws::check;
use sources::reader::LogReader;
use std::alloc::{AllocError, Global};
use std::fmt;

// An item as the cases write it.
#[derive(Clone, Copy)]
struct Told(Item);

impl fmt::Display for Told {
    fn fmt<W: fmt::Write>(&self, f: &mut fmt::Formatter<W>) -> fmt::Result {
        match self.0 {
            Item::Marked(mark) => write!(f, "M {}", mark.time),
            Item::Read(reading) => {
                write!(f, "R {} {} ", reading.time, reading.mask)?;
                for (i, value) in reading.values.iter().enumerate() {
                    let comma = if i == 0 { "" } else { "," };
                    write!(f, "{comma}{value}")?;
                }
                Ok(())
            }
        }
    }
}

// The end of a log as the cases write it.
#[derive(Clone, Copy)]
struct ToldEnd(End);

impl fmt::Display for ToldEnd {
    fn fmt<W: fmt::Write>(&self, f: &mut fmt::Formatter<W>) -> fmt::Result {
        match self.0 {
            End::Dry => write!(f, "dry"),
            End::Broken(fault) => write!(f, "fault {} {}", fault.cause.number(), fault.place),
        }
    }
}

// What was read of a log: its text as the cases write it, how many items it has, and its end. The items themselves are
// not kept, since they take more room than their text.
#[derive(Drop)]
struct Log {
    text: String,
    items: usize,
    end: End,
}

impl Log {
    // Takes all items of a log.
    fn read(heap: Global, bytes: &[u8]) -> Result<Log, AllocError>
        ensures items { IfOk result (λ l. l.items ≡ length (log bytes.now).waits) }
        ensures end { IfOk result (λ l. l.end ≡ (log bytes.now).end) }
    {
        let mut text = String::new(heap);
        let mut items = 0;
        let mut reader = LogReader::new(bytes);
        let mut place = Item::Marked(Mark { time: 0 });
        // No `for` over an iterator of the items: its last answer would be none, and not the end. Nor a closure that is
        // handed each item: it could fail where the source can't.
        let end = loop {
            if let Err(end) = reader.take(&mut place) {
                break end;
            }
            write!(text, "{}; ", Told(place))?;
            items += 1;
        };
        write!(text, "{}", ToldEnd(end))?;
        Ok(Log { text, items, end })
    }

    // What a check of the log has to answer.
    fn checked(&self) -> Result<usize, Fault> {
        match self.end {
            End::Dry => Ok(self.items),
            End::Broken(fault) => Err(fault),
        }
    }
}

// The bytes of the case mean what the case says, to the reader and to the check.
pub fn agrees(heap: Global, case: &str) -> anyhow::Result<bool> {
    let Some((digits, wanted)) = case.split_once('\t') else {
        return Ok(false);
    };
    let Some(bytes) = digits::bytes(heap, digits)? else {
        return Ok(false);
    };
    let bytes = bytes.as_slice();
    let log = Log::read(heap, bytes)?;
    Ok(log.text.as_str() == wanted && check(bytes) == log.checked())
}
