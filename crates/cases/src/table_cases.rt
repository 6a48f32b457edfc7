// Cases of tables: `ok`, or the number and the place of the refusal; a tab, and the bytes in hex.
use crate::digits;
use checked::table::Table;
use std::alloc::Global;
use std::fmt;
use table_writing::write::write;
use tables::flaw::Refused;

// An answer as the cases write it.
#[derive(Clone, Copy)]
struct Told(Result<(), Refused>);

impl fmt::Display for Told {
    fn fmt<W: fmt::Write>(&self, f: &mut fmt::Formatter<W>) -> fmt::Result {
        match self.0 {
            Ok(()) => f.write_str("ok"),
            Err(refused) => write!(f, "{} {}", refused.flaw.number(), refused.place),
        }
    }
}

// Writing the table gives the bytes that it was read from.
fn comes_back(heap: Global, table: &Table, bytes: &[u8]) -> anyhow::Result<bool> {
    let mut buffer = Vec::new(heap);
    buffer.resize(bytes.len(), 0)?;
    let written = write(table, buffer.as_mut_slice());
    Ok(written == Ok(bytes.len()) && buffer.as_slice() == bytes)
}

// The bytes of the case are read as the case says, and a table that is read comes back.
pub fn agrees(heap: Global, case: &str) -> anyhow::Result<bool> {
    let Some((wanted, digits)) = case.split_once('\t') else {
        return Ok(false);
    };
    let Some(bytes) = digits::bytes(heap, digits)? else {
        return Ok(false);
    };
    let read = Table::read(bytes.as_slice());
    let told = Told(read.map(|_| ()));
    if told.to_string(heap)?.as_str() != wanted {
        return Ok(false);
    }
    match read {
        Ok(table) => comes_back(heap, &table, bytes.as_slice()),
        Err(_) => Ok(true),
    }
}
