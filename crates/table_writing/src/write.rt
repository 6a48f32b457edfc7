// Writing whole tables.
ghost use Rattle.std.specs.Prelude.{◌≡◌, ◌+◌, ◌≤◌, ◌++◌, length, drop};
ghost use Rattle.tables.specs.Tables as tables;
ghost use Rattle.checked.specs.Checking as checking;
ghost use Rattle.checked.specs.Views.{said};
ghost use Rattle.table_writing.specs.Writing as writing;

use crate::fields::{Life, put_field, put_fields};
use crate::writer::Writer;
use checked::parts::Parts;
use checked::table::Table;
use tables::flaw::{Flaw, Refused};

// Writes all fields of a table.
fn put_parts(out: &mut Writer, parts: &Parts)
    requires { writing.Fits (tables.write (said parts.now)) out.old }
    ensures { writing.Wrote (tables.write (said parts.now)) out.old out.new }
{
    put_field(out, &Life(parts.life));
    put_fields(out, parts.inputs.as_slice());
    put_fields(out, parts.outputs.as_slice());
    put_fields(out, parts.triggers.as_slice());
}

// Writes a table to the start of a buffer that has room for it, and answers how many bytes it takes.
fn put_table(buffer: &mut [u8], parts: &Parts) -> usize
    requires { length (tables.write (said parts.now)) ≤ length buffer.old }
    ensures size { result ≡ length (tables.write (said parts.now)) }
    ensures bytes { buffer.new ≡ tables.write (said parts.now) ++ drop (length (tables.write (said parts.now))) buffer.old }
{
    let mut out = Writer::new(buffer);
    put_parts(&mut out, parts);
    out.len()
}

// Writes a table to the start of a buffer, and answers how many bytes it takes; a buffer that is too short is refused,
// and nothing is written.
pub fn write(table: &Table, buffer: &mut [u8]) -> Result<usize, Refused>
    ensures value { (writing.told result, buffer.new) ≡ writing.put (tables.write (checking.says table.now)) buffer.old }
    ensures back { writing.ReadsBack table.now result buffer.new }
{
    if buffer.len() < table.size {
        return Err(Flaw::Short.at(0));
    }
    Ok(put_table(buffer, &table.parts))
}
