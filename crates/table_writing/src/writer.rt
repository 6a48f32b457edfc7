// A lent buffer that is written from its start on.
ghost use Rattle.std.specs.Prelude.{◌≡◌, ◌+◌, ◌≤◌, length};

use tables::field::Tag;

// The bytes before `at` are written. They stay in the buffer, and do not leave its front, since a header is put over its
// place when its content is known.
#[derive(Drop)]
pub(crate) struct Writer<'a> {
    buffer: &'a mut [u8],
    at: usize,
    ghost within: { at ≤ length buffer.now },
}

impl<'a> Writer<'a> {
    ghost use Rattle.tables.specs.Tables.{signed, word};
    ghost use Rattle.table_writing.specs.Writing.{Fits, Headed, Wrote};

    pub fn new(buffer: &'a mut [u8]) -> Writer<'a>
        ensures start { result.at ≡ 0 }
        ensures same { (result.buffer.now ≡ buffer.old) × (result.buffer.ghost_name ≡ buffer.entry.ghost_name) }
    {
        Writer { buffer, at: 0 }
    }

    // How many bytes are written.
    pub fn len(&self) -> usize
        ensures { result ≡ self.now.at }
    {
        self.at
    }

    // Writes bytes behind the others.
    pub fn put(&mut self, bytes: &[u8])
        requires { Fits bytes.now self.old }
        ensures { Wrote bytes.now self.old self.new }
    {
        let end = self.at + bytes.len();
        self.buffer[self.at..end].copy_from_slice(bytes);
        self.at = end;
    }

    // Writes a number of four bytes behind the others, low byte first.
    pub fn put_word(&mut self, number: u32)
        requires { Fits (word number) self.old }
        ensures { Wrote (word number) self.old self.new }
    {
        self.put(&number.to_le_bytes());
    }

    // The same in two's complement.
    pub fn put_signed(&mut self, value: i32)
        requires { Fits (signed value) self.old }
        ensures { Wrote (signed value) self.old self.new }
    {
        self.put(&value.to_le_bytes());
    }

    // Writes a field's header over the three bytes at its start, behind which its content is written.
    pub fn head(&mut self, start: usize, tag: Tag)
        requires { start + 3 ≤ self.old.at }
        ensures { Headed start tag self.old self.new }
    {
        let size = self.at - (start + 3);
        // No `to_le_bytes`: the cast to a number of two bytes would ask for a bound that no caller has to know.
        let header = [tag.number(), (size % 256) as u8, (size / 256 % 256) as u8];
        self.buffer[start..start + 3].copy_from_slice(&header);
    }
}
