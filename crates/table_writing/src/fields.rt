// The fields of a table, written.
ghost use Rattle.std.specs.Prelude.{◌≡◌, ◌+◌, ◌≤◌, length, map};
ghost use Rattle.tables.specs.Kinds as kinds;
ghost use Rattle.tables.specs.Tables.{content_bytes, field_bytes, fields_bytes, tag_of};
ghost use Rattle.tables.specs.Tags.{tag_number};
ghost use Rattle.table_writing.specs.Writing.{Fits, Wrote};

use crate::ops::put_ops;
use crate::writer::Writer;
use checked::element::{Output, Trigger};
use checked::text::Name;
use tables::field::Tag;
use tables::op::Pace;

// What a field says.
pub(crate) trait Content {
    ghost said: { Self → kinds.Said };

    fn tag(&self) -> Tag
        ensures { tag_number result ≡ tag_of (said self.now) };

    // Writes the field's content.
    fn put(&self, out: &mut Writer)
        requires { Fits (content_bytes (said self.now)) out.old }
        ensures { Wrote (content_bytes (said self.now)) out.old out.new };
}

// How many entries a monitor may make.
#[derive(Clone, Copy)]
pub(crate) struct Life(pub u32);

impl Content for Life {
    ghost said = { λ life. kinds.life life.0 };

    fn tag(&self) -> Tag {
        Tag::Life
    }

    fn put(&self, out: &mut Writer) {
        out.put_word(self.0);
    }
}

impl Content for Name {
    ghost use Rattle.fixed.specs.Values.{values};
    ghost use Rattle.tables.specs.Kinds as kinds;

    ghost said = { λ n. kinds.input (values n) };

    fn tag(&self) -> Tag {
        Tag::Input
    }

    fn put(&self, out: &mut Writer) {
        out.put(self.as_slice());
    }
}

impl Content for Output {
    ghost use Rattle.tables.specs.Kinds as kinds;
    ghost use Rattle.checked.specs.Views.{output_of};

    ghost said = { λ o. kinds.output (output_of o) };

    fn tag(&self) -> Tag {
        match self.pace {
            Pace::Event => Tag::Event,
            Pace::Every(_) => Tag::Periodic,
        }
    }

    fn put(&self, out: &mut Writer) {
        if let Pace::Every(period) = self.pace {
            out.put_word(period);
        }
        out.put(&[self.name.len() as u8]);
        out.put(self.name.as_slice());
        put_ops(out, &self.program);
    }
}

impl Content for Trigger {
    ghost use Rattle.tables.specs.Kinds as kinds;
    ghost use Rattle.checked.specs.Views.{trigger_of};

    ghost said = { λ g. kinds.trigger (trigger_of g) };

    fn tag(&self) -> Tag {
        Tag::Trigger
    }

    fn put(&self, out: &mut Writer) {
        out.put(&[self.stream]);
        out.put(self.message.as_slice());
    }
}

// Writes a field: its header, and its content.
pub(crate) fn put_field<T: Content>(out: &mut Writer, field: &T)
    requires { Fits (field_bytes (T.said field.now)) out.old }
    ensures { Wrote (field_bytes (T.said field.now)) out.old out.new }
{
    let start = out.len();
    out.put(&[0; 3]);
    field.put(out);
    out.head(start, field.tag());
}

// Writes fields, one behind another.
pub(crate) fn put_fields<T: Content>(out: &mut Writer, fields: &[T])
    requires { Fits (fields_bytes (map T.said fields.now)) out.old }
    ensures { Wrote (fields_bytes (map T.said fields.now)) out.old out.new }
{
    for field in fields {
        put_field(out, field);
    }
}
