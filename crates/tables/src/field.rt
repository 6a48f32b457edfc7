// The fields of a table, each with its parts still in the table's bytes.
ghost use Rattle.std.specs.Prelude.{◌≡◌, ◌++◌, true, take, codes, Some};
ghost use Rattle.std.specs.Fmt.{decimal};
ghost use Rattle.std.specs.List.{list_all};
ghost use Rattle.tables.specs.declared.flaw.Flaw.TheVariants.{Order};
ghost use Rattle.tables.specs.Fields as fields;
ghost use Rattle.tables.specs.Flaws.{numbered};
ghost use Rattle.tables.specs.Fronts.{front, kept};
ghost use Rattle.tables.specs.Reading as reading;
ghost use Rattle.tables.specs.Tags.{Decodes, tag_number};
ghost use Rattle.tables.specs.Worked as cases;
ghost use Rattle.tables.specs.WorkedTables as wholes;

use crate::flaw::Flaw;
use crate::front::word;
use crate::op::{Pace, Program};
use std::error::Error;
use std::fmt;

// What a field says, by the byte that stands before it.
#[derive(Clone, Copy, PartialEq, Eq, Debug)]
pub enum Tag {
    Life = 1,
    Input = 2,
    // An output that is worked out with readings.
    Event = 3,
    // An output that is worked out at each multiple of a period.
    Periodic = 4,
    Trigger = 5,
}

impl Tag {
    // The byte that stands for the tag.
    pub fn number(self) -> u8
        ensures { result ≡ tag_number self }
    {
        self as u8
    }
}

// A byte that no tag has.
#[derive(Clone, Copy, PartialEq, Eq, Debug)]
pub struct UnknownTag(pub u8);

impl TryFrom<u8> for Tag {
    type Error = UnknownTag;

    ghost try_from_gives = { Decodes };

    fn try_from(number: u8) -> Result<Tag, UnknownTag> {
        match number {
            1 => Ok(Tag::Life),
            2 => Ok(Tag::Input),
            3 => Ok(Tag::Event),
            4 => Ok(Tag::Periodic),
            5 => Ok(Tag::Trigger),
            _ => Err(UnknownTag(number)),
        }
    }
}

impl fmt::Display for UnknownTag {
    ghost output = { λ unknown. Some (codes "no field has the tag " ++ decimal unknown.0) };

    fn fmt<W: fmt::Write>(&self, f: &mut fmt::Formatter<W>) -> fmt::Result {
        write!(f, "no field has the tag {}", self.0)
    }
}

impl Error for UnknownTag {}

impl From<UnknownTag> for Flaw {
    ghost from_gives = { λ _ flaw. flaw ≡ Order };

    fn from(_unknown: UnknownTag) -> Flaw {
        Flaw::Order
    }
}

#[derive(Clone, Copy, PartialEq, Eq, Debug)]
pub enum Field<'a> {
    // The life: how many entries a monitor may make.
    Life(u32),
    // The name of an input.
    Input(&'a [u8]),
    // When an output is worked out, its name, and what it is worked out by.
    Output {
        pace: Pace,
        name: &'a [u8],
        operations: &'a [u8],
    },
    // The output that lights the lamp where its value is not 0, and what is said then.
    Trigger {
        stream: u8,
        message: &'a [u8],
    },
}

// Whether the first bytes, at most so many, are from low to 126.
fn in_range(bytes: &[u8], low: u8, most: usize) -> bool
    ensures { result ≡ list_all (reading.within low 126) (take most bytes.now) }
{
    bytes.iter().take(most).all(|b| (low..=126).contains(b))
}

// A text to the field's end, of at most so many bytes.
fn text_to_end(bytes: &[u8], low: u8, most: usize) -> Result<(), Flaw>
    ensures { numbered result ≡ fields.text_to_end low most bytes.now }
{
    if bytes.is_empty() {
        return Err(Flaw::Extent);
    }
    if !in_range(bytes, low, most) {
        return Err(Flaw::Range);
    }
    if bytes.len() > most {
        return Err(Flaw::Extent);
    }
    Ok(())
}

// A number from 1 to the greatest, in four bytes, and the bytes after it.
fn up_to(bytes: &[u8], most: u32) -> Result<(u32, &[u8]), Flaw>
    ensures { front result ≡ reading.word (λ n. reading.test (reading.within 1 most n) 4 (kept n)) bytes.now }
{
    let (n, rest) = word(bytes)?;
    if !(1..=most).contains(&n) {
        return Err(Flaw::Range);
    }
    Ok((n, rest))
}

fn life(bytes: &[u8]) -> Result<Field<'_>, Flaw>
    ensures { fields.said result ≡ reading.content 1 0 bytes.now }
{
    let (life, rest) = up_to(bytes, 2_000_000_000)?;
    if !rest.is_empty() {
        return Err(Flaw::Extent);
    }
    Ok(Field::Life(life))
}

fn input(bytes: &[u8]) -> Result<Field<'_>, Flaw>
    ensures { fields.said result ≡ reading.content 2 0 bytes.now }
{
    text_to_end(bytes, 33, 16)?;
    Ok(Field::Input(bytes))
}

// An output's name, by the length before it, and the operations after it.
fn name(bytes: &[u8]) -> Result<(&[u8], &[u8]), Flaw>
    ensures { fields.parted result ≡ fields.named bytes.now }
{
    let [size, rest @ ..] = bytes else {
        return Err(Flaw::Extent);
    };
    let size = *size as usize;
    if !(1..=16).contains(&size) || !in_range(rest, 33, size) {
        return Err(Flaw::Range);
    }
    rest.split_at_checked(size).ok_or(Flaw::Extent)
}

// An output after its period. The number of windows goes beside the bytes, here and down to where an operation is read:
// a struct of both would be made at the top, and be taken apart there, and so be no plainer.
fn output(pace: Pace, bytes: &[u8], windows: u8) -> Result<Field<'_>, Flaw>
    ensures { fields.said result ≡ reading.outputs pace windows bytes.now }
{
    let (name, operations) = name(bytes)?;
    if operations.is_empty() {
        return Err(Flaw::Extent);
    }
    let program = Program::read(operations, windows)?;
    if !program.fits() {
        return Err(Flaw::Stack);
    }
    Ok(Field::Output {
        pace,
        name,
        operations,
    })
}

fn periodic(bytes: &[u8], windows: u8) -> Result<Field<'_>, Flaw>
    ensures { fields.said result ≡ reading.content 4 windows bytes.now }
{
    let (period, rest) = up_to(bytes, 86_400_000)?;
    output(Pace::Every(period), rest, windows)
}

fn trigger(bytes: &[u8]) -> Result<Field<'_>, Flaw>
    ensures { fields.said result ≡ reading.content 5 0 bytes.now }
{
    let [stream, message @ ..] = bytes else {
        return Err(Flaw::Extent);
    };
    text_to_end(message, 32, 32)?;
    Ok(Field::Trigger {
        stream: *stream,
        message,
    })
}

// The field that a content says under a tag, where so many windows stand before it in the table; from eight on no
// other window may stand.
pub fn read_field(tag: u8, content: &[u8], windows: u8) -> Result<Field<'_>, Flaw>
    ensures { fields.said result ≡ reading.content tag windows content.now }
{
    match Tag::try_from(tag)? {
        Tag::Life => life(content),
        Tag::Input => input(content),
        Tag::Event => output(Pace::Event, content, windows),
        Tag::Periodic => periodic(content, windows),
        Tag::Trigger => trigger(content),
    }
}

// The worked cases hold: contents that are refused, with the number, or accepted, and lawful ones with what they say;
// and whole tables, with the number and the place.
pub fn worked()
    ensures refusals { cases.all_pass cases.worked_cases ≡ true }
    ensures meanings { cases.Lawful }
    ensures tables { wholes.all_pass wholes.worked_cases ≡ true }
{}
