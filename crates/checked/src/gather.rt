// Fields of a table are gathered into its parts.
ghost use Rattle.std.specs.Prelude.{◌≡◌, ◌<◌, length};
ghost use Rattle.tables.specs.Fields.{ops_in, shape};
ghost use Rattle.tables.specs.Programs.{listed};
ghost use Rattle.tables.specs.Tables.{admits, windows_of};
ghost use Rattle.checked.specs.Gathering as gathering;

use crate::element::{Output, Trigger};
use crate::gathered::Gathered;
use crate::parts::Parts;
use crate::text::{Message, Name};
use fixed::FixedVec;
use frames::Frame;
use tables::field::{Field, Tag, read_field};
use tables::flaw::{Flaw, Refused};
use tables::op::Program;

// The operations that bytes say, as they were read before; none where they would be refused.
fn program_in(operations: &[u8]) -> Program
    ensures { listed result ≡ ops_in operations.now }
{
    Program::read(operations, 0).unwrap_or(Program {
        ops: FixedVec::new(),
    })
}

// How many windows a program has.
fn windows_in(program: &Program) -> u8
    ensures { result ≡ windows_of (listed program.now) }
{
    program.ops.as_slice().iter().map(|op| op.windows()).sum()
}

impl Gathered {
    // Nothing so far.
    fn new() -> Gathered
        ensures { gathering.making result ≡ gathering.nothing }
    {
        Gathered {
            parts: Parts {
                life: 0,
                inputs: FixedVec::new(),
                outputs: FixedVec::new(),
                triggers: FixedVec::new(),
            },
            lives: 0,
            windows: 0,
            output_places: FixedVec::new(),
            trigger_places: FixedVec::new(),
        }
    }

    // Whether a field of a tag may stand next.
    fn admits(&self, tag: u8) -> bool
        ensures { result ≡ admits (gathering.stood (gathering.making self.now)) tag }
    {
        let Ok(tag) = Tag::try_from(tag) else {
            return false;
        };
        let inputs = self.parts.inputs.len();
        let outputs = self.parts.outputs.len();
        let triggers = self.parts.triggers.len();
        match tag {
            Tag::Life => self.lives < 1,
            Tag::Input => self.lives > 0 && outputs < 1 && triggers < 1 && inputs < 8,
            Tag::Event | Tag::Periodic => inputs > 0 && triggers < 1 && outputs < 16,
            Tag::Trigger => self.lives > 0 && triggers < 8,
        }
    }

    // A field more, which began at a place.
    fn add(&mut self, field: Field, place: usize)
        requires { gathering.Room (gathering.making self.old) (shape field) }
        ensures { gathering.making self.new ≡ gathering.added (gathering.making self.old) (shape field.entry) place }
    {
        match field {
            Field::Life(life) => {
                self.parts.life = life;
                self.lives += 1;
            }
            Field::Input(name) => {
                let _ = self.parts.inputs.push(Name::starting(name));
            }
            Field::Output {
                pace,
                name,
                operations,
            } => {
                let name = Name::starting(name);
                let program = program_in(operations);
                self.windows += windows_in(&program);
                let _ = self.output_places.push(place);
                let _ = self.parts.outputs.push(Output {
                    pace,
                    name,
                    program,
                });
            }
            Field::Trigger { stream, message } => {
                let message = Message::starting(message);
                let _ = self.trigger_places.push(place);
                let _ = self.parts.triggers.push(Trigger { stream, message });
            }
        }
    }

    // Reads the field at a place, and answers how many bytes it takes.
    fn field(&mut self, bytes: &[u8], at: usize) -> Result<usize, Refused>
        requires { at < length bytes.now }
        ensures { gathering.Stepped bytes.now at (gathering.making self.old) result (gathering.making self.new) }
    {
        let frame = Frame::first(&bytes[at..]).ok_or(Flaw::Cut.at(at))?;
        if !self.admits(frame.tag) {
            return Err(Flaw::Order.at(at));
        }
        let field = read_field(frame.tag, frame.content, self.windows).map_err(|flaw| flaw.at(at))?;
        self.add(field, at);
        Ok(frame.size())
    }
}

// All fields of a table.
pub(crate) fn gather(bytes: &[u8]) -> Result<Gathered, Refused>
    ensures { gathering.AllRead bytes.now result }
{
    let mut gathered = Gathered::new();
    // A refusal names the place, so it is counted, and not only what is left.
    let mut at = 0;
    while at < bytes.len() {
        at += gathered.field(bytes, at)?;
    }
    if gathered.parts.outputs.len() == 0 {
        return Err(Flaw::Order.at(at));
    }
    Ok(gathered)
}
