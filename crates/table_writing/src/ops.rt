// The bytes of operations.
ghost use Rattle.std.specs.Prelude.{◌≡◌, ◌+◌, ◌≤◌, ◌∷◌, length, drop};
ghost use Rattle.tables.specs.Programs.{listed};
ghost use Rattle.tables.specs.Tables.{op_bytes, ops_bytes};
ghost use Rattle.table_writing.specs.Writing.{Fits, Wrote};

use crate::writer::Writer;
use tables::op::{Op, Program};

// The byte that stands for an operation. An enum of these bytes would list the operations once more beside `Op`, and
// be no plainer.
fn code(op: Op) -> u8
    ensures { op_bytes op ≡ result ∷ drop 1 (op_bytes op) }
{
    match op {
        Op::Number(_) => 1,
        Op::Now { .. } => 2,
        Op::Past { .. } => 3,
        Op::Held { .. } => 4,
        Op::Window { .. } => 5,
        Op::Add => 6,
        Op::Subtract => 7,
        Op::Multiply => 8,
        Op::Less => 9,
        Op::Equal => 10,
        Op::Choose => 11,
    }
}

// Writes the operands of an operation.
fn put_operands(out: &mut Writer, op: Op)
    requires { Fits (drop 1 (op_bytes op)) out.old }
    ensures { Wrote (drop 1 (op_bytes op)) out.old out.new }
{
    match op {
        Op::Number(value) => out.put_signed(value),
        Op::Now { stream } => out.put(&[stream]),
        Op::Past {
            stream,
            back,
            default,
        } => {
            out.put(&[stream, back]);
            out.put_signed(default);
        }
        Op::Held { stream, default } => {
            out.put(&[stream]);
            out.put_signed(default);
        }
        Op::Window {
            stream,
            kind,
            duration,
            default,
        } => {
            out.put(&[stream, kind.number()]);
            out.put_word(duration);
            out.put_signed(default);
        }
        _ => {}
    }
}

// Writes an operation.
fn put_op(out: &mut Writer, op: Op)
    requires { Fits (op_bytes op) out.old }
    ensures { Wrote (op_bytes op) out.old out.new }
{
    out.put(&[code(op)]);
    put_operands(out, op);
}

// Writes the operations of an output.
pub(crate) fn put_ops(out: &mut Writer, program: &Program)
    requires { Fits (ops_bytes (listed program.now)) out.old }
    ensures { Wrote (ops_bytes (listed program.now)) out.old out.new }
{
    for op in &program.ops {
        put_op(out, *op);
    }
}
