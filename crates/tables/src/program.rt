// The operations of an output, read from bytes.
ghost use Rattle.std.specs.Prelude.{◌≡◌};
ghost use Rattle.tables.specs.Fronts.{front, kept};
ghost use Rattle.tables.specs.Programs as programs;
ghost use Rattle.tables.specs.Reading as reading;

use crate::flaw::Flaw;
use crate::front::{signed, word};
use crate::op::{Op, Program};
use aggregates::kind::Kind;
use fixed::FixedVec;

fn number(bytes: &[u8]) -> Result<(Op, &[u8]), Flaw>
    ensures { front result ≡ reading.operands 0 1 kept bytes.now }
{
    let (value, rest) = signed(bytes)?;
    Ok((Op::Number(value), rest))
}

fn present(bytes: &[u8]) -> Result<(Op, &[u8]), Flaw>
    ensures { front result ≡ reading.operands 0 2 kept bytes.now }
{
    let [stream, rest @ ..] = bytes else {
        return Err(Flaw::Extent);
    };
    Ok((Op::Now { stream: *stream }, rest))
}

fn past(bytes: &[u8]) -> Result<(Op, &[u8]), Flaw>
    ensures { front result ≡ reading.operands 0 3 kept bytes.now }
{
    let [stream, back, rest @ ..] = bytes else {
        return Err(Flaw::Extent);
    };
    if !(1..=8).contains(back) {
        return Err(Flaw::Range);
    }
    let (default, rest) = signed(rest)?;
    let past = Op::Past {
        stream: *stream,
        back: *back,
        default,
    };
    Ok((past, rest))
}

fn held(bytes: &[u8]) -> Result<(Op, &[u8]), Flaw>
    ensures { front result ≡ reading.operands 0 4 kept bytes.now }
{
    let [stream, rest @ ..] = bytes else {
        return Err(Flaw::Extent);
    };
    let (default, rest) = signed(rest)?;
    let held = Op::Held {
        stream: *stream,
        default,
    };
    Ok((held, rest))
}

fn window(bytes: &[u8], windows: u8) -> Result<(Op, &[u8]), Flaw>
    ensures { front result ≡ reading.operands windows 5 kept bytes.now }
{
    if windows >= 8 {
        return Err(Flaw::Range);
    }
    let [stream, kind, rest @ ..] = bytes else {
        return Err(Flaw::Extent);
    };
    let kind = Kind::from_number(*kind).ok_or(Flaw::Range)?;
    let (duration, rest) = word(rest)?;
    let (default, rest) = signed(rest)?;
    let window = Op::Window {
        stream: *stream,
        kind,
        duration,
        default,
    };
    Ok((window, rest))
}

// The first operation. Its code is matched here, once, where bytes become an `Op`: an enum of codes between them would
// list the operations once more, and be no plainer.
fn first(bytes: &[u8], windows: u8) -> Result<(Op, &[u8]), Flaw>
    ensures { front result ≡ programs.first_op windows bytes.now }
{
    let [code, rest @ ..] = bytes else {
        return Err(Flaw::Extent);
    };
    match code {
        1 => number(rest),
        2 => present(rest),
        3 => past(rest),
        4 => held(rest),
        5 => window(rest, windows),
        6 => Ok((Op::Add, rest)),
        7 => Ok((Op::Subtract, rest)),
        8 => Ok((Op::Multiply, rest)),
        9 => Ok((Op::Less, rest)),
        10 => Ok((Op::Equal, rest)),
        11 => Ok((Op::Choose, rest)),
        _ => Err(Flaw::Range),
    }
}

impl Op {
    // How many windows the operation is.
    pub fn windows(self) -> u8
        ensures { result ≡ reading.windows_in self }
    {
        match self {
            Op::Window { .. } => 1,
            _ => 0,
        }
    }

    // How many values the operation takes from the stack.
    fn takes(self) -> u8
        ensures { result ≡ reading.takes self }
    {
        match self {
            Op::Add | Op::Subtract | Op::Multiply | Op::Less | Op::Equal => 2,
            Op::Choose => 3,
            _ => 0,
        }
    }
}

// The height of the stack after an operation that takes so many values: none where one is missing, or where a ninth
// would stand.
fn height_after(height: u8, taken: u8) -> Option<u8>
    ensures { result ≡ programs.height_after height taken }
{
    let left = height.checked_sub(taken)?;
    if left >= 8 {
        return None;
    }
    Some(left + 1)
}

impl Program {
    // The operations that some bytes say to their end, where so many windows stand before them in the table; from
    // eight on no other window may stand.
    pub fn read(bytes: &[u8], windows: u8) -> Result<Program, Flaw>
        ensures { programs.told result ≡ programs.all_ops windows bytes.now }
    {
        let mut rest = bytes;
        let mut windows = windows;
        let mut ops = FixedVec::new();
        while !rest.is_empty() {
            if ops.len() == 16 {
                return Err(Flaw::Extent);
            }
            let (op, left) = first(rest, windows)?;
            windows += op.windows();
            let _ = ops.push(op);
            rest = left;
        }
        Ok(Program { ops })
    }

    // Whether the stack never lacks a value, never holds more than eight, and ends with one.
    pub fn fits(&self) -> bool
        ensures { result ≡ reading.fits 0 (programs.listed self.now) }
    {
        let mut height = 0;
        for op in &self.ops {
            let Some(next) = height_after(height, op.takes()) else {
                return false;
            };
            height = next;
        }
        height == 1
    }
}
