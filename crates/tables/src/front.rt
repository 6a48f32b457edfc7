// Numbers at the front of bytes, each with the bytes after it.
ghost use Rattle.std.specs.Prelude.{◌≡◌};
ghost use Rattle.tables.specs.Fronts.{front, kept};
ghost use Rattle.tables.specs.Reading as reading;

use crate::flaw::Flaw;

// Four bytes, low byte first.
pub(crate) fn word(bytes: &[u8]) -> Result<(u32, &[u8]), Flaw>
    ensures { front result ≡ reading.word kept bytes.now }
{
    let [a, b, c, d, rest @ ..] = bytes else {
        return Err(Flaw::Extent);
    };
    Ok((u32::from_le_bytes([*a, *b, *c, *d]), rest))
}

// The same in two's complement.
pub(crate) fn signed(bytes: &[u8]) -> Result<(i32, &[u8]), Flaw>
    ensures { front result ≡ reading.signed kept bytes.now }
{
    let (value, rest) = word(bytes)?;
    Ok((value.cast_signed(), rest))
}
