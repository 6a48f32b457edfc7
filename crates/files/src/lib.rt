// Reads files that have to be short.
#![tactic(auto)]

ghost use Rattle.std.specs.Prelude.{◌≡◌, ◌<◌, ◌≤◌, length, IfOk, IfSome, IsErrOf, vec_len};

use std::alloc::{AllocError, Global};
use std::fs::File;
use std::io;
use std::io::Read;
use std::rt::Files;
use thiserror::Error;

// The most bytes that a table or a log given to a program may have.
pub const LIMIT: usize = 32768;

#[derive(Debug, Drop, Error)]
pub enum Unread {
    #[error("more than {LIMIT} bytes")]
    TooLarge,
    #[error(transparent)]
    Failed(#[from] io::Error),
}

// By hand: `#[from]` would want a case of its own for it.
impl From<AllocError> for Unread {
    ghost use Rattle.std.specs.Prelude.{◌≢◌};
    ghost use Rattle.files.specs.declared.Unread.TheVariants.{TooLarge};

    ghost from_gives = { λ _ unread. unread ≢ TooLarge };

    fn from(e: AllocError) -> Unread {
        Unread::Failed(io::Error::from(e))
    }
}

// All bytes of a reader that has at most LIMIT of them. Of a longer one no more than LIMIT + 1 are read.
fn read_from<R: Read + Drop>(heap: Global, reader: R) -> Result<Vec<u8>, Unread>
    ensures few { IfOk result (λ v. vec_len v ≤ LIMIT) }
    ensures whole { IfOk result (λ v. IfSome (R.remaining reader) (λ bytes. v.items ≡ bytes)) }
    ensures long { IsErrOf result Unread.TooLarge → IfSome (R.remaining reader) (λ bytes. LIMIT < length bytes) }
{
    // There is room for all of it before the first read: what keeps each write apart, as some pipes do, loses the end of
    // one that is longer than the room offered.
    let mut bytes = Vec::with_capacity(heap, LIMIT + 1)?;
    reader
        .take(LIMIT as u64 + 1)
        .read_to_end(&mut bytes)
        .map_err(Unread::Failed)?;
    if bytes.len() > LIMIT {
        return Err(Unread::TooLarge);
    }
    Ok(bytes)
}

// The bytes of a file that has at most LIMIT of them.
pub fn read<R: Files + AllocGlobal>(rt: &R, path: &str) -> Result<Vec<u8>, Unread>
    ensures { IfOk result (λ v. vec_len v ≤ 32768) }
{
    read_from(rt.alloc(), File::open(rt, path)?)
}
