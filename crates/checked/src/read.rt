// Reading tables.
ghost use Rattle.std.specs.Prelude.{◌≡◌};
ghost use Rattle.tables.specs.Tables as tables;
ghost use Rattle.checked.specs.Checking as checking;

use crate::gather::gather;
use crate::table::Table;
use tables::flaw::{Flaw, Refused};

// The checked table that some bytes say.
fn from_bytes(bytes: &[u8]) -> Result<Table, Refused>
    ensures { checking.told result ≡ tables.read bytes.now }
{
    let gathered = gather(bytes)?;
    gathered.judge()?;
    let parts = gathered.parts;
    let Some(layered) = parts.layered() else {
        return Err(Flaw::Circle.at(bytes.len()));
    };
    let plan = layered.plan();
    let size = bytes.len();
    Ok(Table { parts, plan, size })
}

impl Table {
    // The table that some bytes say; or the flaw that refuses them, with its place.
    pub fn read(bytes: &[u8]) -> Result<Table, Refused>
        ensures value { checking.told result ≡ tables.read bytes.now }
        ensures right { checking.Right bytes.now result }
    {
        from_bytes(bytes)
    }
}
