// The texts of a table, in fixed memory.
use fixed::FixedVec;

// The name of a stream.
pub type Name = FixedVec<u8, 16>;

// The message of a trigger.
pub type Message = FixedVec<u8, 32>;
