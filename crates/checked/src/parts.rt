// What a table is made of, in fixed memory.
use crate::element::{Output, Trigger};
use crate::text::Name;
use fixed::FixedVec;

#[derive(Clone, Copy)]
pub struct Parts {
    pub life: u32,
    pub inputs: FixedVec<Name, 8>,
    pub outputs: FixedVec<Output, 16>,
    pub triggers: FixedVec<Trigger, 8>,
}
