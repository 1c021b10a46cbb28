/// A slot that a lane is to release.
#[derive(Clone, Copy, Debug, PartialEq, Eq)]
pub struct Leaving {
    /// The lane that the slot's deed names, from 1 to 63 where it names one.
    pub lane: u8,
    /// The slot, from 0 to 63.
    pub slot: u32,
}
