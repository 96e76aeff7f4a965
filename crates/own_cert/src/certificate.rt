use crate::lists::{Bits, Instances, Numbers, Rows};

/// The bits of one place of one procedure.
#[derive(Debug, Drop)]
pub struct PlaceBits {
    /// The procedure's number.
    pub proc: u32,
    /// The place's number in the procedure, from 0.
    pub place: u32,
    /// For each pointer slot whether it owns here, then for each pointer field of its struct whether
    /// the field is open through it.
    pub bits: Bits,
}

/// One way in which the procedures of a call group are used.
#[derive(Debug, Drop)]
pub struct Instance {
    /// The group's number.
    pub group: u32,
    /// The member through which the group is entered.
    pub entry: u32,
    /// For each member whether its pointer parameters, and then its result, own.
    pub iface: Bits,
    /// For each call into a lower group the number of the instance that is called.
    pub sites: Numbers,
    pub places: Rows,
}

/// What an accepted program comes with.
#[derive(Debug, Drop)]
pub struct Certificate {
    /// For each pointer field of the program whether it owns.
    pub phi: Bits,
    pub instances: Instances,
}
