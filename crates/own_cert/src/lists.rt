use crate::certificate::{Instance, PlaceBits};
use std::marker::Model;

/// A row of zeros and ones, which contracts see as a list of truth values.
#[derive(Debug, Drop)]
pub struct Bits {
    pub items: Vec<bool>,
}

impl Model for Bits {
    ghost use Rattle.std.specs.Prelude.{Bool, List};

    ghost Value = { List Bool };

    ghost view = { λ b. b.items.items };
}

/// Numbers, which contracts see as a list.
#[derive(Debug, Drop)]
pub struct Numbers {
    pub items: Vec<u32>,
}

impl Model for Numbers {
    ghost use Rattle.std.specs.Prelude.{List, ℕ};

    ghost Value = { List ℕ };

    ghost view = { λ n. n.items.items };
}

/// The bits at each place of an instance: members ascending, places ascending.
#[derive(Debug, Drop)]
pub struct Rows {
    pub items: Vec<PlaceBits>,
}

impl Model for Rows {
    ghost use Rattle.std.specs.Prelude.{List};
    ghost use Rattle.own_cert.specs.declared.certificate.PlaceBits.{PlaceBits};

    ghost Value = { List PlaceBits };

    ghost view = { λ r. r.items.items };
}

/// Instances, numbered from 0 in this order.
#[derive(Debug, Drop)]
pub struct Instances {
    pub items: Vec<Instance>,
}

impl Model for Instances {
    ghost use Rattle.std.specs.Prelude.{List};
    ghost use Rattle.own_cert.specs.declared.certificate.Instance.{Instance};

    ghost Value = { List Instance };

    ghost view = { λ i. i.items.items };
}
