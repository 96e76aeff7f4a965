use flow_graph::Numbers;
use std::marker::Model;

/// The procedures of each call group, ascending, a called group before its caller's.
#[derive(Debug, Drop)]
pub struct Groups {
    pub items: Vec<Numbers>,
}

impl Model for Groups {
    ghost use Rattle.std.specs.Prelude.{List, ℕ};

    ghost Value = { List (List ℕ) };

    ghost view = { λ g. g.items.items };
}
