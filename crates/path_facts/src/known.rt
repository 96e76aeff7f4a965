ghost use Rattle.std.specs.Prelude.{◌≡◌, IsTrue, ◌↔◌};
ghost use Rattle.flow_graph.specs.FlowGraph.{FlowGraph};
ghost use Rattle.path_facts.specs.Paths.{IsEmptyAt, IsFreshAt};
ghost use Rattle.path_facts.specs.Tables.{HasSlot, empty_in, fresh_in, AreFactsOf};

use crate::table::Table;
use std::marker::Model;

/// The facts Empty and Fresh of a flow graph.
///
/// A fact holds at a place where it holds at the end of every path from the entry, so at a place that no path reaches
/// every fact holds.
#[derive(Drop)]
pub struct Facts {
    pub(crate) tables: Vec<Table>,
}

impl Model for Facts {
    ghost use Rattle.path_facts.specs.Tables.{FactTables};

    ghost Value = { FactTables };

    ghost view = { λ f. f.tables.items };
}

impl Facts {
    /// Whether a slot of a procedure with a body is Empty at a place. Procedure, place and slot must exist.
    pub fn empty(&self, proc: u32, place: u32, slot: u32) -> bool
        requires { HasSlot self.now proc place slot }
        ensures value { result ≡ empty_in self.now proc place slot }
        ensures exact { (g : FlowGraph) → AreFactsOf g self.now → (IsTrue result ↔ IsEmptyAt g proc place slot) }
    {
        self.tables[proc as usize].empty(place, slot)
    }

    /// Whether a slot of a procedure with a body is Fresh at a place. Procedure, place and slot must exist.
    pub fn fresh(&self, proc: u32, place: u32, slot: u32) -> bool
        requires { HasSlot self.now proc place slot }
        ensures value { result ≡ fresh_in self.now proc place slot }
        ensures exact { (g : FlowGraph) → AreFactsOf g self.now → (IsTrue result ↔ IsFreshAt g proc place slot) }
    {
        self.tables[proc as usize].fresh(place, slot)
    }
}
