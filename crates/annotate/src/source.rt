ghost use Rattle.std.specs.Prelude.{◌≡◌};
ghost use Rattle.owner_vars.specs.Fields.{structs_of};
ghost use Rattle.path_facts.specs.Tables.{AreFactsOf};

use c_types::Typed;
use flow_graph::Graph;
use owner_vars::Fields;
use path_facts::Facts;

/// The parts of a program that texts are made from: its declarations, its flow graph with the facts, and its pointer fields.
#[derive(Clone, Copy)]
pub(crate) struct Source<'a> {
    pub typed: &'a Typed,
    pub graph: &'a Graph,
    pub facts: &'a Facts,
    pub fields: &'a Fields,
    pub ghost facts_are: { AreFactsOf graph.now facts.now },
    pub ghost fields_are: { fields.now ≡ structs_of graph.now },
}
