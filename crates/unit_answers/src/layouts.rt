use std::marker::Model;
use verdict_meaning::Callee;
use zo_core::NumberRange;

/// A call of a lower group's procedure from a group or from the root.
#[derive(Clone, Copy, Debug, PartialEq, Eq)]
pub struct Call {
    pub callee: Callee,
    /// The unknowns of the called procedure's interface in its own group.
    pub there: NumberRange,
    /// The unknowns of the site, as many, in the same order.
    pub here: NumberRange,
}

/// How many unknowns a group has, and its calls of lower groups.
#[derive(Drop)]
pub struct GroupLayout {
    /// How many unknowns there are.
    pub count: u32,
    /// How many of them are of fields or of the interfaces of the members: these come first.
    pub outer: u32,
    /// By site.
    pub calls: Vec<Call>,
}

impl Model for GroupLayout {
    ghost use Rattle.unit_answers.specs.Layouts.{GroupNumbers};

    ghost Value = { GroupNumbers };

    ghost view = { λ l. record { count = l.count; outer = l.outer; calls = l.calls.items } };
}

/// The numbers of the unknowns that groups have in common: those of fields, of interfaces, and of sites.
#[derive(Drop)]
pub struct Layout {
    /// The fields, whose unknowns have the first numbers in every group.
    pub fields: u32,
    /// For each group, and last for the root.
    pub groups: Vec<GroupLayout>,
}

impl Model for Layout {
    ghost use Rattle.unit_answers.specs.Layouts.{Numbers};

    ghost Value = { Numbers };

    ghost view = { λ l. record { fields = l.fields; groups = l.groups.items } };
}
