ghost use Rattle.std.specs.Prelude.{◌≡◌, IfOk};
ghost use Rattle.transfer_rules.specs.Names.{condition_forms};

use c_tree::Memory;
use conflict_proof::ConstraintName;
use field_rules::FieldRule;
use std::alloc::Global;
use zo_core::{Clause, Form, Rule};

/// What a constraint says: one equation, or a rule on fields.
#[derive(Drop)]
pub enum Condition {
    Form(Form),
    Field(FieldRule),
}

impl Condition {
    /// The equations and inequalities of which it is made.
    pub fn forms(&self, alloc: Global) -> Result<Vec<Form>, Memory>
        ensures { IfOk result (λ fs. fs.items ≡ condition_forms self.now) }
    {
        match self {
            Condition::Form(form) => Ok(Vec::from_slice(alloc, &[*form])?),
            Condition::Field(rule) => rule.forms(alloc),
        }
    }
}

impl Rule for Condition {
    ghost use Rattle.field_rules.specs.Meaning.{forms_clauses};
    ghost use Rattle.field_rules.specs.Laws.{forms_law};
    ghost use Rattle.transfer_rules.specs.Names.{condition_forms, ConditionHolds};

    ghost meaning = { ConditionHolds };

    ghost raw = { λ c. forms_clauses (condition_forms c) };

    ghost law = { λ c t. forms_law (condition_forms c) t };

    fn clauses(&self, alloc: Global) -> Result<Vec<Clause>, Memory> {
        let forms = self.forms(alloc)?;
        field_rules::clauses_of_forms(alloc, &forms)
    }
}

/// A constraint of a call group.
#[derive(Drop)]
pub struct Constraint {
    pub name: ConstraintName,
    pub condition: Condition,
}
