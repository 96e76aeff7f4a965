ghost use Rattle.std.specs.Prelude.{◌≡◌, ◌++◌, IfOk, OnOk, map};
ghost use Rattle.zo_core.specs.Order.{kept_all};
ghost use Rattle.zo_core.specs.Forms.{form_clauses};
ghost use Rattle.field_rules.specs.Meaning.{closed_forms, sealed_form, forms_clauses, rule_forms, rule_number};

use crate::lists::{Sigmas, Vars};
use c_tree::Memory;
use std::alloc::Global;
use zo_core::{Clause, Form, Rule, Var};

/// What is taken out of a field comes to the slot.
#[derive(Clone, Copy)]
pub struct Load {
    pub rho_q: Var,
    pub omega_p: Var,
    pub omega_q: Var,
}

impl Rule for Load {
    ghost use Rattle.zo_core.specs.Forms.{form_clauses, FormHolds};
    ghost use Rattle.zo_core.specs.Tables.{form_law};
    ghost use Rattle.zo_core.specs.declared.forms.Form.TheVariants as form;

    ghost meaning = { λ r t. FormHolds (form.Sum r.rho_q r.omega_p r.omega_q) t };

    ghost raw = { λ r. form_clauses (form.Sum r.rho_q r.omega_p r.omega_q) };

    ghost law = { λ r t. form_law (form.Sum r.rho_q r.omega_p r.omega_q) t };

    fn clauses(&self, alloc: Global) -> Result<Vec<Clause>, Memory> {
        Form::Sum(self.rho_q, self.omega_p, self.omega_q).clauses(alloc)
    }
}

/// A field that owns is open where it is written, and no other.
#[derive(Clone, Copy)]
pub struct StoreOpen {
    pub omega_p: Var,
    pub phi: Var,
}

impl Rule for StoreOpen {
    ghost use Rattle.zo_core.specs.Forms.{form_clauses, FormHolds};
    ghost use Rattle.zo_core.specs.Tables.{form_law};
    ghost use Rattle.zo_core.specs.declared.forms.Form.TheVariants as form;

    ghost meaning = { λ r t. FormHolds (form.Equal r.omega_p r.phi) t };

    ghost raw = { λ r. form_clauses (form.Equal r.omega_p r.phi) };

    ghost law = { λ r t. form_law (form.Equal r.omega_p r.phi) t };

    fn clauses(&self, alloc: Global) -> Result<Vec<Clause>, Memory> {
        Form::Equal(self.omega_p, self.phi).clauses(alloc)
    }
}

/// What the slot gives up closes the field.
#[derive(Clone, Copy)]
pub struct Store {
    pub rho_q: Var,
    pub phi: Var,
    pub rho_p: Var,
    pub omega_q: Var,
}

impl Rule for Store {
    ghost use Rattle.zo_core.specs.Forms.{form_clauses, FormHolds};
    ghost use Rattle.zo_core.specs.Tables.{form_law};
    ghost use Rattle.zo_core.specs.declared.forms.Form.TheVariants as form;

    ghost meaning = { λ r t. FormHolds (form.EqualSums r.rho_q r.phi r.rho_p r.omega_q) t };

    ghost raw = { λ r. form_clauses (form.EqualSums r.rho_q r.phi r.rho_p r.omega_q) };

    ghost law = { λ r t. form_law (form.EqualSums r.rho_q r.phi r.rho_p r.omega_q) t };

    fn clauses(&self, alloc: Global) -> Result<Vec<Clause>, Memory> {
        Form::EqualSums(self.rho_q, self.phi, self.rho_p, self.omega_q).clauses(alloc)
    }
}

/// A field that owns is open where its object is freed, and no other.
#[derive(Clone, Copy)]
pub struct FreeField {
    pub omega_p: Var,
    pub phi: Var,
}

impl Rule for FreeField {
    ghost use Rattle.zo_core.specs.Forms.{form_clauses, FormHolds};
    ghost use Rattle.zo_core.specs.Tables.{form_law};
    ghost use Rattle.zo_core.specs.declared.forms.Form.TheVariants as form;

    ghost meaning = { λ r t. FormHolds (form.Equal r.omega_p r.phi) t };

    ghost raw = { λ r. form_clauses (form.Equal r.omega_p r.phi) };

    ghost law = { λ r t. form_law (form.Equal r.omega_p r.phi) t };

    fn clauses(&self, alloc: Global) -> Result<Vec<Clause>, Memory> {
        Form::Equal(self.omega_p, self.phi).clauses(alloc)
    }
}

/// Only a field that owns is open.
#[derive(Clone, Copy)]
pub struct Bound {
    pub omega_p: Var,
    pub phi: Var,
}

impl Rule for Bound {
    ghost use Rattle.zo_core.specs.Forms.{form_clauses, FormHolds};
    ghost use Rattle.zo_core.specs.Tables.{form_law};
    ghost use Rattle.zo_core.specs.declared.forms.Form.TheVariants as form;

    ghost meaning = { λ r t. FormHolds (form.AtMost r.omega_p r.phi) t };

    ghost raw = { λ r. form_clauses (form.AtMost r.omega_p r.phi) };

    ghost law = { λ r t. form_law (form.AtMost r.omega_p r.phi) t };

    fn clauses(&self, alloc: Global) -> Result<Vec<Clause>, Memory> {
        Form::AtMost(self.omega_p, self.phi).clauses(alloc)
    }
}

/// A field is not open through two slots.
#[derive(Clone, Copy)]
pub struct OneBase {
    pub first: Var,
    pub second: Var,
}

impl Rule for OneBase {
    ghost use Rattle.zo_core.specs.Forms.{form_clauses, FormHolds};
    ghost use Rattle.zo_core.specs.Tables.{form_law};
    ghost use Rattle.zo_core.specs.declared.forms.Form.TheVariants as form;

    ghost meaning = { λ r t. FormHolds (form.NotBoth r.first r.second) t };

    ghost raw = { λ r. form_clauses (form.NotBoth r.first r.second) };

    ghost law = { λ r t. form_law (form.NotBoth r.first r.second) t };

    fn clauses(&self, alloc: Global) -> Result<Vec<Clause>, Memory> {
        Form::NotBoth(self.first, self.second).clauses(alloc)
    }
}

/// What a call asks of a field that is open before it.
#[derive(Drop)]
pub enum CallClosed {
    /// Through a live argument no field is open.
    Argument {
        omega_p: Var,
    },
    /// Through another slot, which is not Fresh, a field is open only where the slot owns, all fields that point to the
    /// slot's struct own, and so do all live arguments that do; none does where the called procedure is external.
    Slot {
        omega_p: Var,
        rho_p: Var,
        phis: Vars,
        sigmas: Sigmas,
    },
}

impl CallClosed {
    /// The conditions of which it is made.
    pub fn forms(&self, alloc: Global) -> Result<Vec<Form>, Memory>
        ensures { IfOk result (λ fs. fs.items ≡ closed_forms self.now) }
    {
        let mut out = Vec::new(alloc);
        match self {
            CallClosed::Argument { omega_p } => out.push(Form::Zero(*omega_p))?,
            CallClosed::Slot {
                omega_p,
                rho_p,
                phis,
                sigmas,
            } => {
                out.push(Form::AtMost(*omega_p, *rho_p))?;
                push_bounds(&mut out, *omega_p, &phis.items)?;
                push_sealed(&mut out, *omega_p, &sigmas.items)?;
            }
        }
        Ok(out)
    }
}

/// That an unknown is at most each of others.
fn push_bounds(out: &mut Vec<Form>, omega: Var, phis: &[Var]) -> Result<(), Memory>
    ensures { OnOk result (out.new.items ≡ out.old.items ++ map (Form.AtMost omega) phis.now) }
{
    for phi in phis {
        out.push(Form::AtMost(omega, *phi))?;
    }
    Ok(())
}

/// That an unknown is at most what each of some arguments gives.
fn push_sealed(out: &mut Vec<Form>, omega: Var, sigmas: &[Option<Var>]) -> Result<(), Memory>
    ensures { OnOk result (out.new.items ≡ out.old.items ++ map (sealed_form omega) sigmas.now) }
{
    for sigma in sigmas {
        out.push(sealed_form(omega, *sigma))?;
    }
    Ok(())
}

/// What an argument of the type of an open slot asks.
fn sealed_form(omega: Var, sigma: Option<Var>) -> Form
    ensures { result ≡ sealed_form omega sigma }
{
    match sigma {
        None => Form::Zero(omega),
        Some(sigma) => Form::AtMost(omega, sigma),
    }
}

/// The clauses of several conditions.
pub fn clauses_of_forms(alloc: Global, forms: &[Form]) -> Result<Vec<Clause>, Memory>
    ensures { IfOk result (λ cs. cs.items ≡ kept_all (forms_clauses forms.now)) }
{
    let mut out = Vec::new(alloc);
    for form in forms {
        push_clauses(alloc, &mut out, *form)?;
    }
    Ok(out)
}

/// Adds the clauses of a condition.
fn push_clauses(alloc: Global, out: &mut Vec<Clause>, form: Form) -> Result<(), Memory>
    ensures { OnOk result (out.new.items ≡ out.old.items ++ kept_all (form_clauses form)) }
{
    let mut clauses = form.clauses(alloc)?;
    out.append(&mut clauses)?;
    Ok(())
}

impl Rule for CallClosed {
    ghost use Rattle.field_rules.specs.Meaning.{closed_forms, forms_clauses, FormsHold};
    ghost use Rattle.field_rules.specs.Laws.{forms_law};

    ghost meaning = { λ r t. FormsHold (closed_forms r) t };

    ghost raw = { λ r. forms_clauses (closed_forms r) };

    ghost law = { λ r t. forms_law (closed_forms r) t };

    fn clauses(&self, alloc: Global) -> Result<Vec<Clause>, Memory> {
        let forms = self.forms(alloc)?;
        clauses_of_forms(alloc, &forms)
    }
}

/// A rule on fields, which is the condition that its part is.
#[derive(Drop)]
pub enum FieldRule {
    Load(Load),
    StoreOpen(StoreOpen),
    Store(Store),
    FreeField(FreeField),
    CallClosed(CallClosed),
    Bound(Bound),
    OneBase(OneBase),
}

impl FieldRule {
    /// The rule's number among all rules of ownership.
    pub fn number(&self) -> u8
        ensures { result ≡ rule_number self.now }
    {
        match self {
            FieldRule::FreeField(_) => 7,
            FieldRule::Load(_) => 9,
            FieldRule::StoreOpen(_) => 10,
            FieldRule::Store(_) => 11,
            FieldRule::CallClosed(_) => 14,
            FieldRule::Bound(_) => 19,
            FieldRule::OneBase(_) => 20,
        }
    }

    /// The conditions of which it is made.
    pub fn forms(&self, alloc: Global) -> Result<Vec<Form>, Memory>
        ensures { IfOk result (λ fs. fs.items ≡ rule_forms self.now) }
    {
        let mut out = Vec::new(alloc);
        match self {
            FieldRule::Load(r) => out.push(Form::Sum(r.rho_q, r.omega_p, r.omega_q))?,
            FieldRule::StoreOpen(r) => out.push(Form::Equal(r.omega_p, r.phi))?,
            FieldRule::Store(r) => out.push(Form::EqualSums(r.rho_q, r.phi, r.rho_p, r.omega_q))?,
            FieldRule::FreeField(r) => out.push(Form::Equal(r.omega_p, r.phi))?,
            FieldRule::CallClosed(r) => return r.forms(alloc),
            FieldRule::Bound(r) => out.push(Form::AtMost(r.omega_p, r.phi))?,
            FieldRule::OneBase(r) => out.push(Form::NotBoth(r.first, r.second))?,
        }
        Ok(out)
    }
}

impl Rule for FieldRule {
    ghost use Rattle.field_rules.specs.Meaning.{rule_forms, forms_clauses, FormsHold};
    ghost use Rattle.field_rules.specs.Laws.{forms_law};

    ghost meaning = { λ r t. FormsHold (rule_forms r) t };

    ghost raw = { λ r. forms_clauses (rule_forms r) };

    ghost law = { λ r t. forms_law (rule_forms r) t };

    fn clauses(&self, alloc: Global) -> Result<Vec<Clause>, Memory> {
        let forms = self.forms(alloc)?;
        clauses_of_forms(alloc, &forms)
    }
}
