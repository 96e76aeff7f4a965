//! The theorem on heaps: in every run of a graph under a good certificate, each live object that was allocated has exactly
//! one owner, nothing is freed twice, and where the run has ended exactly the kept objects are left.
//!
//! The laws are the contracts of functions that do nothing. `specs/Rules` has what the rules of ownership say of the marks
//! along edges and at places, `specs/Markings` a certificate as marks and when it is good, `specs/Owners` the owners of an
//! object in a state, `specs/Sound` what every state of a run keeps, `specs/Kept` what is left at the end, and `specs/Law`
//! the theorem. `specs/Assigned` and `Instances` lead to good marks from assignments that meet the rules by the numbers of
//! unknowns, and `specs/Certified` from a good certificate. Stands on `heap_meaning` for runs, on `path_facts` for what is
//! known at places, on `transfer_rules` for the rules and on `verdict_meaning` for certificates.
#![tactic(auto)]

mod laws;

pub use laws::{
    good_is_certified, good_runs_are_owned, instances_are_good, runs_are_owned, runs_are_sound,
    runs_begin_sound, steps_keep_sound, steps_lead_to_sound,
};
