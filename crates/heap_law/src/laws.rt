ghost use Rattle.heap_law.specs.Instances.{InstancesAreGood};
ghost use Rattle.heap_law.specs.Certified.{GoodIsCertified, GoodRunsAreOwned};
ghost use Rattle.heap_law.specs.Law.{RunsAreOwned, RunsAreSound, RunsBeginSound, StepsKeepSound, StepsLeadToSound};

/// In every state of every run under a good certificate, each live object that was allocated has exactly one owner and no
/// other object has any, and no choice leads to a double free. Where the run has ended, exactly the kept objects are
/// live, and none is where no owning member leads back to its own struct.
pub fn runs_are_owned()
    ensures { RunsAreOwned }
{}

/// Every state of every run under a good certificate is sound.
pub fn runs_are_sound()
    ensures { RunsAreSound }
{}

/// The first state is sound under a good certificate.
pub fn runs_begin_sound()
    ensures { RunsBeginSound }
{}

/// From a sound state under a good certificate, whether or not a run leads to it, no step is a double free, and the state
/// after a step is sound.
pub fn steps_keep_sound()
    ensures { StepsKeepSound }
{}

/// The same, said of what comes of a step and of the state after it.
pub fn steps_lead_to_sound()
    ensures { StepsLeadToSound }
{}

/// Instances whose assignments meet all rules of their call groups, and agree at calls, are a good marking.
pub fn instances_are_good()
    ensures { InstancesAreGood }
{
    owner_vars::field_laws();
}

/// A good certificate of a program is a good marking of its graph.
pub fn good_is_certified()
    ensures { GoodIsCertified }
{
    owner_vars::field_laws();
    verdict_meaning::system_is_of_graph();
}

/// In every state of every run of a program with a good certificate each object has the owners that it should, by the
/// marks of the certificate, and no step is a double free.
pub fn good_runs_are_owned()
    ensures { GoodRunsAreOwned }
{
    good_is_certified();
    runs_are_owned();
}
