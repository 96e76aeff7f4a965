ghost use Rattle.heap_meaning.specs.Paths.{StepsKeepShape, RunsKeepShape};

/// The laws of runs, which hold of the definitions alone. Every step keeps the shape of the states of its graph, and
/// leaves each frame at the end of a path from its procedure's entry; it ends a run only where no frame is left. Every
/// state of every run has that shape, and its frames stand at ends of paths.
pub fn run_laws()
    ensures steps { StepsKeepShape }
    ensures runs { RunsKeepShape }
{}
