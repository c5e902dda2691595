// The law of every run speaks of something: a theorem about its definitions.
ghost use Rattle.runs.specs.Instances.{LawHasInstances};

// There are runs with clean series in both formats, with their messages, with moved edges, with looks between the steps, with lists
// whose check does not fit, and with steps past the end; and in each this is what comes.
pub fn law_has_instances()
    ensures { LawHasInstances }
{}
