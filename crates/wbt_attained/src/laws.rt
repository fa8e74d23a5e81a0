//! The laws. Each function's contract holds of all values; calling it does nothing.

ghost use Rattle.wbt_attained.specs.Laws.{Attained, AttainedOnFewCpus};

/// On a machine with one context and a writer on each CPU, whose hard limit is some domain batches, an allowed list of steps and grants from the
/// opening leads to a count that is the closer bound.
pub fn attained()
    ensures { Attained }
{}

/// Worked out for 1, 2, 4 and 8 CPUs with a cap of 1024 pages: the counts that are attained, in pages.
pub fn attained_on_few_cpus()
    ensures { AttainedOnFewCpus }
{}
