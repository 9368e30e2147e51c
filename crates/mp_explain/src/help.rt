//! What `maplan_explain` prints of itself.

/// The version of the program.
pub(crate) const VERSION: &str = "maplan_explain 1\n";

/// What there is.
pub(crate) const HELP: &str =
    "maplan_explain explains what maplan is asked, which words and files it refuses, and what a run did.

maplan_explain words W ..
    what these words ask maplan for, or which of them it refuses
maplan_explain files D1 P1 ..
    what is wrong first with each file; where nothing is, what `team` prints
maplan_explain team [--facts] [--views] D1 P1 ..
    a table of the agents and what may be wrong with them; --facts: the numbers of public facts; --views: what each agent shows the others
maplan_explain run [OPTIONS OF maplan solve] D1 P1 ..
    solves on one thread, tells how far it is, and at the end what each agent did
maplan_explain steps-svg PLAN D1 P1 ..
    a plan as a picture, by its concurrent steps
maplan_explain ipc PLAN
    a plan as classical planners and validators write it
maplan_explain unite [--domain|--problem] D1 P1 ..
    the united problem as one classical domain and one problem, or one of the two
maplan_explain --help
    this text
maplan_explain --version
    the version

Statuses: 0 nothing is wrong, 1 something is or there is no plan, 2 a run decided nothing, 3 these words are no command, 7 a write failed, 8 out of memory.
";
