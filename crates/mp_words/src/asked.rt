//! What the words of the command line ask for.

/// The heuristic of the search.
#[derive(Clone, Copy, Debug, PartialEq, Eq)]
pub enum Choice {
    /// Zero everywhere.
    Blind,
    /// hmax (Bonet and Geffner 2001).
    Max,
    /// LM-cut (Helmert and Domshlak 2009).
    Cut,
    /// A pattern database (Culberson and Schaeffer 1998; Edelkamp 2001).
    Pdb,
}

/// An option that has a value.
#[derive(Clone, Copy, Debug, PartialEq, Eq)]
pub(crate) enum Valued {
    Limit,
    Heuristic,
    Workers,
}

/// A cheapest plan for the agents of these files.
pub struct Solve<'a> {
    /// The heuristic of all agents.
    pub heuristic: Choice,
    /// How many entries an agent may expand: 1 to 10,000,000.
    pub limit: u64,
    /// How many workers there are: 1 to 16, where that is said.
    pub workers: Option<u64>,
    /// Whether all is done on one thread.
    pub one: bool,
    /// Whether each event is printed.
    pub trace: bool,
    /// The names of the agents' files, an agent's domain and then its problem.
    pub names: Vec<&'a str>,
}

/// What the agents of these files do by the events of a schedule.
pub struct Replay<'a> {
    /// The heuristic of all agents.
    pub heuristic: Choice,
    /// How many entries an agent may expand: 1 to 10,000,000.
    pub limit: u64,
    /// The name of the file with the schedule.
    pub schedule: &'a str,
    /// The names of the agents' files, an agent's domain and then its problem.
    pub names: Vec<&'a str>,
}

/// Whether a plan solves the united problem of these files at the cost that it states.
pub struct Check<'a> {
    /// Whether the steps of a plan that does are printed, of actions that may be done at the same time.
    pub steps: bool,
    /// The name of the file with the plan.
    pub plan: &'a str,
    /// The names of the agents' files, an agent's domain and then its problem.
    pub names: Vec<&'a str>,
}

/// A certificate that no plan for the agents of these files is cheaper than the one that they find.
pub struct Certify<'a> {
    /// How many entries an agent may expand: 1 to 10,000,000.
    pub limit: u64,
    /// The names of the agents' files, an agent's domain and then its problem.
    pub names: Vec<&'a str>,
}

/// Whether a certificate shows that no plan for the agents of these files is cheaper than this one.
pub struct Audit<'a> {
    /// The name of the file with the certificate.
    pub certificate: &'a str,
    /// The name of the file with the plan.
    pub plan: &'a str,
    /// The names of the agents' files, an agent's domain and then its problem.
    pub names: Vec<&'a str>,
}

/// A summary of a cheapest plan for a team of the delivery family.
#[derive(Clone, Copy, Debug)]
pub struct Make {
    /// The heuristic of all agents.
    pub heuristic: Choice,
    /// How many entries an agent may expand: 1 to 10,000,000.
    pub limit: u64,
    /// How many workers there are: 1 to 16, where that is said.
    pub workers: Option<u64>,
    /// Whether all is done on one thread.
    pub one: bool,
    /// Whether the files of the team are printed before.
    pub show: bool,
    /// How many agents the team has: 1 to 8.
    pub size: u64,
    /// The number of the team among those of its size: up to 999,999.
    pub number: u64,
}

/// What accepted words ask for.
#[derive(Drop)]
pub enum Request<'a> {
    Solve(Solve<'a>),
    Replay(Replay<'a>),
    Check(Check<'a>),
    Certify(Certify<'a>),
    Audit(Audit<'a>),
    Make(Make),
}

impl<'a> Drop for Solve<'a> {
    fn drop(self) {
        let Solve {
            heuristic: _,
            limit: _,
            workers: _,
            one: _,
            trace: _,
            names: _,
        } = self;
    }
}

impl<'a> Drop for Replay<'a> {
    fn drop(self) {
        let Replay {
            heuristic: _,
            limit: _,
            schedule: _,
            names: _,
        } = self;
    }
}

impl<'a> Drop for Check<'a> {
    fn drop(self) {
        let Check {
            steps: _,
            plan: _,
            names: _,
        } = self;
    }
}

impl<'a> Drop for Certify<'a> {
    fn drop(self) {
        let Certify { limit: _, names: _ } = self;
    }
}

impl<'a> Drop for Audit<'a> {
    fn drop(self) {
        let Audit {
            certificate: _,
            plan: _,
            names: _,
        } = self;
    }
}
