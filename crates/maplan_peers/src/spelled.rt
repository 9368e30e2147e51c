//! What the bytes of a message say, read for these tests from the table of spellings, and apart from what agents read with.

/// Numbers are below this one.
pub(crate) const LIMIT: u64 = 1 << 60;

/// The agent that reads, how many agents its team has, and how many public facts.
#[derive(Clone, Copy, Debug)]
pub(crate) struct Team {
    pub(crate) me: u16,
    pub(crate) agents: u16,
    pub(crate) publics: u32,
}

/// What the rules on bad messages ask of a message.
#[derive(Clone, Copy, Debug)]
pub(crate) enum Said {
    /// A state: its sent number, and the token and the met byte of the agent that reads.
    State { sent: u64, token: u64, met: bool },
    Marker(u64),
    /// A report, and whether it tells of a goal.
    Report { number: u64, goal: bool },
    Pick(u64),
    Trace { sent: u64, back: u64 },
    Length(u64),
    Done,
}

/// A number, and what stands behind it.
fn number(bytes: &[u8]) -> Option<(u64, &[u8])> {
    let [a, b, c, d, e, f, g, h, rest @ ..] = bytes else {
        return None;
    };
    let number = u64::from_be_bytes([*a, *b, *c, *d, *e, *f, *g, *h]);
    if number >= LIMIT {
        return None;
    }
    Some((number, rest))
}

/// A number of four bytes, and what stands behind it.
fn short(bytes: &[u8]) -> Option<(u32, &[u8])> {
    let [a, b, c, d, rest @ ..] = bytes else {
        return None;
    };
    Some((u32::from_be_bytes([*a, *b, *c, *d]), rest))
}

/// A byte that says yes or no, and what stands behind it.
fn flag(bytes: &[u8]) -> Option<(bool, &[u8])> {
    match bytes {
        [0, rest @ ..] => Some((false, rest)),
        [1, rest @ ..] => Some((true, rest)),
        _ => None,
    }
}

/// Whether a number is there that may be left out, and what stands behind it.
fn optional(bytes: &[u8]) -> Option<(bool, &[u8])> {
    let (there, rest) = flag(bytes)?;
    if !there {
        return Some((false, rest));
    }
    let (_, rest) = number(rest)?;
    Some((true, rest))
}

/// What is said, if nothing follows.
fn alone(said: Said, rest: &[u8]) -> Option<Said> {
    if rest.is_empty() {
        return Some(said);
    }
    None
}

/// What stands behind so many public facts, which rise.
fn facts(count: u32, publics: u32, bytes: &[u8]) -> Option<&[u8]> {
    let mut rest = bytes;
    let mut least = 0;
    for _ in 0..count {
        let (fact, behind) = short(rest)?;
        if fact < least || fact >= publics {
            return None;
        }
        least = fact + 1;
        rest = behind;
    }
    Some(rest)
}

/// The token and the met byte of the agent that reads among those of all, and what stands behind them.
fn tags(team: Team, bytes: &[u8]) -> Option<((u64, bool), &[u8])> {
    let mut rest = bytes;
    let mut own = (0, false);
    for before in 0..team.agents {
        let (token, behind) = number(rest)?;
        let (met, behind) = flag(behind)?;
        if u32::from(before) + 1 == u32::from(team.me) {
            own = (token, met);
        }
        rest = behind;
    }
    Some((own, rest))
}

/// A state.
fn state(team: Team, bytes: &[u8]) -> Option<Said> {
    let (sent, rest) = number(bytes)?;
    let (cost, rest) = number(rest)?;
    let (estimate, rest) = number(rest)?;
    if cost.saturating_add(estimate) >= LIMIT {
        return None;
    }
    let (count, rest) = short(rest)?;
    let rest = facts(count, team.publics, rest)?;
    let ((token, met), rest) = tags(team, rest)?;
    alone(Said::State { sent, token, met }, rest)
}

/// A report.
fn report(bytes: &[u8]) -> Option<Said> {
    let (number, rest) = number(bytes)?;
    let (_, rest) = optional(rest)?;
    let (_, rest) = optional(rest)?;
    let (goal, rest) = optional(rest)?;
    let (_, rest) = flag(rest)?;
    alone(Said::Report { number, goal }, rest)
}

/// A trace.
fn trace(bytes: &[u8]) -> Option<Said> {
    let (sent, rest) = number(bytes)?;
    let (back, rest) = number(rest)?;
    alone(Said::Trace { sent, back }, rest)
}

/// A marker.
fn marker(bytes: &[u8]) -> Option<Said> {
    let (number, rest) = number(bytes)?;
    alone(Said::Marker(number), rest)
}

/// A pick.
fn pick(bytes: &[u8]) -> Option<Said> {
    let (number, rest) = number(bytes)?;
    alone(Said::Pick(number), rest)
}

/// A length.
fn length(bytes: &[u8]) -> Option<Said> {
    let (length, rest) = number(bytes)?;
    alone(Said::Length(length), rest)
}

/// An end without a plan.
fn done(bytes: &[u8]) -> Option<Said> {
    match bytes {
        [1] => Some(Said::Done),
        [2] => Some(Said::Done),
        _ => None,
    }
}

/// What bytes say: none where they are no spelling.
pub(crate) fn read_message(team: Team, bytes: &[u8]) -> Option<Said> {
    let [kind, rest @ ..] = bytes else {
        return None;
    };
    match *kind {
        1 => state(team, rest),
        2 => marker(rest),
        3 => report(rest),
        4 => pick(rest),
        5 => trace(rest),
        6 => length(rest),
        7 => done(rest),
        _ => None,
    }
}
