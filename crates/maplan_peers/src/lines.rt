//! What a line of a script says.

use mp_sets::Agent;

/// A line of a script.
#[derive(Clone, Copy, Debug)]
pub(crate) enum Line<'a> {
    /// The agent expands an entry.
    Expand,
    /// The agent starts a snapshot.
    Start,
    /// The agent takes a message from another one, with these bytes in hexadecimal.
    Take(Agent, &'a str),
    /// What the agent tells of itself is asked for.
    Show,
    /// A remark.
    Remark,
    /// None of these.
    Unread,
}

/// The agent of a number.
fn agent(text: &str) -> Option<Agent> {
    match text.parse::<u16>() {
        Ok(number) => Agent::new(number),
        Err(_) => None,
    }
}

/// The receipt that is written behind the word `take`.
fn receipt(text: &str) -> Line<'_> {
    let (number, digits) = match text.split_once(' ') {
        Some(parts) => parts,
        None => (text, ""),
    };
    match agent(number) {
        Some(from) => Line::Take(from, digits),
        None => Line::Unread,
    }
}

/// What a line says.
pub(crate) fn read_line(text: &str) -> Line<'_> {
    if let Some(rest) = text.strip_prefix("take ") {
        return receipt(rest);
    }
    if text == "expand" {
        Line::Expand
    } else if text == "start" {
        Line::Start
    } else if text == "show" {
        Line::Show
    } else if text.starts_with('#') {
        Line::Remark
    } else {
        Line::Unread
    }
}

/// A name and a number.
fn name_and_number(text: &str) -> Option<(&str, u64)> {
    let (name, number) = text.split_once(' ')?;
    match number.parse::<u64>() {
        Ok(number) => Some((name, number)),
        Err(_) => None,
    }
}

/// The name of an agent's task and its limit, where a line makes an agent.
pub(crate) fn made_agent(text: &str) -> Option<(&str, u64)> {
    name_and_number(text.strip_prefix("agent ")?)
}

/// The name of an agent's task and a number of messages, where a line asks for messages that are made at random.
pub(crate) fn random_agent(text: &str) -> Option<(&str, u64)> {
    name_and_number(text.strip_prefix("random ")?)
}
