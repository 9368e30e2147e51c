//! How many agents the text of a plan is about.

ghost use Rattle.std.specs.Prelude.{◌≤◌};

/// What the line of an agent begins with.
const AGENT: &[u8; 7] = b"\nagent ";

/// How many lines behind the first one are those of agents.
fn count_agent_lines(text: &[u8]) -> usize {
    let mut count: usize = 0;
    for at in 0..text.len() {
        if text[at..].starts_with(AGENT) {
            count = count.saturating_add(1);
        }
    }
    count
}

/// How many agents the text of a plan is about: as many as have lines, but at least one and at most sixteen.
pub fn agents_in(text: &[u8]) -> u16
    ensures some { 1 ≤ result }
    ensures most { result ≤ 16 }
{
    let count = count_agent_lines(text);
    if count >= 16 {
        return 16;
    }
    if count == 0 {
        return 1;
    }
    count as u16
}
