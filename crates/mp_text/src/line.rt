//! One line of a schedule, read from left to right.

ghost use Rattle.std.specs.Prelude.{◌≡◌, ◌≤◌, ◌<◌, ◌∷◌, [], Some, IfSome, length, MatchOption};
ghost use Rattle.std.specs.Option.{option_map};
ghost use Rattle.std.specs.List.{list_all};
ghost use Rattle.mp_text.specs.Lines.{lines_of};
ghost use Rattle.mp_text.specs.Reading.{digit_at, two_digits_at, number_at, agent_at, byte_at, pair_at, expand_at, take_at, message_at, text_behind, event_at, message_line_at, first_length as first_length_of};
ghost use Rattle.mp_text.specs.Schedule.{event_in as event_in_team, is_message as is_message_of, is_hexadecimal as is_hexadecimal_text, is_hexadecimal_digit as is_digit, is_end as ends_schedule};

use memchr::memchr;
use mp_messages::Event;
use mp_sets::Agent;

/// A number from 1 to 9, and what follows it.
#[tactic(auto, unfolding(crate::specs::Reading::digit_at))]
fn digit(text: &[u8]) -> Option<(u16, &[u8])>
    ensures read { option_map (λ x. (x.0, x.1.now)) result ≡ digit_at text.now }
    ensures some { IfSome result (λ x. 1 ≤ x.0) }
{
    match text {
        [byte, rest @ ..] if *byte >= b'1' && *byte <= b'9' => {
            Some((u16::from(*byte - b'0'), rest))
        }
        _ => None,
    }
}

/// A number from 10 to 16, and what follows it.
#[tactic(auto, unfolding(crate::specs::Reading::two_digits_at))]
fn two_digits(text: &[u8]) -> Option<(u16, &[u8])>
    ensures read { option_map (λ x. (x.0, x.1.now)) result ≡ two_digits_at text.now }
    ensures some { IfSome result (λ x. 1 ≤ x.0) }
{
    match text {
        [ten, byte, rest @ ..] if *ten == b'1' && *byte >= b'0' && *byte <= b'6' => {
            Some((u16::from(*byte - b'0') + 10, rest))
        }
        _ => None,
    }
}

/// A number from 1 to 16, and what follows it.
#[tactic(auto, unfolding(crate::specs::Reading::number_at))]
fn number(text: &[u8]) -> Option<(u16, &[u8])>
    ensures read { option_map (λ x. (x.0, x.1.now)) result ≡ number_at text.now }
    ensures some { IfSome result (λ x. 1 ≤ x.0) }
{
    match two_digits(text) {
        Some(number) => Some(number),
        None => digit(text),
    }
}

/// The number of an agent of a team of so many, and what follows it.
#[tactic(auto, unfolding(crate::specs::Reading::agent_at))]
fn agent(text: &[u8], agents: u16) -> Option<(u16, &[u8])>
    ensures read { option_map (λ x. (x.0, x.1.now)) result ≡ agent_at agents text.now }
    ensures range { IfSome result (λ x. (1 ≤ x.0) × (x.0 ≤ agents)) }
{
    let (number, rest) = number(text)?;
    if number > agents {
        return None;
    }
    Some((number, rest))
}

/// What follows a byte that is wanted first.
#[tactic(auto, unfolding(crate::specs::Reading::byte_at))]
fn behind(text: &[u8], wanted: u8) -> Option<&[u8]>
    ensures { option_map (λ x. x.now) result ≡ byte_at wanted text.now }
{
    match text {
        [byte, rest @ ..] if *byte == wanted => Some(rest),
        _ => None,
    }
}

/// Two agents that differ, with a byte between their numbers, and what follows them.
#[tactic(auto, unfolding(crate::specs::Reading::pair_at))]
fn pair(text: &[u8], between: u8, agents: u16) -> Option<((u16, u16), &[u8])>
    ensures read { option_map (λ x. (x.0, x.1.now)) result ≡ pair_at agents between text.now }
    ensures one { IfSome result (λ x. (1 ≤ x.0.0) × (x.0.0 ≤ agents)) }
    ensures other { IfSome result (λ x. (1 ≤ x.0.1) × (x.0.1 ≤ agents)) }
{
    let (one, rest) = agent(text, agents)?;
    let rest = behind(rest, between)?;
    let (other, rest) = agent(rest, agents)?;
    if one == other {
        return None;
    }
    Some(((one, other), rest))
}

/// The event of an agent's number behind `expand `.
#[tactic(auto, unfolding(crate::specs::Reading::expand_at))]
fn expand(text: &[u8], agents: u16) -> Option<Event>
    requires { agents ≤ 16 }
    ensures { result ≡ expand_at agents text.now }
{
    let (agent, rest) = agent(text, agents)?;
    if !rest.is_empty() {
        return None;
    }
    Some(Event::Expand(Agent::new(agent)?))
}

/// The event of two agents' numbers behind `take `.
#[tactic(auto, unfolding(crate::specs::Reading::take_at))]
fn take(text: &[u8], agents: u16) -> Option<Event>
    requires { agents ≤ 16 }
    ensures { result ≡ take_at agents text.now }
{
    let ((by, from), rest) = pair(text, b' ', agents)?;
    if !rest.is_empty() {
        return None;
    }
    Some(Event::Take {
        by: Agent::new(by)?,
        from: Agent::new(from)?,
    })
}

/// What follows these bytes, where a text begins with them.
#[tactic(auto, unfolding(crate::specs::Reading::text_behind, crate::specs::Reading::byte_at))]
fn behind_all<'a>(text: &'a [u8], head: &[u8]) -> Option<&'a [u8]>
    ensures { option_map (λ x. x.now) result ≡ text_behind head.now text.now }
{
    let mut rest = text;
    for byte in head {
        rest = behind(rest, *byte)?;
    }
    Some(rest)
}

/// The event whose line this is.
#[tactic(auto, unfolding(crate::specs::Reading::event_at))]
fn event(line: &[u8], agents: u16) -> Option<Event>
    requires { agents ≤ 16 }
    ensures { result ≡ event_at agents line.now }
{
    if let Some(rest) = behind_all(line, b"expand ") {
        return expand(rest, agents);
    }
    if let Some(rest) = behind_all(line, b"take ") {
        return take(rest, agents);
    }
    if line == b"start".as_slice() {
        Some(Event::Start)
    } else {
        None
    }
}

/// The event of a team of so many agents whose line this is, where there is one.
pub(crate) fn event_in(line: &[u8], agents: u16) -> Option<Event>
    requires { agents ≤ 16 }
    ensures { result ≡ event_in_team agents line.now }
{
    event(line, agents)
}

/// Whether a byte is a digit, or a letter from `a` to `f`.
fn is_hexadecimal_digit(byte: u8) -> bool
    ensures { result ≡ is_digit byte }
{
    byte >= b'0' && byte <= b'9' || byte >= b'a' && byte <= b'f'
}

/// Whether all bytes are digits of lower-case hexadecimal.
// It goes on behind one that is none, so that many bytes are looked at at once.
fn are_digits(text: &[u8]) -> bool
    ensures { result ≡ list_all is_digit text.now }
{
    let mut all = true;
    for byte in text {
        all = all & is_hexadecimal_digit(*byte);
    }
    all
}

/// Whether a text is bytes in lower-case hexadecimal, at least one of them.
fn is_hexadecimal(text: &[u8]) -> bool
    ensures { result ≡ is_hexadecimal_text text.now }
{
    text.len() > 0 && text.len() % 2 == 0 && are_digits(text)
}

/// Whether sender, receiver and bytes of a message stand here, behind the two blanks.
#[tactic(auto, unfolding(crate::specs::Reading::message_at))]
fn message(text: &[u8], agents: u16) -> bool
    ensures { result ≡ message_at agents text.now }
{
    let Some((_, rest)) = pair(text, b'>', agents) else {
        return false;
    };
    let Some(bytes) = behind(rest, b' ') else {
        return false;
    };
    is_hexadecimal(bytes)
}

/// Whether this is the line of a message, read from left to right.
#[tactic(auto, unfolding(crate::specs::Reading::message_line_at))]
fn message_line(line: &[u8], agents: u16) -> bool
    ensures { result ≡ message_line_at agents line.now }
{
    match behind_all(line, b"  ") {
        Some(rest) => message(rest, agents),
        None => false,
    }
}

/// Whether this is the line of a message between two agents of a team of so many.
pub(crate) fn is_message(line: &[u8], agents: u16) -> bool
    requires { agents ≤ 16 }
    ensures { result ≡ is_message_of agents line.now }
{
    message_line(line, agents)
}

/// Whether this is the line that ends a schedule.
pub(crate) fn is_end(line: &[u8]) -> bool
    ensures { result ≡ ends_schedule line.now }
{
    line == b"answer".as_slice() || line == b"unfinished".as_slice()
}

/// How many bytes stand before the first line feed, all where there is none.
fn first_length(text: &[u8]) -> usize
    ensures value { result ≡ first_length_of text.now }
    ensures within { result ≤ length text.now }
{
    match memchr(b'\n', text) {
        Some(before) => before,
        None => text.len(),
    }
}

/// The first line of a text without its line feed, and what follows it: none where the text is
/// empty.
pub(crate) fn first_line(text: &[u8]) -> Option<(&[u8], &[u8])>
    ensures lines { MatchOption result (text.now ≡ [])
        (λ x. lines_of text.now ≡ x.0.now ∷ lines_of x.1.now) }
    ensures shorter { IfSome result (λ x. length x.1.now < length text.now) }
{
    if text.is_empty() {
        return None;
    }
    let length = first_length(text);
    let (line, rest) = text.split_at(length);
    match rest {
        [_, later @ ..] => Some((line, later)),
        [] => Some((line, rest)),
    }
}
