//! An event of a team, part by part.

ghost use Rattle.std.specs.Prelude.{◌≡◌, ◌≤◌, ◌∷◌, ◌++◌, [], true, length, List, map, option_map, All, OnOk};
ghost use Rattle.std.specs.List.{fold};
ghost use Rattle.mp_machine.specs.AgentRecord.{AgentRecord};
ghost use Rattle.mp_machine.specs.Machine.{given};
ghost use Rattle.mp_messages.specs.declared.history.Entry.TheVariants.{Took};
ghost use Rattle.mp_schedule.specs.Happening.{missing, refusal_of};
ghost use Rattle.mp_schedule.specs.Machines.{IsFree, limit_of, tasks_of, world_of};
ghost use Rattle.mp_schedule.specs.Steps.{HasStepped, IsDone};
ghost use Rattle.mp_schedule.specs.UnderWay.{Mail as Messages, world_with};
ghost use Rattle.mp_world.specs.Events.{agent_may, agent_of, has_message, is_legal, local_of};
ghost use Rattle.mp_world.specs.Events.{taken, with_sent, without_taken};
ghost use Rattle.mp_world.specs.Logs.{entries_of, entry_of, put_by};

use crate::mail::{Mail, Posted, place};
use crate::refusal::EventRefusal;
use mp_list::OutOfMemory;
use mp_machine::{Local, Machine, Out, Outs, StepRefusal};
use mp_messages::{Event, Kind, Log};
use mp_sets::Agent;
use mp_task::Heuristic;

/// The agent whose event it is.
fn agent_of(event: &Event) -> Agent
    ensures { result ≡ agent_of event.now }
{
    match event {
        Event::Expand(agent) => *agent,
        Event::Take { by, .. } => *by,
        Event::Start => Agent::first(),
    }
}

/// The event as that agent sees it.
fn local_of(event: &Event) -> Local
    ensures { result ≡ local_of event.now }
{
    match event {
        Event::Expand(_) => Local::Expand,
        Event::Take { from, .. } => Local::Take(*from),
        Event::Start => Local::Start,
    }
}

/// Whether the agent of an event may do it by itself.
fn may<H: Heuristic>(machines: &[Machine<H>], event: &Event) -> bool
    requires { agent_of event.now ≤ length machines.now }
    ensures { (mail : Messages) → result ≡ agent_may (world_of machines.now mail) event.now }
{
    let at = place(agent_of(event));
    let machine = &machines[at];
    machine.can(&local_of(event))
}

/// Whether there is the message that an event takes, if it takes one.
fn has_message(mail: &Mail, event: &Event) -> bool
    ensures { (agents : List AgentRecord) → result
        ≡ has_message (world_with agents mail.now) event.now }
{
    match event {
        Event::Take { by, from } => !mail.is_empty(*from, *by),
        _ => true,
    }
}

/// Why an event may not happen for want of a message.
fn missing(event: &Event) -> Option<EventRefusal>
    ensures { result ≡ missing event.now }
{
    match event {
        Event::Take { by, from } => Some(EventRefusal::Empty {
            by: *by,
            from: *from,
        }),
        _ => None,
    }
}

/// Why an event may not happen, if it may not.
pub(crate) fn refusal_of<H: Heuristic>(
    machines: &[Machine<H>],
    mail: &Mail,
    event: &Event,
) -> Option<EventRefusal>
    requires { agent_of event.now ≤ length machines.now }
    ensures { result ≡ refusal_of (world_of machines.now mail.now) event.now }
{
    if !may(machines, event) {
        return Some(EventRefusal::NotNow(agent_of(event)));
    }
    if has_message(mail, event) {
        return None;
    }
    missing(event)
}

/// Takes the message of an event, the oldest one of its pair, if it takes one.
fn take(mail: &mut Mail, event: &Event) -> Option<Posted>
    ensures taken { (agents : List AgentRecord) → given result
        ≡ taken (world_with agents mail.old) event.now }
    ensures left { (agents : List AgentRecord) → world_with agents mail.new
        ≡ without_taken (world_with agents mail.old) event.now }
{
    match event {
        Event::Take { by, from } => mail.take(*from, *by),
        _ => None,
    }
}

/// The bytes of a message that was taken, if one was.
fn lent(message: &Option<Posted>) -> Option<&[u8]>
    ensures { given (option_map (λ b. b.now) result) ≡ given message.now }
{
    match message {
        Some(taken) => Some(taken.bytes()),
        None => None,
    }
}

/// The agent of an event that may happen takes the step.
fn step<H: Heuristic>(
    machines: &mut Vec<Machine<H>>,
    event: &Event,
    bytes: Option<&[u8]>,
) -> Result<Outs, StepRefusal>
    requires team { agent_of event.now ≤ length machines.old.items }
    requires may { agent_may (world_of machines.old.items []) event.now ≡ true }
    requires free { All IsFree machines.old.items }
    ensures { HasStepped H.value machines.old.items event.now
        (given (option_map (λ b. b.now) bytes.entry)) result machines.new.items }
{
    let at = place(agent_of(event));
    let local = local_of(event);
    let machine = &mut machines[at];
    machine.step_allowed(local, bytes)
}

/// Adds to the log that an agent took a message. The bytes of one that was put stand there, and are not added again.
fn note_taken(
    log: &mut Log,
    by: Agent,
    from: Agent,
    message: &Option<Posted>,
) -> Result<(), OutOfMemory>
    ensures { OnOk result (log.new ≡ log.old ++ Took by from (given message.now) ∷ []) }
{
    match message {
        Some(taken) => log.push_took_of(by, from, taken.bytes(), taken.put()),
        None => log.push_took(by, from, &[]),
    }
}

/// Adds an event to the log, with the message that it took.
fn note(log: &mut Log, event: &Event, message: &Option<Posted>) -> Result<(), OutOfMemory>
    ensures { OnOk result (log.new ≡ log.old ++ entry_of event.now (given message.now) ∷ []) }
{
    match event {
        Event::Expand(agent) => log.push_act(*agent, Kind::Expand),
        Event::Take { by, from } => note_taken(log, *by, *from, message),
        Event::Start => log.push_act(Agent::first(), Kind::Start),
    }
}

/// A message goes out from an agent of a team of so many, behind those that are under way. The entry at a place of the log
/// says that it was put.
fn deliver(
    mail: &mut Mail,
    agents: usize,
    from: Agent,
    out: Out,
    put: usize,
) -> Result<(), OutOfMemory>
    ensures { (records : List AgentRecord) → length records ≡ agents
        → OnOk result (with_sent from (world_with records mail.old) out
        ≡ world_with records mail.new) }
{
    if usize::from(out.to.number()) <= agents {
        mail.push(from, out.to, Posted::new(out.bytes, put))?;
    }
    Ok(())
}

/// Adds to the log that a message went out.
fn note_sent(log: &mut Log, from: Agent, out: &Out) -> Result<(), OutOfMemory>
    ensures { OnOk result (log.new ≡ log.old ++ put_by from out.now ∷ []) }
{
    log.push_put(from, out.to, out.bytes.as_slice())
}

/// A message goes out, and the log tells it.
fn send(
    mail: &mut Mail,
    log: &mut Log,
    agents: usize,
    from: Agent,
    out: Out,
) -> Result<(), OutOfMemory>
    ensures log { OnOk result (log.new ≡ log.old ++ put_by from out ∷ []) }
    ensures mail { (records : List AgentRecord) → length records ≡ agents
        → OnOk result (with_sent from (world_with records mail.old) out
        ≡ world_with records mail.new) }
{
    let put = log.len();
    note_sent(log, from, &out)?;
    deliver(mail, agents, from, out, put)
}

/// Messages go out, one after another, and the log tells them.
fn send_all(
    mail: &mut Mail,
    log: &mut Log,
    agents: usize,
    from: Agent,
    outs: Outs,
) -> Result<(), OutOfMemory>
    ensures log { OnOk result (log.new ≡ log.old ++ map (put_by from) outs) }
    ensures mail { (records : List AgentRecord) → length records ≡ agents
        → OnOk result (fold (with_sent from) (world_with records mail.old) outs
        ≡ world_with records mail.new) }
{
    for out in outs.into_items() {
        send(mail, log, agents, from, out)?;
    }
    Ok(())
}

/// Adds an event to the log, with the message that it took; then its messages go out.
fn finish(
    mail: &mut Mail,
    log: &mut Log,
    agents: usize,
    event: &Event,
    message: &Option<Posted>,
    outs: Outs,
) -> Result<(), OutOfMemory>
    ensures log { OnOk result (log.new ≡ log.old ++ entries_of event.now (given message.now) outs) }
    ensures mail { (records : List AgentRecord) → length records ≡ agents
        → OnOk result (fold (with_sent (agent_of event.now)) (world_with records mail.old) outs
        ≡ world_with records mail.new) }
{
    note(log, event, message)?;
    send_all(mail, log, agents, agent_of(event), outs)
}

/// An event that may happen, happens, unless its message is a bad one or memory runs out.
pub(crate) fn happen<H: Heuristic>(
    machines: &mut Vec<Machine<H>>,
    mail: &mut Mail,
    log: &mut Log,
    event: &Event,
) -> Result<(), StepRefusal>
    requires team { agent_of event.now ≤ length machines.old.items }
    requires legal { is_legal (world_of machines.old.items mail.old) event.now ≡ true }
    requires free { All IsFree machines.old.items }
    ensures done { IsDone H.value
        (record { machines = machines.old.items; mail = mail.old; log = log.old }) event.now result
        (record { machines = machines.new.items; mail = mail.new; log = log.new }) }
    ensures tasks { tasks_of machines.new.items ≡ tasks_of machines.old.items }
    ensures limit { limit_of machines.new.items ≡ limit_of machines.old.items }
{
    let message = take(mail, event);
    let outs = match step(machines, event, lent(&message)) {
        Ok(outs) => outs,
        Err(refusal) => return Err(refusal),
    };
    Ok(finish(mail, log, machines.len(), event, &message, outs)?)
}
