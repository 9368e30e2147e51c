//! The search of one agent: what each call answers in its turn.

ghost use Rattle.std.specs.Prelude.{◌≡◌, ◌≤◌, IfOk, IfSome};
ghost use Rattle.mp_messages.specs.declared.message.Message.TheVariants as messages;
ghost use Rattle.mp_messages.specs.Spelling.{Fits};

use crate::calls::{Answers, Call, Out, run_lines};
use crate::lines::{long, part, split_word};
use crate::states::agent_at;
use crate::tasks::{FACTS, task};
use mp_list::OutOfMemory;
use mp_messages::{Message, State, decode};
use mp_search::{Search, SendingList};
use mp_sets::Agent;
use mp_store::Store;
use mp_task::{Heuristic, Task};
use std::alloc::Global;

/// A search, and whose it is.
#[derive(Drop)]
struct Searcher<H: Heuristic> {
    search: Search<H>,
    me: Agent,
    agents: u16,
    ghost own: { search.task.me ≡ me },
    ghost team: { search.task.agents ≡ agents },
    ghost publics: { search.task.publics ≡ 4 },
}

/// The state that bytes in hexadecimal spell, if a team of so many agents may send it.
fn state(alloc: Global, agents: u16, digits: &str) -> Option<State>
    ensures { IfSome result (λ state. Fits agents 4 (messages.State state)) }
{
    let bytes = hex::decode(alloc, digits).ok()?;
    match decode(alloc, agents, 4, bytes.as_slice()) {
        Ok(Message::State(state)) => Some(state),
        _ => None,
    }
}

/// Adds the states that are sent, and to whom.
fn show_sendings(out: &mut Out, sendings: &SendingList) -> Result<(), OutOfMemory> {
    for sending in sendings {
        out.show(&sending.state);
        out.show(&sending.to);
    }
    Ok(())
}

/// Expands an entry, and adds what is sent.
fn expand<H: Heuristic>(search: &mut Search<H>, out: &mut Out) -> Result<(), OutOfMemory>
    ensures { search.new.task ≡ search.old.task }
{
    match search.expand() {
        Ok(sendings) => show_sendings(out, &sendings),
        Err(refusal) => out.answer(&refusal),
    }
}

/// Receives a state from another agent.
fn take<H: Heuristic>(
    alloc: Global,
    search: &mut Search<H>,
    me: Agent,
    agents: u16,
    text: &str,
    out: &mut Out,
) -> Result<(), OutOfMemory>
    requires me { search.old.task.me ≡ me }
    requires agents { search.old.task.agents ≡ agents }
    requires publics { search.old.task.publics ≡ 4 }
    ensures { search.new.task ≡ search.old.task }
{
    let (number, digits) = split_word(text);
    let from = agent_at(number, 0);
    if from == me || from.number() > agents {
        return out.answer_not_read();
    }
    match state(alloc, agents, digits) {
        Some(state) => out.answer(&search.receive(from, state)),
        None => out.answer_not_read(),
    }
}

/// Adds an entry of a store.
fn show_entry(store: &Store, number: u64, out: &mut Out) -> Result<(), OutOfMemory> {
    if number < store.count() {
        let entry = store.entry(number);
        let facts = entry.key.publics.list()?;
        out.show(&(entry.g, entry.h));
        out.show(&(facts.as_slice(), entry.key.tags));
        out.show(&entry.origin);
    }
    Ok(())
}

/// Adds the own set with a token.
fn show_token<H: Heuristic>(
    search: &Search<H>,
    token: u64,
    out: &mut Out,
) -> Result<(), OutOfMemory> {
    let tokens = search.tokens();
    match tokens.set_of(token) {
        Some(index) => out.answer(&tokens.set(index).list()?.as_slice()),
        None => out.answer(&None::<u8>),
    }
}

/// Adds what is asked of a search.
fn show_asked<H: Heuristic>(
    search: &Search<H>,
    call: Call<'_>,
    out: &mut Out,
) -> Result<(), OutOfMemory> {
    match call.word {
        "entry" => show_entry(search.store(), long(call.rest, 0), out),
        "token" => show_token(search, long(call.rest, 0), out),
        "least" => out.answer(&(search.store().least_f(), search.store().least_goal())),
        "counts" => {
            out.show(&(search.store().count(), search.expanded()));
            out.answer(&(search.spent(), search.can_expand()))
        }
        _ => Ok(()),
    }
}

impl<H: Heuristic> Answers for Searcher<H> {
    fn answer(&mut self, alloc: Global, call: Call<'_>, out: &mut Out) -> Result<(), OutOfMemory> {
        match call.word {
            "expand" => expand(&mut self.search, out),
            "take" => take(
                alloc,
                &mut self.search,
                self.me,
                self.agents,
                call.rest,
                out,
            ),
            _ => show_asked(&self.search, call, out),
        }
    }
}

/// The search of a task, with a heuristic that is made of it.
fn made<H: Heuristic>(alloc: Global, task: Task, limit: u64) -> Result<Searcher<H>, OutOfMemory>
    requires publics { task.publics ≡ 4 }
    requires from_1 { 1 ≤ limit }
    requires limit { limit ≤ 9 }
{
    let (me, agents) = (task.me, task.agents);
    let heuristic = H::make(alloc, &task)?;
    let search = Search::new(alloc, task, heuristic, limit)?;
    Ok(Searcher { search, me, agents })
}

/// Runs the calls of the search of a task.
pub(crate) fn run_search<H: Heuristic>(
    alloc: Global,
    head: &str,
    lines: &str,
    out: &mut Out,
) -> Result<(), OutOfMemory> {
    let limit = long(part(head, 2), 0).min(9).max(1);
    if let Some(task) = task(alloc, FACTS, head, lines)? {
        let mut searcher = made::<H>(alloc, task, limit)?;
        return run_lines(alloc, &mut searcher, lines, out);
    }
    Ok(())
}
