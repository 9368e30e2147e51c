//! The certificate of a search for the files of a team.

ghost use Rattle.std.specs.Prelude.{◌≡◌, ◌≤◌, ◌++◌, ◌∷◌, [], false, IfErr, IfOk, IsSome, OnOk, length};
ghost use Rattle.mp_certify.specs.Certified.{solved_cost};
ghost use Rattle.mp_solve.specs.Refused.{AreWithin};
ghost use Rattle.mp_split.specs.Team.{AreTasksOf, IsFirstRefusal};
ghost use Rattle.mp_world.specs.Answers.{answer_of};
ghost use Rattle.mp_world.specs.Team.{most_expansions};
ghost use Rattle.mp_optimality.specs.Certified.{IsCertified, TellsAnswer, TellsSolved};

use mp_certificates::certificate_text;
use mp_certify::certificate;
use mp_ground_laws::laws::checked_factors_are_checked;
use mp_grounder::GroundRefusal;
use mp_list::{List, OutOfMemory};
use mp_messages::Bytes;
use mp_schedule::World;
use mp_solutions::{Solution, answers_are_right_for_files};
use mp_solve::{ended, told};
use mp_split::{Tasks, tasks};
use mp_stands::tasks::tasks_stand_for_files;
use mp_task::Blind;
use mp_typing::CheckedFactor;
use mp_world::Answer;
use std::alloc::Global;

/// What the agents of a team found without a heuristic, and what certifies it.
#[derive(Drop)]
pub struct Certified {
    /// What the agents found, and how.
    pub solution: Solution,
    /// The text of a certificate where a plan was found, or the line `unsolvable` or `undecided`.
    pub text: Bytes,
}

/// The text of a line.
fn line(alloc: Global, line: &[u8]) -> Result<Bytes, OutOfMemory>
    ensures { IfOk result (λ text. text ≡ line.now ++ 10 ∷ []) }
{
    let mut text = List::new(alloc);
    text.extend_from_slice(line)?;
    text.push(b'\n')?;
    Ok(text)
}

/// The text of the certificate of a world in which all agents have ended with a plan.
fn told_certificate(alloc: Global, world: &World<Blind>) -> Result<Bytes, OutOfMemory>
    requires free { world.now.failed ≡ false }
    requires solved { IsSome (solved_cost (answer_of world.now.world)) }
    ensures { IfOk result (TellsSolved world.now.tasks world.now.world) }
{
    let certificate = certificate(alloc, world)?;
    certificate_text(alloc, &certificate)
}

/// What is told of the world that has this answer.
fn told_answer(alloc: Global, world: &World<Blind>, answer: Answer) -> Result<Bytes, OutOfMemory>
    requires free { world.now.failed ≡ false }
    requires answer { answer ≡ answer_of world.now.world }
    ensures { IfOk result (TellsAnswer world.now.tasks world.now.world answer) }
{
    match answer {
        Answer::Nothing => Ok(List::new(alloc)),
        Answer::Solved { .. } => told_certificate(alloc, world),
        Answer::Unsolvable => line(alloc, b"unsolvable"),
        Answer::Undecided => line(alloc, b"undecided"),
    }
}

/// What the agents with these tasks find without a heuristic, and what certifies it.
fn certify_tasks(
    alloc: Global,
    factors: &[CheckedFactor],
    given: Tasks,
    limit: u64,
) -> Result<Certified, OutOfMemory>
    requires from_1 { 1 ≤ limit }
    requires limit { limit ≤ most_expansions }
    requires some { 1 ≤ length factors.now }
    requires at_most { length factors.now ≤ 16 }
    requires tasks { AreTasksOf factors.now given }
    ensures { IfOk result (λ c. IsCertified limit factors.now c.solution c.text) }
{
    let Tasks {
        tasks,
        steps,
        views,
    } = given;
    checked_factors_are_checked(factors);
    tasks_stand_for_files();
    answers_are_right_for_files::<Blind>();
    let world = ended::<Blind>(alloc, tasks, limit)?;
    let found = told(
        alloc,
        factors,
        steps.as_slice(),
        world.machines(),
        world.log(),
    )?;
    let text = told_answer(alloc, &world, found.answer)?;
    Ok(Certified {
        solution: Solution {
            views,
            log: world.into_log(),
            answer: found.answer,
            text: found.text,
        },
        text,
    })
}

/// What the agents of a team find without a heuristic, each of which expands at most `limit` entries, from 1 to 10,000,000,
/// and what certifies it: their factors are grounded, each gets its task, and they take turns until all have ended. There are
/// 1 to 16 agents. An audit of the certificate, where a plan was found, holds.
///
/// It refuses where a factor is not grounded, as the first of the agents with such a factor does, and for want of memory.
#[tactic(auto, using(mp_split::proofs::FirstAgents::no_memory))]
pub fn certify(
    alloc: Global,
    factors: &[CheckedFactor],
    limit: u64,
) -> Result<Certified, GroundRefusal>
    requires from_1 { 1 ≤ limit }
    requires limit { limit ≤ most_expansions }
    requires some { 1 ≤ length factors.now }
    requires at_most { length factors.now ≤ 16 }
    ensures certified { IfOk result (λ c. IsCertified limit factors.now c.solution c.text) }
    ensures within { OnOk result (AreWithin factors.now) }
    ensures refused { IfErr result (IsFirstRefusal factors.now) }
{
    let given = tasks(alloc, factors)?;
    Ok(certify_tasks(alloc, factors, given, limit)?)
}
