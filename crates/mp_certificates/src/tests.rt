//! Texts of certificates of two agents, the first with two private facts and the second with one, and two public facts.

ghost use Rattle.std.specs.Prelude.{◌≡◌, ◌≤◌, IfOk, length};

use crate::{CertificateRefusal, certificate_text, read_certificate};
use mp_list::{List, OutOfMemory};
use mp_sets::{Agent, FactList};
use mp_task::{Flags, Task};
use std::alloc::Global;
use std::test::Fail;

/// Texts, and the line that is refused of each, 0 where none is.
const TABLE: [(&[u8], u64); 22] = [
    (
        b"bound 4\n1 4 [] [0] []\n1 3 [] [1] []\n2 2 [1] [1] []\n2 1 [0 1] [0 1] [0]\n",
        0,
    ),
    (b"bound 0\n", 0),
    (b"bound 1152921504606846976\n", 0),
    (b"bound 1152921504606846977\n", 1),
    (b"bound\n1 4 [] [0] []\n", 1),
    (b"", 1),
    (b"bound 4", 1),
    (b"bound 04\n", 1),
    (b"bound 4\n\n", 2),
    (b"bound 4\n1 4 [] [0] []\n2 1 [] [] []", 3),
    (b"bound 4\n0 4 [] [0] []\n", 2),
    (b"bound 4\n3 4 [] [0] []\n", 2),
    (b"bound 4\n1 0 [] [0] []\n", 2),
    (b"bound 4\n1 1152921504606846977 [] [0] []\n", 2),
    (b"bound 4\n1 4 [2] [0] []\n", 2),
    (b"bound 4\n1 4 [] [0] [1]\n", 2),
    (b"bound 4\n1 4 [] [1 0] []\n", 2),
    (b"bound 4\n1 4 [] [1 1] []\n", 2),
    (b"bound 4\n1 4 [] [0 ] []\n", 2),
    (b"bound 4\n1 4 [] [0]\n", 2),
    (b"bound 4\n1 4 [] [0] [] []\n", 2),
    (b"bound 4\n1 4 [4294967296] [0] []\n", 2),
];

/// The task of an agent with so many private facts, who does nothing.
fn task(alloc: Global, me: Agent, privates: u32) -> Result<Task, OutOfMemory>
    requires agent { me ≤ 2 }
    requires few { privates ≤ 2 }
{
    let mut met = Flags::new(alloc);
    met.push(true)?;
    met.push(true)?;
    Ok(Task {
        me,
        agents: 2,
        publics: 2,
        privates,
        start_pub: FactList::new(alloc),
        start_priv: FactList::new(alloc),
        goal_pub: FactList::new(alloc),
        goal_priv: FactList::new(alloc),
        acts: List::new(alloc),
        far: List::new(alloc),
        met,
    })
}

/// The tasks of both agents.
fn tasks(alloc: Global, one: Agent, two: Agent) -> Result<List<Task>, OutOfMemory>
    requires first { one ≤ 2 }
    requires second { two ≤ 2 }
    ensures { IfOk result (λ tasks. length tasks ≡ 2) }
{
    let mut tasks = List::new(alloc);
    tasks.push(task(alloc, one, 2)?)?;
    tasks.push(task(alloc, two, 1)?)?;
    Ok(tasks)
}

/// Whether a text is refused at this line, or, where this is 0, is read as a certificate that has it as its text.
fn is_read(alloc: Global, tasks: &[Task], text: &[u8], line: u64) -> Result<bool, OutOfMemory>
    requires { length tasks.now ≤ 16 }
{
    match read_certificate(alloc, text, tasks) {
        Ok(certificate) => {
            let again = certificate_text(alloc, &certificate)?;
            Ok(line == 0 && again.as_slice() == text)
        }
        Err(CertificateRefusal::Line(number)) => Ok(number == line),
        Err(CertificateRefusal::OutOfMemory) => Err(OutOfMemory),
    }
}

/// Whether all texts of the table are read as it says.
fn are_read(alloc: Global, one: Agent, two: Agent) -> Result<bool, OutOfMemory>
    requires first { one ≤ 2 }
    requires second { two ≤ 2 }
{
    let tasks = tasks(alloc, one, two)?;
    for (text, line) in &TABLE {
        if !is_read(alloc, tasks.as_slice(), text, *line)? {
            return Ok(false);
        }
    }
    Ok(true)
}

#[test]
fn worked_texts(rt: HostRuntime) -> Result<(), Fail> {
    let one = Agent::first();
    let two = Agent::new(2).ok_or("agent 2")?;
    assert!(rt; are_read(rt.alloc(), one, two)?);
    Ok(())
}
