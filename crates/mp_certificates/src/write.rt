//! Certificates that are written.

ghost use Rattle.std.specs.Prelude.{◌≡◌, ◌++◌, ◌∷◌, [], decimal, IfOk, List, OnOk};
ghost use Rattle.std.specs.List.{flat_map};
ghost use Rattle.mp_task.specs.AgentTask.{AgentTask};
ghost use Rattle.mp_audit.specs.Fits.{AgentsFit, CertificateFits};
ghost use Rattle.mp_text.specs.Outcome.{labelled};
ghost use Rattle.mp_certificates.specs.Accepted.{IsTextOf};
ghost use Rattle.mp_certificates.specs.Text.{blank_facts, blank_number, certificate_text as certificate_text_of, cost_line, entries_text, entry_line, facts_text, spaced};

use crate::formed::are_formed;
use itoa::Buffer;
use mp_audit::{Bound, Certificate};
use mp_list::{List, OutOfMemory};
use mp_messages::Bytes;
use mp_sets::FactList;
use std::alloc::Global;

/// Appends the digits of a number, one after another, since most numbers have one or two.
fn push_digits(text: &mut Bytes, digits: &[u8]) -> Result<(), OutOfMemory>
    ensures { OnOk result (text.new ≡ text.old ++ digits.now) }
{
    for digit in digits {
        text.push(*digit)?;
    }
    Ok(())
}

/// Appends a number in decimal.
fn push_number(text: &mut Bytes, number: u64) -> Result<(), OutOfMemory>
    ensures { OnOk result (text.new ≡ text.old ++ decimal number) }
{
    let mut buffer = Buffer::new();
    push_digits(text, buffer.format(number).as_bytes())
}

/// Appends numbers, each after a blank.
fn push_numbers(text: &mut Bytes, numbers: &[u32]) -> Result<(), OutOfMemory>
    ensures { OnOk result (text.new ≡ text.old ++ flat_map blank_number numbers.now) }
{
    for number in numbers {
        text.push(b' ')?;
        push_number(text, u64::from(*number))?;
    }
    Ok(())
}

/// Appends numbers with a blank between each two.
fn push_spaced(text: &mut Bytes, numbers: &[u32]) -> Result<(), OutOfMemory>
    ensures { OnOk result (text.new ≡ text.old ++ spaced numbers.now) }
{
    match numbers {
        [] => Ok(()),
        [first, others @ ..] => {
            push_number(text, u64::from(*first))?;
            push_numbers(text, others)
        }
    }
}

/// Appends facts between brackets, after a blank.
fn push_facts(text: &mut Bytes, facts: &FactList) -> Result<(), OutOfMemory>
    ensures { OnOk result (text.new ≡ text.old ++ blank_facts facts.now) }
{
    text.extend_from_slice(b" [")?;
    push_spaced(text, facts.as_slice())?;
    text.push(b']')
}

/// Appends lists of facts.
fn push_lists(text: &mut Bytes, lists: &[FactList]) -> Result<(), OutOfMemory>
    ensures { OnOk result (text.new ≡ text.old ++ flat_map blank_facts lists.now) }
{
    for facts in lists {
        push_facts(text, facts)?;
    }
    Ok(())
}

/// Appends the line of an entry.
fn push_entry(text: &mut Bytes, entry: &Bound) -> Result<(), OutOfMemory>
    ensures { OnOk result (text.new ≡ text.old ++ (entry_line entry.now ++ 10 ∷ [])) }
{
    push_number(text, u64::from(entry.agent.number()))?;
    text.push(b' ')?;
    push_number(text, entry.bound)?;
    push_facts(text, &entry.publics)?;
    push_lists(text, entry.privates.as_slice())?;
    text.push(b'\n')
}

/// Appends the lines of entries.
fn push_entries(text: &mut Bytes, entries: &[Bound]) -> Result<(), OutOfMemory>
    ensures { OnOk result (text.new ≡ text.old ++ entries_text entries.now) }
{
    for entry in entries {
        push_entry(text, entry)?;
    }
    Ok(())
}

/// Appends the line of a cost.
fn push_cost(text: &mut Bytes, cost: u64) -> Result<(), OutOfMemory>
    ensures { OnOk result (text.new ≡ text.old ++ (cost_line cost ++ 10 ∷ [])) }
{
    text.extend_from_slice(b"bound ")?;
    push_number(text, cost)?;
    text.push(b'\n')
}

/// The text of a certificate, whatever it says.
fn written(alloc: Global, certificate: &Certificate) -> Result<Bytes, OutOfMemory>
    ensures { IfOk result (λ text. text ≡ certificate_text_of certificate.now) }
{
    let mut text = List::new(alloc);
    push_cost(&mut text, certificate.cost)?;
    push_entries(&mut text, certificate.bounds.as_slice())?;
    Ok(text)
}

/// The text of a certificate: a line `bound C` with its cost, and behind it for each entry a line of its agent, its bound,
/// its public facts and the private facts of each agent, `I B [N ..] [N ..] ..`. Where the certificate fits a team and its
/// entries are of agents of the team, the text is read as this certificate. Refuses only for want of memory.
pub fn certificate_text(alloc: Global, certificate: &Certificate) -> Result<Bytes, OutOfMemory>
    ensures text { IfOk result (λ text. text ≡ certificate_text_of certificate.now) }
    ensures read { (tasks : List AgentTask) → AgentsFit tasks certificate.now → CertificateFits tasks certificate.now
        → IfOk result (IsTextOf tasks certificate.now) }
{
    are_formed(certificate.bounds.as_slice());
    let text = written(alloc, certificate)?;
    Ok(text)
}
