//! What takes the actions of a plan, with numbers for their facts.

ghost use Rattle.std.specs.Prelude.{◌++◌, ◌∷◌, [], List, OnOk};
ghost use Rattle.mp_checker.specs.Sink.{HasCome};
ghost use Rattle.mp_checker.specs.Steps.{NumberedStep};

use mp_list::OutOfMemory;

/// Takes the actions of a plan one after another, with numbers for their facts.
pub trait StepSink {
    // These actions have come.
    ghost have_come: { Self → List NumberedStep → Type 0 };

    /// Takes an action behind those that have come: the number of its agent, and the numbers of the facts that it asks for
    /// or against, adds and deletes. Refuses only for want of memory.
    fn take(
        &mut self,
        agent: u16,
        needs: &[u32],
        adds: &[u32],
        dels: &[u32],
    ) -> Result<(), OutOfMemory>
        requires { HasCome (have_come self.old) }
        ensures { (steps : List NumberedStep) → have_come self.old steps → OnOk result (have_come self.new
            (steps ++ (record { agent = agent; needs = needs.now; adds = adds.now; dels = dels.now }) ∷ [])) };
}

/// A sink that takes no notice of what comes.
#[derive(Clone, Copy, Debug, PartialEq, Eq)]
pub struct NoSteps;

impl StepSink for NoSteps {
    ghost have_come = { λ _ _. Unit {0} };

    fn take(
        &mut self,
        _agent: u16,
        _needs: &[u32],
        _adds: &[u32],
        _dels: &[u32],
    ) -> Result<(), OutOfMemory> {
        Ok(())
    }
}
