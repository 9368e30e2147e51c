//! What holds of all texts of certificates. The law is the contract of a function that does nothing.

ghost use Rattle.std.specs.Prelude.{◌≡◌, ◌≤◌, ℕ, List, All, length};
ghost use Rattle.mp_task.specs.AgentTask.{AgentTask};
ghost use Rattle.mp_task.specs.Limits.{IsWithinLimits};
ghost use Rattle.mp_audit.specs.declared.certificate.Certificate.{Certificate};
ghost use Rattle.mp_text.specs.Lines.{Text};
ghost use Rattle.mp_certificates.specs.Accepted.{IsRefusedLine, IsTextOf};

/// A text is that of one certificate at most, a text of a certificate has no line that is refused, and of any other text
/// one line alone is the first that is refused. So the text of a certificate that fits a team is read as this certificate.
pub fn texts_have_one_reading()
    ensures one { (tasks : List AgentTask) (text : Text) (a b : Certificate)
        → length tasks ≤ 16 → All IsWithinLimits tasks
        → IsTextOf tasks a text → IsTextOf tasks b text → a ≡ b }
    ensures accepted { (tasks : List AgentTask) (text : Text) (certificate : Certificate) (number : ℕ)
        → length tasks ≤ 16 → All IsWithinLimits tasks
        → IsTextOf tasks certificate text → IsRefusedLine tasks text number → ⊥ }
    ensures first { (tasks : List AgentTask) (text : Text) (number other : ℕ)
        → length tasks ≤ 16 → All IsWithinLimits tasks
        → IsRefusedLine tasks text number → IsRefusedLine tasks text other → number ≡ other }
{}
