//! What holds of the lines of a certificate's text that are refused for a team. The law is the contract of a function that does
//! no more than call the laws that it rests on.

ghost use Rattle.std.specs.Prelude.{◌≡◌, ℕ, All, List};
ghost use Rattle.mp_forms.specs.declared.factor.Factor.{Factor};
ghost use Rattle.mp_ground_laws.specs.Checked.{IsChecked};
ghost use Rattle.mp_text.specs.Lines.{Text};
ghost use Rattle.mp_optimality.specs.Audits.{HasCertificate, IsCertificateRefused};

use mp_certificates::texts_have_one_reading;
use mp_replays::tasks_are_one;

/// At most one line of a text is the first that is refused for the files of a team, and none where the text is that of a
/// certificate that fits the team.
pub fn refused_certificates_have_one_line()
    ensures one { (team : List Factor) (text : Text) (m n : ℕ) → All IsChecked team
        → IsCertificateRefused team text m → IsCertificateRefused team text n → m ≡ n }
    ensures none { (team : List Factor) (text : Text) (n : ℕ) → All IsChecked team
        → HasCertificate team text → IsCertificateRefused team text n → ⊥ }
{
    tasks_are_one();
    texts_have_one_reading();
}
