//! Laws of values and the files that they are taken from.

ghost use Rattle.std.specs.Prelude.{◌≡◌, All};
ghost use Rattle.mp_sexp.specs.Node.{Node};
ghost use Rattle.mp_forms.specs.FactorParts.{DomainParts, ProblemParts};
ghost use Rattle.mp_forms.specs.Reading.{Says};
ghost use Rattle.mp_forms.specs.Rules.Files.{domain_rule, problem_rule};
ghost use Rattle.mp_forms.specs.Uses.{IsNameOrVariable, DomainIsNamed, ProblemIsNamed, words_of_domain, words_of_problem, DomainIsTaken, ProblemIsTaken};

/// Nothing is made up: each word of what a file says, with its place, and each of its costs is written in
/// the file. Its names are names then, and its variables are variables.
pub fn values_are_taken_from_the_file()
    ensures domains { (node : Node) (domain : DomainParts) → domain_rule node ≡ Says domain → DomainIsTaken node domain }
    ensures problems { (node : Node) (problem : ProblemParts) → problem_rule node ≡ Says problem → ProblemIsTaken node problem }
{}

/// Where names are names and variables are variables, each word is a name or a variable.
pub fn words_are_names_or_variables()
    ensures domains { (domain : DomainParts) → DomainIsNamed domain → All IsNameOrVariable (words_of_domain domain) }
    ensures problems { (problem : ProblemParts) → ProblemIsNamed problem → All IsNameOrVariable (words_of_problem problem) }
{}
