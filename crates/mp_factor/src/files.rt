//! The two files, section by section.

ghost use Rattle.std.specs.Prelude.{◌≡◌, [], IfOk, Ok};
ghost use Rattle.mp_sexp.specs.Node.{node_of, nodes_in};
ghost use Rattle.mp_forms.specs.Words.{is_among};
ghost use Rattle.mp_forms.specs.Reading.{all_right, alone, besides, keyword};
ghost use Rattle.mp_factor.specs.Found.{found_in};
ghost use Rattle.mp_factor.specs.OfFile.{own_words, other_words, kind_word};
ghost use Rattle.mp_forms.specs.Rules.Words.{name_rule};
ghost use Rattle.mp_forms.specs.Rules.Sections.{domain_words, problem_words, section_rule};
ghost use Rattle.mp_forms.specs.Rules.Files.{title_rule};

use crate::found::{Form, Found, check_each, expect, read_alone, second, shape_fault, word_fault};
use crate::trees::{is_list_tree, members, place, word};
use crate::word::NameForm;
use crate::words::is_same;
use mp_forms::{File, Word};
use mp_list::OutOfMemory;
use mp_sexp::{Place, Tree};
use std::alloc::Global;

/// The other file.
fn other(file: File) -> File
    ensures { own_words result ≡ other_words file }
{
    match file {
        File::Domain => File::Problem,
        File::Problem => File::Domain,
    }
}

/// Whether a word begins a section of a domain.
#[tactic(auto, unfolding(mp_forms::specs::Rules::Sections::domain_words))]
fn begins_in_domain(word: &[u8]) -> bool
    ensures { result ≡ is_among domain_words word.now }
{
    is_same(b":requirements", word)
        || is_same(b":types", word)
        || is_same(b":constants", word)
        || is_same(b":predicates", word)
        || is_same(b":functions", word)
        || is_same(b":action", word)
}

/// Whether a word begins a section of a problem.
#[tactic(auto, unfolding(mp_forms::specs::Rules::Sections::problem_words))]
fn begins_in_problem(word: &[u8]) -> bool
    ensures { result ≡ is_among problem_words word.now }
{
    is_same(b":requirements", word)
        || is_same(b":domain", word)
        || is_same(b":objects", word)
        || is_same(b":init", word)
        || is_same(b":goal", word)
        || is_same(b":metric", word)
}

/// Whether a word begins a section of this file.
fn begins_section(file: File, word: &[u8]) -> bool
    ensures { result ≡ is_among (own_words file) word.now }
{
    match file {
        File::Domain => begins_in_domain(word),
        File::Problem => begins_in_problem(word),
    }
}

/// A section of a file, by its first word alone.
#[derive(Clone, Copy)]
struct SectionForm {
    file: File,
}

#[tactic(auto, unfolding(mp_forms::specs::Rules::Sections::section_rule))]
impl Form<()> for SectionForm {
    ghost rule = { λ form node. section_rule (own_words form.file) (other_words form.file) node };

    fn read(&self, alloc: Global, tree: &Tree) -> Result<Found<()>, OutOfMemory> {
        match members(tree) {
            [] => Ok(shape_fault(alloc, place(tree))),
            [head, ..] => {
                if is_list_tree(head) {
                    Ok(shape_fault(alloc, place(head)))
                } else if begins_section(self.file, word(head)) {
                    Ok(Ok(()))
                } else if begins_section(other(self.file), word(head)) {
                    Ok(shape_fault(alloc, place(tree)))
                } else {
                    word_fault(alloc, head)
                }
            }
        }
    }
}

/// Whether each section of a file is one that may stand there. Refuses only for want of memory.
pub fn check_sections(
    alloc: Global,
    file: File,
    sections: &[Tree],
) -> Result<Found<()>, OutOfMemory>
    ensures { IfOk result (λ found. found
        ≡ found_in (all_right (section_rule (own_words file) (other_words file)) (nodes_in sections.now))) }
{
    check_each(alloc, &SectionForm { file }, sections)
}

/// The word that tells the file's kind.
fn word_of_kind(file: File) -> &'static [u8]
    ensures { result.now ≡ kind_word file }
{
    match file {
        File::Domain => b"domain",
        File::Problem => b"problem",
    }
}

/// The name behind the word that tells the file's kind. Refuses only for want of memory.
#[tactic(auto, using(crate::proofs::FoundLemmas::found_both))]
fn read_named(
    alloc: Global,
    file: File,
    whole: Place,
    head: &Tree,
    rest: &[Tree],
) -> Result<Found<Word>, OutOfMemory>
    ensures { IfOk result (λ found. found ≡ found_in (besides (keyword (kind_word file) (node_of head.now))
        (alone name_rule whole (nodes_in rest.now)))) }
{
    let kind = expect(alloc, word_of_kind(file), head);
    Ok(second(kind, read_alone(alloc, &NameForm, whole, rest)?))
}

/// The name of a file. Refuses only for want of memory.
#[tactic(auto, unfolding(mp_forms::specs::Rules::Files::title_rule))]
pub fn read_title(alloc: Global, file: File, tree: &Tree) -> Result<Found<Word>, OutOfMemory>
    ensures { IfOk result (λ found. found ≡ found_in (title_rule (kind_word file) (node_of tree.now))) }
{
    match members(tree) {
        [] => Ok(shape_fault(alloc, place(tree))),
        [head, rest @ ..] => read_named(alloc, file, place(tree), head, rest),
    }
}
