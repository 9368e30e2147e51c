//! The lists that stand open while a text is read, and what their brackets and words do to them.

ghost use Rattle.std.specs.Prelude.{◌≡◌, [], Ok, IfOk, IfErr, OnOk, ◌++◌, ◌∷◌};
ghost use Rattle.mp_sexp.specs.Bytes.{folded};
ghost use Rattle.mp_sexp.specs.Node.{node_of, nodes_in, nodes_from, list, word};
ghost use Rattle.mp_sexp.specs.Reading.{Gives, Fails, state_of, levels_in, opened, closed, misplaced, only_list};

use crate::name::Name;
use crate::refusal::ReadRefusal;
use crate::tree::{Place, Tree, TreeList};
use std::alloc::Global;
use std::mem;

/// A list that stands open around another.
#[derive(Drop)]
pub struct OpenList {
    /// Its members before the inner list.
    pub members: Vec<Tree>,
    /// Where the inner list begins.
    pub inner: Place,
}

/// What is read so far. The text itself counts as the outermost list.
#[derive(Drop)]
pub struct Lists {
    /// The members of the list that is being read.
    pub members: Vec<Tree>,
    /// The lists around it, the outermost first.
    pub around: Vec<OpenList>,
    /// Room in which the members of an earlier list were gathered.
    pub spare: Vec<Tree>,
}

/// The deepest brackets that may stand open.
const DEEPEST: usize = 100;

/// From this many members on a list keeps the memory in which its members were gathered.
const MANY: usize = 1024;

/// A list of these members.
fn list_tree(members: Vec<Tree>, place: Place) -> Tree
    ensures { node_of result ≡ list (nodes_from (nodes_in members.items)) place }
{
    Tree::List(TreeList { items: members }, place)
}

/// The fault of what is neither in brackets nor opens one.
pub fn refuse_misplaced(members: &[Tree], place: Place) -> ReadRefusal
    ensures { result ≡ misplaced (nodes_in members.now) place }
{
    match members {
        [] => ReadRefusal::Unbalanced(place),
        [_, ..] => ReadRefusal::Trailing(place),
    }
}

/// The room for another list, which is empty.
fn taken(alloc: Global, spare: &mut Vec<Tree>) -> Vec<Tree>
    ensures { result.items ≡ [] }
{
    let mut room = mem::replace(spare, Vec::new(alloc));
    room.clear();
    room
}

/// The members, in a list that has room for no more. Few are moved to memory of that size, so that the room in which
/// they were gathered serves for the next list. Many stay where they are, and what is left of the room is given back:
/// else there would be two lists of them at one time.
fn gathered(alloc: Global, members: &mut Vec<Tree>) -> Result<Vec<Tree>, ReadRefusal>
    ensures ok { IfOk result (λ v. v.items ≡ members.old.items) }
    ensures err { IfErr result (λ e. e ≡ ReadRefusal.OutOfMemory) }
{
    if members.len() >= MANY {
        let mut whole = mem::replace(members, Vec::new(alloc));
        whole.shrink_to_fit();
        return Ok(whole);
    }
    let mut exact = Vec::with_capacity(alloc, members.len())?;
    exact.append(members)?;
    Ok(exact)
}

impl Lists {
    /// Nothing is read yet.
    pub fn new(alloc: Global) -> Lists
        ensures members { result.members.items ≡ [] }
        ensures around { result.around.items ≡ [] }
    {
        Lists {
            members: Vec::new(alloc),
            around: Vec::new(alloc),
            spare: Vec::new(alloc),
        }
    }

    /// A list opens here.
    pub fn open(&mut self, alloc: Global, place: Place) -> Result<(), ReadRefusal>
        ensures ok { OnOk result (opened place (nodes_in self.old.members.items) (levels_in self.old.around.items) ≡ Ok (state_of self.new)) }
        ensures err { IfErr result (λ e. Fails e (opened place (nodes_in self.old.members.items) (levels_in self.old.around.items))) }
    {
        if self.around.is_empty() && !self.members.is_empty() {
            return Err(ReadRefusal::Trailing(place));
        }
        if self.around.len() >= DEEPEST {
            return Err(ReadRefusal::Deep(place));
        }
        let room = taken(alloc, &mut self.spare);
        let members = mem::replace(&mut self.members, room);
        self.around.push(OpenList {
            members,
            inner: place,
        })?;
        Ok(())
    }

    /// The list that is being read closes here.
    pub fn close(&mut self, alloc: Global, place: Place) -> Result<(), ReadRefusal>
        ensures ok { OnOk result (closed place (nodes_in self.old.members.items) (levels_in self.old.around.items) ≡ Ok (state_of self.new)) }
        ensures err { IfErr result (λ e. Fails e (closed place (nodes_in self.old.members.items) (levels_in self.old.around.items))) }
    {
        match self.around.pop() {
            None => Err(refuse_misplaced(self.members.as_slice(), place)),
            Some(open) => {
                let OpenList { members, inner } = open;
                let inside = gathered(alloc, &mut self.members)?;
                self.spare = mem::replace(&mut self.members, members);
                self.members.push(list_tree(inside, inner))?;
                Ok(())
            }
        }
    }

    /// This word stands here, in the list that is being read.
    pub fn add_word(&mut self, alloc: Global, bytes: &[u8], place: Place) -> Result<(), ReadRefusal>
        ensures members { OnOk result (nodes_in self.new.members.items ≡ nodes_in self.old.members.items ++ word (folded bytes.now) place ∷ []) }
        ensures around { OnOk result (levels_in self.new.around.items ≡ levels_in self.old.around.items) }
        ensures err { IfErr result (λ e. e ≡ ReadRefusal.OutOfMemory) }
    {
        let name = Name::folded(alloc, bytes)?;
        self.members.push(Tree::Word(name, place))?;
        Ok(())
    }

    /// The one list that was read, when the text ends at this place.
    pub fn only_tree(self, place: Place) -> Result<Tree, ReadRefusal>
        ensures { Gives node_of result (only_list place (nodes_in self.members.items) (levels_in self.around.items)) }
    {
        let Lists {
            mut members,
            around,
            spare: _,
        } = self;
        if members.len() != 1 || !around.is_empty() {
            return Err(ReadRefusal::Unbalanced(place));
        }
        match members.pop() {
            Some(Tree::List(nodes, begin)) => Ok(Tree::List(nodes, begin)),
            _ => Err(ReadRefusal::Unbalanced(place)),
        }
    }
}
