//! Which factors have a name.

use crate::declared::Declared;
use mp_list::OutOfMemory;
use std::alloc::Global;
use std::collections::HashMap;

/// Which factors declare a name.
#[derive(Clone, Copy)]
pub struct Sharing<'a> {
    /// The first public declaration.
    pub public: Option<Declared<'a>>,
    /// A bit for each factor that declares it, whether as a public name or as a private one.
    pub factors: u64,
}

/// For each name which factors declare it.
pub type SharingMap<'a> = HashMap<&'a [u8], Sharing<'a>>;

/// The bit of the factor at a place.
pub fn bit_of(agent: usize) -> u64 {
    if agent < 64 { 1 << agent } else { 0 }
}

/// The first public declaration, where one more is known.
fn first_public<'a>(known: Option<Declared<'a>>, one: Declared<'a>) -> Option<Declared<'a>> {
    if known.is_some() || one.private {
        return known;
    }
    Some(one)
}

/// What is known of a name.
fn known_of<'a>(map: &SharingMap<'a>, name: &[u8]) -> Sharing<'a> {
    match map.get(name) {
        Some(sharing) => *sharing,
        None => Sharing {
            public: None,
            factors: 0,
        },
    }
}

/// Adds a declaration.
fn add<'a>(map: &mut SharingMap<'a>, one: Declared<'a>) -> Result<(), OutOfMemory> {
    let name = one.word.name.as_slice();
    let known = known_of(map, name);
    let sharing = Sharing {
        public: first_public(known.public, one),
        factors: known.factors | bit_of(one.agent),
    };
    map.insert(name, sharing)?;
    Ok(())
}

/// For each declared name which factors declare it.
pub fn sharing_of<'a>(alloc: Global, all: &[Declared<'a>]) -> Result<SharingMap<'a>, OutOfMemory> {
    let mut map = HashMap::new(alloc);
    for one in all {
        add(&mut map, *one)?;
    }
    Ok(map)
}
