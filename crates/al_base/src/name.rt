// Names of units and of files.
ghost use Rattle.std.specs.Prelude.{◌≡◌, ◌≤◌, IfOk, length, map, nat_eq, refl, take};
ghost use Rattle.std.specs.Char.{to_ascii_lowercase};
ghost use Rattle.std.proofs.Common.{rules};
ghost use Rattle.std.specs.Cmp.{partial_order_from_own_ties};
ghost use Rattle.std.specs.Cmp.Lexicographic.{pointwise, slice_cmp};
ghost use Rattle.std.specs.Cmp.Rules.{comparing, hashing};
ghost use Rattle.std.specs.Hash as fed;
ghost use Rattle.std.specs.Ordering.{as_partial_cmp, nat_cmp};
ghost use Rattle.al_base.specs.NameBytes.{bytes_model, AreShort};

use crate::bytes::{order_of_bytes, same_bytes};
use crate::refusal::NoMemory;
use std::alloc::Global;
use std::cmp::Ordering;
use std::hash::{Hash, Hasher};
use std::marker::Model;

/// The most bytes of a name that are kept in the value itself: nearly all names are no longer, and take no memory of their own.
const MOST_SHORT: usize = 22;

enum NameBytes {
    /// A short name: the first so many of the bytes.
    Short(u8, [u8; 22]),
    Long(Vec<u8>),
}

impl Drop for NameBytes {
    fn drop(self) {
        match self {
            NameBytes::Short(_, _) => {}
            NameBytes::Long(_) => {}
        }
    }
}

impl NameBytes {
    fn into_vec(self, alloc: Global) -> Result<Vec<u8>, NoMemory>
        requires { AreShort self }
        ensures { IfOk result (λ bytes. bytes.items ≡ bytes_model self) }
    {
        match self {
            NameBytes::Short(count, bytes) => {
                Ok(Vec::from_slice(alloc, &bytes[..usize::from(count)])?)
            }
            NameBytes::Long(bytes) => Ok(bytes),
        }
    }
}

/// The bytes of a name: a unit's in lower case, with dots between its identifiers, or a file's.
pub struct Name {
    bytes: NameBytes,
}

impl Drop for Name {
    fn drop(self) {
        let Name { bytes: _ } = self;
    }
}

impl Model for Name {
    ghost use Rattle.std.specs.Prelude.{ℕ, List};
    ghost use Rattle.al_base.specs.NameBytes.{bytes_model, AreShort};

    ghost Value = { List ℕ };

    ghost view = { λ n. bytes_model n.bytes };

    ghost invariant = { λ n. AreShort n.bytes };
}

impl Name {
    /// The name of these bytes. It takes no memory, and gives back that of a short one.
    pub fn new(bytes: Vec<u8>) -> Self
        ensures { result ≡ bytes.items }
    {
        let bytes = if bytes.len() <= MOST_SHORT {
            NameBytes::Short(bytes.len() as u8, short(bytes.as_slice()))
        } else {
            NameBytes::Long(bytes)
        };
        Name { bytes }
    }

    /// A name with a copy of these bytes.
    ///
    /// # Errors
    ///
    /// `NoMemory` if the allocator refuses memory.
    pub fn from_slice(alloc: Global, bytes: &[u8]) -> Result<Self, NoMemory>
        ensures { IfOk result (λ name. name ≡ bytes.now) }
    {
        let bytes = if bytes.len() <= MOST_SHORT {
            NameBytes::Short(bytes.len() as u8, short(bytes))
        } else {
            NameBytes::Long(Vec::from_slice(alloc, bytes)?)
        };
        Ok(Name { bytes })
    }

    /// A copy of the name.
    ///
    /// # Errors
    ///
    /// `NoMemory` if the allocator refuses memory.
    pub fn copy(&self, alloc: Global) -> Result<Self, NoMemory>
        ensures { IfOk result (λ copy. copy ≡ self.now) }
    {
        let bytes = match &self.bytes {
            NameBytes::Short(count, bytes) => NameBytes::Short(*count, *bytes),
            NameBytes::Long(bytes) => NameBytes::Long(Vec::from_slice(alloc, bytes.as_slice())?),
        };
        Ok(Name { bytes })
    }

    /// The bytes of the name.
    pub fn as_slice(&self) -> &[u8]
        ensures { result.now ≡ self.now }
    {
        match &self.bytes {
            NameBytes::Short(count, bytes) => &bytes[..usize::from(*count)],
            NameBytes::Long(bytes) => bytes.as_slice(),
        }
    }

    /// Gives the bytes back. A name of at most 22 bytes may take memory for them.
    ///
    /// # Errors
    ///
    /// `NoMemory` if the allocator refuses memory.
    pub fn into_vec(self, alloc: Global) -> Result<Vec<u8>, NoMemory>
        ensures { IfOk result (λ bytes. bytes.items ≡ self) }
    {
        let Name { bytes } = self;
        bytes.into_vec(alloc)
    }
}

/// The word in lower case, in which names are kept (ARM 2.3: identifiers that differ only in case are the same).
///
/// # Errors
///
/// `NoMemory` if the allocator refuses memory.
pub fn folded(alloc: Global, word: &[u8]) -> Result<Name, NoMemory>
    ensures { IfOk result (λ name. name ≡ map to_ascii_lowercase word.now) }
{
    let bytes = if word.len() <= MOST_SHORT {
        NameBytes::Short(word.len() as u8, short_folded(word))
    } else {
        NameBytes::Long(word.to_ascii_lowercase(alloc)?)
    };
    Ok(Name { bytes })
}

/// The bytes, and zeros after them.
fn short(name: &[u8]) -> [u8; 22]
    requires { length name.now ≤ 22 }
    ensures { take (length name.now) result ≡ name.now }
{
    let mut bytes = [0; 22];
    bytes[..name.len()].copy_from_slice(name);
    bytes
}

/// The bytes in lower case, and zeros after them.
fn short_folded(word: &[u8]) -> [u8; 22]
    requires { length word.now ≤ 22 }
    ensures { take (length word.now) result ≡ map to_ascii_lowercase word.now }
{
    let mut bytes = [0; 22];
    for i in 0..word.len() {
        bytes[i] = word[i].to_ascii_lowercase();
    }
    bytes
}

impl PartialEq for Name {
    ghost eq = { pointwise nat_eq };

    ghost laws = { Prim.search (comparing, rules) };

    fn eq(&self, other: &Name) -> bool {
        same_bytes(self.as_slice(), other.as_slice())
    }
}

impl Eq for Name {
    ghost laws = { Prim.search (comparing, rules) };
}

/// Names are ordered by the first byte in which they differ; a prefix comes before the longer name.
impl Ord for Name {
    ghost cmp = { slice_cmp nat_cmp };

    ghost total = { Prim.search (comparing, rules) };

    ghost matches_partial_cmp = { λ x y. refl };

    ghost matches_eq = { Prim.search (comparing, rules) };

    fn cmp(&self, other: &Name) -> Ordering {
        order_of_bytes(self.as_slice(), other.as_slice())
    }
}

impl PartialOrd for Name {
    ghost partial_cmp = { as_partial_cmp (slice_cmp nat_cmp) };

    ghost laws = { partial_order_from_own_ties (Prim.search (comparing, rules)) (Prim.search (comparing, rules)) };

    fn partial_cmp(&self, other: &Name) -> Option<Ordering> {
        Some(self.cmp(other))
    }
}

impl Hash for Name {
    ghost hash_input = { fed.slice fed.u8 };

    ghost respects_eq = { Prim.search (hashing, rules) };

    fn hash<H: Hasher>(&self, state: &mut H) {
        self.as_slice().hash(state);
    }
}
