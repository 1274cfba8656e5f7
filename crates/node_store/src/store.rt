//! The store.
ghost use Rattle.std.specs.Prelude.{◌≡◌, ◌≢◌, ◌↔◌, ℕ, List, [], ◌∷◌, ◌++◌, length, IsTrue, IfSome, IfNone, IfOk, OnOk, OnErr, IsOk};
ghost use Rattle.std.specs.FinSet as set;
ghost use Rattle.std.specs.Map.{values_of};
ghost use Rattle.node_store.specs.Strings.{Strings, string_of, Has, IsHeldAt, IsWithout, Clashes, ClashesWith, NoClash, AllTagged};
ghost use Rattle.node_store.specs.Slots.{AllKeyed};
ghost use Rattle.tlog_hash.specs.Tree.{joined};

use crate::iter::Iter;
use crate::key::DigestKey;
use crate::keyed::KeyedStrings;
use crate::pool::{Slot, borrow_string, keep, make_room};
use crate::strings::{Tagged, digest_of, is_same};
use std::alloc::{AllocError, Global};
use std::collections::HashMap;
use std::fmt;
use std::marker::{Model, PhantomData};
use tlog_hash::{Hash, TreeHash};

/// Why a string was not added. It prints its variant's name.
#[derive(Debug, Drop, PartialEq, Eq, Clone, Copy)]
pub enum AddFault {
    /// Another string with the same digest is held.
    Collision,
    /// Memory was refused.
    OutOfMemory,
}

/// Prints the name of the variant. A derived one takes the checker seconds more.
impl fmt::Display for AddFault {
    fn fmt<W: fmt::Write>(&self, f: &mut fmt::Formatter<W>) -> fmt::Result {
        fmt::Debug::fmt(self, f)
    }
}

impl std::error::Error for AddFault {}

/// A set of tagged strings, in which no two have one digest.
///
/// The digest is that of the `TreeHash` in use, and the strings are `0x00 || entry` and `0x01 || left || right` with
/// hashes of 32 bytes. Contracts see the set, and nothing of the form in which it is kept.
///
/// ```text
/// let mut store: Store<Sha256Tree> = Store::new(alloc);
/// let leaf = store.insert(Tagged::Leaf(b"entry"))?;
/// let root = store.insert(Tagged::Pair(&leaf, &leaf))?;
/// store.pair_of(&root)  // Some((leaf, leaf))
/// ```
//
// The map has the two hashes of a pair, or the place of an entry in the pool, which has the bytes of all entries in one
// piece. So an entry costs no allocation of its own, and is borrowed in place.
#[derive(Drop)]
pub struct Store<H: TreeHash> {
    held: HashMap<DigestKey, Slot>,
    pool: Vec<u8>,
    by: PhantomData<H>,
}

impl<H: TreeHash> Model for Store<H> {
    ghost use Rattle.std.specs.FinSet as set;
    ghost use Rattle.std.specs.Coded.{coded_ℕ, coded_list};
    ghost use Rattle.node_store.specs.Strings.{Strings};

    ghost Value = { Strings };

    ghost coded = { set.code (coded_list coded_ℕ) };

    ghost use Rattle.node_store.specs.Slots.{strings_in, IsByDigest};

    ghost view = { λ a. strings_in a.pool.items a.held.entries };

    ghost invariant = { λ a. IsByDigest H.digest a.pool.items a.held };
}

impl<H: TreeHash> Store<H> {
    /// A store without strings. It takes no memory.
    pub fn new(alloc: Global) -> Self
        ensures { result ≡ set.empty }
    {
        Store {
            held: HashMap::new(alloc),
            pool: Vec::new(alloc),
            by: PhantomData,
        }
    }

    /// A store without strings, with room for that number of strings: adding them moves none of the held ones. The
    /// bytes of entries have no room yet.
    ///
    /// # Errors
    ///
    /// Memory was refused.
    pub fn with_capacity(alloc: Global, strings: usize) -> Result<Self, AllocError>
        ensures { IfOk result (λ store. store ≡ set.empty) }
    {
        let held = HashMap::with_capacity(alloc, strings)?;
        let pool = Vec::new(alloc);
        let by = PhantomData;
        Ok(Self { held, pool, by })
    }

    /// Adds a string. A string that is held already changes nothing, and takes no memory.
    ///
    /// # Errors
    ///
    /// `Collision` exactly if another string with its digest is held, and `OutOfMemory` only if a growth was refused.
    /// After both the set is unchanged.
    pub fn add(&mut self, string: Tagged) -> Result<(), AddFault>
        ensures ok { OnOk result (self.new ≡ set.insert self.old (string_of string.entry)) }
        ensures err { OnErr result (self.new ≡ self.old) }
        ensures collision { (result ≡ Err AddFault.Collision)
            ↔ Clashes H.digest self.old (string_of string.entry) }
        ensures held { Has self.old (string_of string.entry) → IsOk result }
        ensures no_clash { NoClash H.digest self.new }
        ensures tagged { AllTagged self.new }
    {
        self.add_at(&digest_of::<H>(string), string)
    }

    /// Adds a string like `add`, and gives its digest, which finds it again. So a tree can be built from its leaves up,
    /// and each of its strings is hashed once.
    ///
    /// # Errors
    ///
    /// Those of `add`. The set is then unchanged.
    pub fn insert(&mut self, string: Tagged) -> Result<Hash, AddFault>
        ensures digest { IfOk result (λ hash. hash ≡ H.digest (string_of string.entry)) }
        ensures ok { OnOk result (self.new ≡ set.insert self.old (string_of string.entry)) }
        ensures err { OnErr result (self.new ≡ self.old) }
        ensures collision { (result ≡ Err AddFault.Collision)
            ↔ Clashes H.digest self.old (string_of string.entry) }
        ensures held { Has self.old (string_of string.entry) → IsOk result }
        ensures no_clash { NoClash H.digest self.new }
        ensures tagged { AllTagged self.new }
    {
        let digest = digest_of::<H>(string);
        match self.add_at(&digest, string) {
            Ok(()) => Ok(digest),
            Err(fault) => Err(fault),
        }
    }

    /// Adds a string like `insert`. If the string is new, it notes the digest at the end of `added`. So `take_out` of
    /// all the noted digests gives back the earlier set.
    ///
    /// ```text
    /// let mut added = Vec::new(alloc);
    /// store.insert_noted(Tagged::Leaf(b"a"), &mut added)?;
    /// store.take_out(&added); // the store is as before
    /// ```
    ///
    /// # Errors
    ///
    /// Those of `add`. The set is then unchanged.
    pub fn insert_noted(&mut self, string: Tagged, added: &mut Vec<Hash>) -> Result<Hash, AddFault>
        ensures digest { IfOk result (λ hash. hash ≡ H.digest (string_of string.entry)) }
        ensures ok { OnOk result (self.new ≡ set.insert self.old (string_of string.entry)) }
        ensures err { OnErr result (self.new ≡ self.old) }
        ensures collision { (result ≡ Err AddFault.Collision)
            ↔ Clashes H.digest self.old (string_of string.entry) }
        ensures noted { (before : Strings) → IsWithout H.digest self.old added.old.items before
            → IsWithout H.digest self.new added.new.items before }
        ensures no_clash { NoClash H.digest self.new }
        ensures tagged { AllTagged self.new }
    {
        let digest = digest_of::<H>(string);
        match self.add_noted(&digest, string, added) {
            Ok(()) => Ok(digest),
            Err(fault) => Err(fault),
        }
    }

    // Adds the string with that digest, and notes the digest if the string is new.
    fn add_noted(
        &mut self,
        digest: &Hash,
        string: Tagged,
        added: &mut Vec<Hash>,
    ) -> Result<(), AddFault>
        requires { digest.now ≡ H.digest (string_of string) }
        ensures ok { OnOk result (self.new ≡ set.insert self.old (string_of string.entry)) }
        ensures err { OnErr result (self.new ≡ self.old) }
        ensures collision { (result ≡ Err AddFault.Collision)
            ↔ Clashes H.digest self.old (string_of string.entry) }
        ensures noted { (before : Strings) → IsWithout H.digest self.old added.old.items before
            → IsWithout H.digest self.new added.new.items before }
        ensures no_clash { NoClash H.digest self.new }
        ensures tagged { AllTagged self.new }
    {
        match self.find(digest) {
            Some(held) => {
                if !is_same(held, string) {
                    return Err(AddFault::Collision);
                }
                Ok(())
            }
            None => {
                let Ok(()) = added.push(*digest) else {
                    return Err(AddFault::OutOfMemory);
                };
                self.add_new(digest, string)
            }
        }
    }

    /// Removes the strings with these digests that are held. It takes no memory.
    pub fn take_out(&mut self, digests: &[Hash])
        ensures rest { IsWithout H.digest self.old digests.now self.new }
        ensures no_clash { NoClash H.digest self.new }
        ensures tagged { AllTagged self.new }
    {
        // The call is for its contract, which is needed also if there is no digest.
        let _own = self.keyed();
        for digest in digests {
            self.take_one(digest);
        }
    }

    // Removes the string with that digest, if it is held. The pool keeps the bytes of an entry.
    fn take_one(&mut self, digest: &Hash)
        ensures { IsWithout H.digest self.old (digest.now ∷ []) self.new }
    {
        let _ = self.held.remove(&DigestKey::new(digest));
    }

    // Adds the string with that digest.
    fn add_at(&mut self, digest: &Hash, string: Tagged) -> Result<(), AddFault>
        requires { digest.now ≡ H.digest (string_of string) }
        ensures ok { OnOk result (self.new ≡ set.insert self.old (string_of string.entry)) }
        ensures err { OnErr result (self.new ≡ self.old) }
        ensures collision { (result ≡ Err AddFault.Collision)
            ↔ Clashes H.digest self.old (string_of string.entry) }
        ensures held { Has self.old (string_of string.entry) → IsOk result }
        ensures no_clash { NoClash H.digest self.new }
        ensures tagged { AllTagged self.new }
    {
        match self.find(digest) {
            Some(held) => {
                if is_same(held, string) {
                    Ok(())
                } else {
                    Err(AddFault::Collision)
                }
            }
            None => self.add_new(digest, string),
        }
    }

    // Adds a string whose digest is new. All growth comes before any change.
    fn add_new(&mut self, digest: &Hash, string: Tagged) -> Result<(), AddFault>
        requires digest { digest.now ≡ H.digest (string_of string) }
        requires new { (s : List ℕ) → Has self.old s → H.digest s ≢ digest.now }
        ensures ok { OnOk result (self.new ≡ set.insert self.old (string_of string.entry)) }
        ensures err { OnErr result (self.new ≡ self.old) }
        ensures memory { result ≢ Err AddFault.Collision }
        ensures no_clash { NoClash H.digest self.new }
        ensures tagged { AllTagged self.new }
    {
        let Ok(()) = make_room(&mut self.held, &mut self.pool, string) else {
            return Err(AddFault::OutOfMemory);
        };
        let held = keep(&mut self.pool, string);
        let Ok(_) = self.held.insert(DigestKey::new(digest), held) else {
            unreachable!()
        };
        Ok(())
    }

    /// Whether another string with its digest is held, so that `add` would refuse it. It takes no memory.
    pub fn clashes(&self, string: Tagged) -> bool
        ensures { IsTrue result ↔ Clashes H.digest self.now (string_of string.entry) }
    {
        self.clashes_at(&digest_of::<H>(string), string)
    }

    /// Whether the string is held. It takes no memory.
    pub fn holds(&self, string: Tagged) -> bool
        ensures { IsTrue result ↔ Has self.now (string_of string.entry) }
    {
        match self.find(&digest_of::<H>(string)) {
            Some(held) => is_same(held, string),
            None => false,
        }
    }

    /// The two hashes of the held pair with that digest. `None` exactly if no such pair is held. It takes no memory.
    pub fn pair_of(&self, hash: &Hash) -> Option<(Hash, Hash)>
        ensures some { IfSome result (λ p. IsHeldAt H.digest self.now hash.now (joined p)) }
        ensures none { IfNone result ((l r : List ℕ) → ¬ IsHeldAt H.digest self.now hash.now
            (1 ∷ l ++ r)) }
        ensures no_clash { NoClash H.digest self.now }
    {
        match self.find(hash) {
            Some(Tagged::Pair(left, right)) => Some((*left, *right)),
            _ => None,
        }
    }

    /// The held entry with that digest. `None` exactly if no such entry is held. It is borrowed from the store, without
    /// a copy, and takes no memory.
    pub fn entry_of(&self, hash: &Hash) -> Option<&[u8]>
        ensures some { IfSome result (λ e. IsHeldAt H.digest self.now hash.now (0 ∷ e.now)) }
        ensures none { IfNone result ((e : List ℕ) → ¬ IsHeldAt H.digest self.now hash.now
            (0 ∷ e)) }
        ensures no_clash { NoClash H.digest self.now }
    {
        match self.find(hash) {
            Some(Tagged::Leaf(entry)) => Some(entry),
            _ => None,
        }
    }

    /// The number of held strings. It takes no memory.
    pub fn len(&self) -> usize
        ensures { result ≡ set.len self.now }
    {
        self.held.len()
    }

    /// The held strings, each once, in any order. They are borrowed from the store, without a copy, and take no memory.
    pub fn iter(&self) -> Iter<'_>
        ensures all { set.from_list result ≡ self.now }
        ensures once { length result ≡ set.len self.now }
        ensures tagged { AllTagged self.now }
        ensures no_clash { NoClash H.digest self.now }
    {
        Iter::new(self.held.values(), self.pool.as_slice())
    }

    /// Adds all strings of another store, if none of them collides. It hashes nothing.
    ///
    /// # Errors
    ///
    /// `Collision` exactly if a string of one set and a different string of the other have one digest. The set is then
    /// unchanged, and no memory was requested. `OutOfMemory` only if a growth was refused. The set then has all its
    /// earlier strings, and some strings of the other store may be added.
    pub fn add_all(&mut self, other: &Store<H>) -> Result<(), AddFault>
        ensures ok { OnOk result (self.new ≡ set.union self.old other.now) }
        ensures collision { (result ≡ Err AddFault.Collision) ↔ ClashesWith H.digest self.old
            other.now }
        ensures kept { result ≡ Err AddFault.Collision → self.new ≡ self.old }
        ensures at_least { (s : List ℕ) → Has self.old s → Has self.new s }
        ensures at_most { (s : List ℕ) → Has self.new s → Has (set.union self.old other.now) s }
        ensures no_clash { NoClash H.digest self.new }
        ensures tagged { AllTagged self.new }
    {
        if self.clashes_with(other) {
            return Err(AddFault::Collision);
        }
        self.add_each(other)
    }

    // Whether a string of the other store collides with a held one.
    fn clashes_with(&self, other: &Store<H>) -> bool
        ensures clashes { IsTrue result ↔ ClashesWith H.digest self.now other.now }
        ensures no_clash { NoClash H.digest self.now }
        ensures tagged { AllTagged self.now }
    {
        // The call is for its contract about this store, which is needed also if the other store is empty.
        let _own = self.keyed();
        for (digest, string) in other.keyed() {
            if self.clashes_at(digest, string) {
                return true;
            }
        }
        false
    }

    // Adds all strings of another store; none of them collides.
    fn add_each(&mut self, other: &Store<H>) -> Result<(), AddFault>
        requires apart { ¬ ClashesWith H.digest self.old other.now }
        requires no_clash { NoClash H.digest self.old }
        requires tagged { AllTagged self.old }
        ensures ok { OnOk result (self.new ≡ set.union self.old other.now) }
        ensures memory { result ≢ Err AddFault.Collision }
        ensures at_least { (s : List ℕ) → Has self.old s → Has self.new s }
        ensures at_most { (s : List ℕ) → Has self.new s → Has (set.union self.old other.now) s }
        ensures no_clash { NoClash H.digest self.new }
        ensures tagged { AllTagged self.new }
    {
        for (digest, string) in other.keyed() {
            match self.add_at(digest, string) {
                Ok(()) => {}
                Err(fault) => return Err(fault),
            }
        }
        Ok(())
    }

    // Whether another string with that digest, which is the string's own, is held.
    fn clashes_at(&self, digest: &Hash, string: Tagged) -> bool
        requires { digest.now ≡ H.digest (string_of string) }
        ensures { IsTrue result ↔ Clashes H.digest self.now (string_of string.entry) }
    {
        match self.find(digest) {
            Some(held) => !is_same(held, string),
            None => false,
        }
    }

    // The held strings, each with its digest.
    fn keyed(&self) -> KeyedStrings<'_>
        ensures all { set.from_list (values_of result) ≡ self.now }
        ensures digests { AllKeyed H.digest result }
        ensures tagged { AllTagged self.now }
        ensures no_clash { NoClash H.digest self.now }
    {
        KeyedStrings::new(self.held.iter(), self.pool.as_slice())
    }

    // Finds the held string with that digest.
    fn find(&self, digest: &Hash) -> Option<Tagged<'_>>
        ensures some { IfSome result (λ s. IsHeldAt H.digest self.now digest.now (string_of s)) }
        ensures none { IfNone result ((s : List ℕ) → ¬ IsHeldAt H.digest self.now digest.now s) }
        ensures no_clash { NoClash H.digest self.now }
        ensures tagged { AllTagged self.now }
    {
        match self.held.get(&DigestKey::new(digest)) {
            Some(slot) => Some(borrow_string(slot, self.pool.as_slice())),
            None => None,
        }
    }
}
