//! The strings of a store, in any order.
ghost use Rattle.std.specs.Iterator.{YieldsFirstBy, item_count};
ghost use Rattle.node_store.specs.Strings.{string_of};

use crate::key::DigestKey;
use crate::pool::{Slot, borrow_string};
use crate::strings::Tagged;
use std::collections::hash_map::Values;
use std::marker::Model;

/// Gives the strings of a store, each once, in any order.
///
/// Contracts see the list of the remaining strings. Entries are borrowed from the store, and nothing is copied.
#[derive(Drop)]
pub struct Iter<'a> {
    left: Values<'a, DigestKey, Slot>,
    pool: &'a [u8],
}

impl<'a> Model for Iter<'a> {
    ghost use Rattle.std.specs.Prelude.{ℕ, List};

    ghost Value = { List (List ℕ) };

    ghost use Rattle.node_store.specs.Slots.{held_strings, AllWithin};

    ghost view = { λ a. held_strings a.pool.now a.left };

    ghost invariant = { λ a. AllWithin a.pool.now a.left };
}

impl<'a> Iter<'a> {
    ghost use Rattle.std.specs.Prelude.{◌≡◌};
    ghost use Rattle.node_store.specs.Slots.{held_strings, AllWithin};

    // The strings of the remaining slots, all of them within the pool.
    pub(crate) fn new(left: Values<'a, DigestKey, Slot>, pool: &'a [u8]) -> Self
        requires { AllWithin pool.now left }
        ensures { result ≡ held_strings pool.now left.entry }
    {
        Iter { left, pool }
    }
}

impl<'a> Iterator for Iter<'a> {
    type Item = Tagged<'a>;

    ghost next_gives = { YieldsFirstBy string_of (λ left. left) };

    ghost remaining = { item_count (λ left. left) };

    fn next(&mut self) -> Option<Tagged<'a>> {
        match self.left.next() {
            Some(slot) => Some(borrow_string(slot, self.pool)),
            None => None,
        }
    }
}
