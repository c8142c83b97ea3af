//! The table.

ghost use Rattle.std.specs.Prelude.{◌≡◌, ℕ, List, None, Some, OnOk, OnErr, cond, true, false};
ghost use Rattle.std.specs.Prelude.{option_copied};
ghost use Rattle.std.specs.Str.{bytes_eq};
ghost use Rattle.fm_names.specs.Named.{named, first_at, chosen, is_free};

use crate::bytes::key;
use std::alloc::{AllocError, Global};
use std::collections::BTreeMap;

/// The first name of its key, and what it stands for.
#[derive(Drop)]
struct First<'s, V> {
    text: &'s [u8],
    value: V,
}

/// What each name stands for. The names are slices of one source.
#[derive(Drop)]
pub struct Names<'s, V> {
    /// By key, which few names share.
    firsts: BTreeMap<u64, First<'s, V>>,
    /// The names whose key is another's.
    others: BTreeMap<&'s [u8], V>,
}

// What a name stands for by what is kept at its key, or else by the other answer.
fn choose<'v, V>(name: &[u8], first: Option<&'v First<V>>, other: Option<&'v V>) -> Option<&'v V>
    ensures { option_copied result
        ≡ chosen name.now (option_copied first.entry) (option_copied other.entry) }
{
    match first {
        None => other,
        Some(first) => {
            if first.text == name {
                Some(&first.value)
            } else {
                other
            }
        }
    }
}

// Whether a key is free for a name.
fn admits<V>(name: &[u8], first: Option<&First<V>>) -> bool
    ensures { result ≡ is_free name.now (option_copied first.entry) }
{
    match first {
        None => true,
        Some(first) => first.text == name,
    }
}

impl<'s, V: Drop> Names<'s, V> {
    /// A table without names.
    #[tactic(auto, unfolding(crate::specs::Named::named))]
    pub fn new(alloc: Global) -> Self
        ensures { (name : List ℕ) → named result name ≡ None }
    {
        Names {
            firsts: BTreeMap::new(alloc),
            others: BTreeMap::new(alloc),
        }
    }

    // What is kept at the key of a name.
    fn first(&self, name: &[u8]) -> Option<&First<'s, V>>
        ensures { option_copied result ≡ first_at self.now name.now }
    {
        let number = key(name);
        self.firsts.get(&number)
    }

    // Whether the key of a name is free for it.
    fn has_room(&self, name: &[u8]) -> bool
        ensures { result ≡ is_free name.now (first_at self.now name.now) }
    {
        admits(name, self.first(name))
    }

    // Defines a name at its key.
    #[tactic(auto, unfolding(crate::specs::Named::named))]
    fn define_first(&mut self, name: &'s [u8], value: V) -> Result<(), AllocError>
        requires { is_free name.now (first_at self.old name.now) ≡ true }
        ensures ok { OnOk result ((other : List ℕ)
            → named self.new other
            ≡ cond (bytes_eq other name.now) (Some value) (named self.old other)) }
        ensures err { OnErr result ((other : List ℕ)
            → named self.new other ≡ named self.old other) }
    {
        let number = key(name);
        self.firsts.insert(number, First { text: name, value })?;
        Ok(())
    }

    // Defines a name whose key is another's.
    #[tactic(auto, unfolding(crate::specs::Named::named))]
    fn define_other(&mut self, name: &'s [u8], value: V) -> Result<(), AllocError>
        requires { is_free name.now (first_at self.old name.now) ≡ false }
        ensures ok { OnOk result ((other : List ℕ)
            → named self.new other
            ≡ cond (bytes_eq other name.now) (Some value) (named self.old other)) }
        ensures err { OnErr result ((other : List ℕ)
            → named self.new other ≡ named self.old other) }
    {
        self.others.insert(name, value)?;
        Ok(())
    }

    /// Lets the name stand for a value from here on. After an error the table is as it was.
    pub fn define(&mut self, name: &'s [u8], value: V) -> Result<(), AllocError>
        ensures ok { OnOk result ((other : List ℕ)
            → named self.new other
            ≡ cond (bytes_eq other name.now) (Some value) (named self.old other)) }
        ensures err { OnErr result ((other : List ℕ)
            → named self.new other ≡ named self.old other) }
    {
        if self.has_room(name) {
            self.define_first(name, value)
        } else {
            self.define_other(name, value)
        }
    }

    /// What the name stands for, where it was defined.
    pub fn get(&self, name: &[u8]) -> Option<&V>
        ensures { option_copied result ≡ named self.now name.now }
    {
        choose(name, self.first(name), self.others.get(name))
    }
}
