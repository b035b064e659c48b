//! The numbers that a word does not have.

ghost use Rattle.std.specs.Prelude.{◌≡◌, ℕ, ◌<◌, ◌≤◌, ◌↔◌, ◌⊎◌, length, IfOk, IsTrue, Contains, OnErr, MatchOption};
ghost use Rattle.std.specs.Arc.{arc_value};
ghost use Rattle.sf_dom.specs.Known.{Has};
ghost use Rattle.sf_dom.specs.Reading.{numbers_at};
ghost use Rattle.sf_dom.specs.Propagation.{AddsNumber};
ghost use Rattle.sf_dom.specs.Ascending.{shared_numbers};

use crate::fault::Fault;
use crate::nodes::WORDS;
use crate::numbers::{Lookup, Numbers};
use std::alloc::Global;
use std::marker::Model;
use std::sync::Arc;

/// The numbers that a word does not have. Copies share them, until one of them gets another number. Where there are
/// none, nothing is allocated.
#[derive(Drop)]
pub(crate) struct Exclusions {
    numbers: Option<Arc<Numbers>>,
}

impl Model for Exclusions {
    ghost use Rattle.std.specs.Prelude.{ℕ};

    ghost Value = { ℕ };

    ghost use Rattle.sf_dom.specs.Ascending.{shared_numbers};

    ghost view = { λ e. shared_numbers e.numbers };
}

impl Default for Exclusions {
    ghost is_default = { λ e. e ≡ 0 };

    fn default() -> Self {
        Exclusions { numbers: None }
    }
}

/// Whether each of the numbers is among the others.
fn are_among(numbers: &[u32], others: &Exclusions) -> bool
    ensures { IsTrue result ↔ ((n : ℕ) → Contains numbers.now n → Has others.now n) }
{
    for place in 0..numbers.len() {
        if !others.has(numbers[place]) {
            return false;
        }
    }
    true
}

/// Whether each of the older and of the newer numbers is among the others.
fn are_both_among(numbers: &Numbers, others: &Exclusions) -> bool
    ensures { IsTrue result ↔ ((n : ℕ) → Has numbers.now n → Has others.now n) }
{
    let (older, newer) = numbers.lists();
    are_among(older, others) && are_among(newer, others)
}

/// The numbers of a list with one more.
fn with_number(alloc: Global, numbers: &Option<Arc<Numbers>>, number: u32) -> Result<Numbers, Fault>
    ensures { IfOk result (λ v. (n : ℕ) → Has v n
        ↔ (Has (shared_numbers numbers.now) n ⊎ (n ≡ number))) }
{
    match numbers {
        Some(list) => list.with_number(alloc, number),
        None => Numbers::of(alloc, number),
    }
}

impl Exclusions {
    pub(crate) fn lookup(&self) -> Lookup<'_>
        ensures { result ≡ self.now }
    {
        match &self.numbers {
            Some(numbers) => numbers.lookup(),
            None => Lookup::new(&[], &[]),
        }
    }

    pub(crate) fn has(&self, number: u32) -> bool
        ensures { IsTrue result ↔ Has self.now number }
    {
        let mut numbers = self.lookup();
        numbers.has(number)
    }

    fn copy(&self) -> Result<Exclusions, Fault>
        ensures { IfOk result (λ e. e ≡ self.now) }
    {
        match &self.numbers {
            Some(list) => Ok(Exclusions {
                numbers: Some(list.clone()?),
            }),
            None => Ok(Exclusions::default()),
        }
    }

    /// The numbers with one more; `None` where it is among them already.
    fn with_number(&self, alloc: Global, number: u32) -> Result<Option<Exclusions>, Fault>
        ensures { IfOk result (λ o. MatchOption o
            (Has self.now number)
            (λ e. (n : ℕ) → Has e n ↔ (Has self.now n ⊎ (n ≡ number)))) }
    {
        if self.has(number) {
            return Ok(None);
        }
        let more = with_number(alloc, &self.numbers, number)?;
        Ok(Some(Exclusions {
            numbers: Some(Arc::new(alloc, more)?),
        }))
    }

    /// Whether each of these numbers is among the others.
    fn is_among(&self, others: &Exclusions) -> bool
        ensures { IsTrue result ↔ ((n : ℕ) → Has self.now n → Has others.now n) }
    {
        match &self.numbers {
            Some(numbers) => are_both_among(numbers, others),
            None => true,
        }
    }

    /// Whether both have the same numbers.
    pub(crate) fn is_same(&self, other: &Exclusions) -> bool
        ensures { IsTrue result ↔ (self.now ≡ other.now) }
    {
        self.is_among(other) && other.is_among(self)
    }
}

/// A list for each word.
type Lists = [Exclusions; WORDS];

/// A list without numbers for each word.
fn no_exclusions() -> Lists
    ensures count { length result ≡ 16 }
    ensures none { (w : ℕ) → numbers_at result w ≡ 0 }
{
    Lists::default()
}

/// Writes copies of the lists over `copies`, in place, since it takes long to move the array.
fn copy_all(lists: &Lists, copies: &mut Lists) -> Result<(), Fault>
    requires { length copies.old ≡ 16 }
    ensures { IfOk result (λ _. copies.new ≡ lists.now) }
{
    for word in 0..WORDS {
        copies[word] = lists[word].copy()?;
    }
    Ok(())
}

/// Whether each word has the same numbers in both.
fn are_same_lists(lists: &Lists, others: &Lists) -> bool
    requires lists { length lists.now ≡ 16 }
    requires others { length others.now ≡ 16 }
    ensures { IsTrue result ↔ (lists.now ≡ others.now) }
{
    for word in 0..WORDS {
        if !lists[word].is_same(&others[word]) {
            return false;
        }
    }
    true
}

/// The numbers that each of the sixteen words does not have. Copies share all lists, until a word gets another number.
#[derive(Drop)]
pub(crate) struct Excluded {
    lists: Arc<Lists>,
}

impl Model for Excluded {
    ghost use Rattle.std.specs.Prelude.{◌≡◌, List, ℕ, length};
    ghost use Rattle.std.specs.Arc.{arc_value};

    ghost Value = { List ℕ };

    ghost view = { λ e. arc_value e.lists };

    ghost invariant = { λ e. length (arc_value e.lists) ≡ 16 };
}

impl Excluded {
    fn of(alloc: Global, lists: Lists) -> Result<Excluded, Fault>
        ensures { IfOk result (λ e. e ≡ lists) }
    {
        Ok(Excluded {
            lists: Arc::new(alloc, lists)?,
        })
    }

    /// A list without numbers for each word.
    pub(crate) fn none(alloc: Global) -> Result<Excluded, Fault>
        ensures { IfOk result (λ e. (length e ≡ 16) × ((w : ℕ) → numbers_at e w ≡ 0)) }
    {
        Excluded::of(alloc, no_exclusions())
    }

    /// For the prover: there are sixteen lists.
    fn lists(&self) -> &Lists
        ensures value { result.now ≡ self.now }
        ensures words { length result.now ≡ 16 }
    {
        &self.lists
    }

    pub(crate) fn of_word(&self, word: usize) -> &Exclusions
        requires { word < 16 }
        ensures { result.now ≡ numbers_at self.now word }
    {
        let lists = self.lists();
        &lists[word]
    }

    /// A copy, which shares the lists.
    pub(crate) fn copy(&self) -> Result<Excluded, Fault>
        ensures { IfOk result (λ e. e ≡ self.now) }
    {
        Ok(Excluded {
            lists: self.lists.clone()?,
        })
    }

    /// Adds a number to those of a word.
    pub(crate) fn add(&mut self, alloc: Global, word: usize, number: u32) -> Result<(), Fault>
        requires { word < 16 }
        ensures ok { IfOk result (λ _. AddsNumber self.old self.new word number) }
        ensures err { OnErr result (self.new ≡ self.old) }
    {
        if let Some(list) = self.of_word(word).with_number(alloc, number)? {
            let mut lists = no_exclusions();
            copy_all(self.lists(), &mut lists)?;
            lists[word] = list;
            *self = Excluded::of(alloc, lists)?;
        }
        Ok(())
    }

    /// Whether each word has the same numbers in both.
    pub(crate) fn is_same(&self, other: &Excluded) -> bool
        ensures { IsTrue result ↔ (self.now ≡ other.now) }
    {
        are_same_lists(self.lists(), other.lists())
    }
}
