//! Lists of numbers that a word does not have. Copies share the older numbers, until newer ones are merged into these.

ghost use Rattle.std.specs.Prelude.{◌≡◌, ℕ, ◌<◌, ◌≤◌, ◌↔◌, ◌⊎◌, ◌∷◌, ◌++◌, [], length, slice_index, IfOk, IsTrue, Contains, MatchOption};
ghost use Rattle.std.specs.Arc.{arc_slice_items};
ghost use Rattle.std.specs.List.{insert};
ghost use Rattle.sf_dom.specs.Ascending.{AreAscending, IsFound, set_of, shared_items};
ghost use Rattle.sf_dom.specs.Known.{Has};

use crate::fault::Fault;
use std::alloc::Global;
use std::marker::Model;
use std::sync::ArcSlice;

/// When there are this many newer numbers, they are merged into the older ones.
const MERGED: usize = 64;

/// Numbers that a word does not have, in two ascending lists, the older and the newer ones. A copy with one more number
/// shares the older ones, and copies only the newer ones, which are few. It shares none where both are merged.
#[derive(Drop)]
pub(crate) struct Numbers {
    /// The older numbers, which copies share; `None` where there are none.
    older: Option<ArcSlice<u32>>,
    /// The newer numbers, of which each copy has its own list. A number may stand in both lists.
    newer: Vec<u32>,
}

impl Model for Numbers {
    ghost use Rattle.std.specs.Prelude.{ℕ, ◌++◌};
    ghost use Rattle.sf_dom.specs.Ascending.{AreAscending, set_of, shared_items};

    ghost Value = { ℕ };

    ghost view = { λ n. set_of (shared_items n.older ++ n.newer.items) };

    ghost invariant = { λ n. AreAscending (shared_items n.older) × AreAscending n.newer.items };
}

/// Looks up numbers one after the other, in two ascending lists. The numbers that are asked for often stand equally far
/// apart in the older list, so each is first looked for `step` places behind the last one that was found.
#[derive(Drop)]
pub(crate) struct Lookup<'a> {
    older: &'a [u32],
    newer: &'a [u32],
    /// The place in the older list of the last number that was found there.
    place: usize,
    /// How far this place is behind that of the number found before it; it wraps, since it may lead back.
    step: usize,
}

impl<'a> Model for Lookup<'a> {
    ghost use Rattle.std.specs.Prelude.{ℕ, ◌++◌};
    ghost use Rattle.sf_dom.specs.Ascending.{AreAscending, set_of};

    ghost Value = { ℕ };

    ghost view = { λ l. set_of (l.older.now ++ l.newer.now) };

    ghost invariant = { λ l. AreAscending l.older.now × AreAscending l.newer.now };
}

/// In which of two lists a number stands.
enum Found {
    /// In the older one, at this place.
    Older(usize),
    /// In the newer one.
    Newer,
    /// In neither.
    Nowhere,
}

/// The items of a list that is shared; an empty slice where there is no list.
fn items_of(list: &Option<ArcSlice<u32>>) -> &[u32]
    ensures { result.now ≡ shared_items list.now }
{
    match list {
        Some(items) => items.as_slice(),
        None => &[],
    }
}

/// A place of a number in a list.
fn place_in(list: &[u32], number: u32) -> Option<usize>
    requires { AreAscending list.now }
    ensures { MatchOption result (¬ Contains list.now number) (λ at. (at < length list.now)
        × (slice_index list.now at ≡ number)) }
{
    list.binary_search(&number).ok()
}

/// In which of two lists a number stands. Not inlined, so that `Lookup::has` can be.
#[inline(never)]
fn find(older: &[u32], newer: &[u32], number: u32) -> Found
    requires older { AreAscending older.now }
    requires newer { AreAscending newer.now }
    ensures { IsFound older.now newer.now number result }
{
    match place_in(older, number) {
        Some(place) => Found::Older(place),
        None => match place_in(newer, number) {
            Some(_) => Found::Newer,
            None => Found::Nowhere,
        },
    }
}

/// A copy of a list with one more number, at the place `at`.
fn insert_number(alloc: Global, list: &[u32], at: usize, number: u32) -> Result<Vec<u32>, Fault>
    requires { at ≤ length list.now }
    ensures { IfOk result (λ v. v.items ≡ insert list.now at number) }
{
    let mut more = Vec::with_capacity(alloc, list.len() + 1)?;
    more.extend_from_slice(&list[..at])?;
    more.push(number)?;
    more.extend_from_slice(&list[at..])?;
    Ok(more)
}

/// A copy of a list with one more number, unless it is there already.
fn with_number(alloc: Global, list: &[u32], number: u32) -> Result<Vec<u32>, Fault>
    requires { AreAscending list.now }
    ensures rising { IfOk result (λ v. AreAscending v.items) }
    ensures numbers { IfOk result (λ v. (n : ℕ) → Contains v.items n
        ↔ (Contains list.now n ⊎ (n ≡ number))) }
{
    match list.binary_search(&number) {
        Ok(_) => Ok(Vec::from_slice(alloc, list)?),
        Err(at) => Ok(insert_number(alloc, list, at, number)?),
    }
}

/// The numbers of two lists as one ascending list; a number that stands in both stands there twice.
fn merge(alloc: Global, older: &[u32], newer: &[u32]) -> Result<ArcSlice<u32>, Fault>
    ensures rising { IfOk result (λ m. AreAscending (arc_slice_items m)) }
    ensures numbers { IfOk result (λ m. (n : ℕ) → Contains (arc_slice_items m) n
        ↔ Contains (older.now ++ newer.now) n) }
{
    let mut all = Vec::from_slice(alloc, older)?;
    all.extend_from_slice(newer)?;
    all.sort()?;
    Ok(ArcSlice::from_vec(all)?)
}

/// A list that shares the items of another one; `None` where there is none. `Memory` where the items have too many
/// owners.
fn share(list: &Option<ArcSlice<u32>>) -> Result<Option<ArcSlice<u32>>, Fault>
    ensures { IfOk result (λ copy. shared_items copy ≡ shared_items list.now) }
{
    match list {
        Some(items) => Ok(Some(items.clone()?)),
        None => Ok(None),
    }
}

impl<'a> Lookup<'a> {
    pub(crate) fn new(older: &'a [u32], newer: &'a [u32]) -> Lookup<'a>
        requires older { AreAscending older.now }
        requires newer { AreAscending newer.now }
        ensures { result ≡ set_of (older.now ++ newer.now) }
    {
        Lookup {
            older,
            newer,
            place: 0,
            step: 0,
        }
    }

    /// Whether a number stands in one of the two lists. Looks first at the place `place + step` of the older list.
    #[inline]
    #[tactic(auto, using(crate::proofs::AscendingLemmas::lookup_steps))]
    pub(crate) fn has(&mut self, number: u32) -> bool
        ensures has { IsTrue result ↔ Has self.old number }
        ensures same { self.new ≡ self.old }
    {
        // The sum and the difference below wrap, since a step may lead back.
        let guess = self.place.wrapping_add(self.step);
        if guess < self.older.len() && self.older[guess] == number {
            self.place = guess;
            return true;
        }
        match find(self.older, self.newer, number) {
            Found::Older(place) => {
                self.step = place.wrapping_sub(self.place);
                self.place = place;
                true
            }
            Found::Newer => true,
            Found::Nowhere => false,
        }
    }
}

impl Numbers {
    pub(crate) fn of(alloc: Global, number: u32) -> Result<Numbers, Fault>
        ensures { IfOk result (λ v. v ≡ set_of (number ∷ [])) }
    {
        let mut newer = Vec::new(alloc);
        newer.push(number)?;
        Ok(Numbers { older: None, newer })
    }

    pub(crate) fn lookup(&self) -> Lookup<'_>
        ensures { result ≡ self.now }
    {
        Lookup::new(items_of(&self.older), self.newer.as_slice())
    }

    /// These numbers and one more. Once there are `MERGED` newer numbers, all numbers become older ones.
    pub(crate) fn with_number(&self, alloc: Global, number: u32) -> Result<Numbers, Fault>
        ensures { IfOk result (λ v. (n : ℕ) → Has v n
            ↔ (Has self.now n ⊎ (n ≡ number))) }
    {
        let newer = with_number(alloc, self.newer.as_slice(), number)?;
        if newer.as_slice().len() < MERGED {
            let older = share(&self.older)?;
            return Ok(Numbers { older, newer });
        }
        let older = merge(alloc, items_of(&self.older), newer.as_slice())?;
        Ok(Numbers {
            older: Some(older),
            newer: Vec::new(alloc),
        })
    }

    pub(crate) fn lists(&self) -> (&[u32], &[u32])
        ensures { set_of (result.0.now ++ result.1.now) ≡ self.now }
    {
        (items_of(&self.older), self.newer.as_slice())
    }
}
