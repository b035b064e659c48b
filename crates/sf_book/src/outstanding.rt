//! The outstanding pieces of a book, in two maps. One has the piece under each id. The other has, under each name, the
//! id of the piece and whether it is on lease.

ghost use Rattle.std.specs.Prelude.{slice_get, ◌≡◌, ◌≢◌, ◌<◌, ◌∷◌, [], ◌++◌, All, IfOk, IfErr, OnOk, MatchOption, length, map, true, false, None, Some, find, not, option_map, Bool};
ghost use Rattle.std.specs.Arc.{arc_value};
ghost use Rattle.std.specs.Ordering.{nat_cmp};
ghost use Rattle.std.specs.Map.{set_value, remove_entry};
ghost use Rattle.std.specs.BTreeMap.{values, is_at, insert_entry, Updates, IsOrdered};
ghost use Rattle.sf_book.specs.Books.{OutstandingData};
ghost use Rattle.sf_book.specs.Changes.{with_lease, with_lease_at, without, outstanding_at};
ghost use Rattle.sf_book.specs.OutstandingMaps.{name_cmp, lease_state_of, LeasesFirst};
ghost use Rattle.sf_book.specs.declared.outstanding.LeaseState.{LeaseState};
ghost use Rattle.sf_book.specs.declared.fault.Fault.TheVariants.{Memory};

use crate::fault::Fault;
use crate::name_key::NameKey;
use sf_piece::Piece;
use std::alloc::Global;
use std::collections::BTreeMap;
use std::marker::Model;
use std::sync::Arc;

/// What stands under a name: the id of its piece, and whether that is on lease.
#[derive(Clone, Copy, Debug, PartialEq, Eq)]
pub(crate) struct LeaseState {
    pub(crate) id: u64,
    pub(crate) leased: bool,
}

/// Outstanding pieces. The second map, in name order, finds the next piece to lease out.
#[derive(Drop)]
pub(crate) struct OutstandingPieces {
    by_id: BTreeMap<u64, NameKey>,
    by_name: BTreeMap<NameKey, LeaseState>,
}

impl Model for OutstandingPieces {
    ghost use Rattle.std.specs.Prelude.{List};
    ghost use Rattle.sf_book.specs.Books.{OutstandingData};

    ghost Value = { List OutstandingData };

    ghost use Rattle.sf_book.specs.OutstandingMaps.{outstanding_list, AreMatchingMaps};

    ghost view = { λ s. outstanding_list s.by_id.entries s.by_name.entries };

    ghost invariant = { λ s. AreMatchingMaps s.by_id.entries s.by_name.entries };
}

impl OutstandingPieces {
    /// Only this piece, not on lease.
    pub(crate) fn open(
        alloc: Global,
        id: u64,
        piece: Arc<Piece>,
    ) -> Result<OutstandingPieces, Fault>
        ensures ok { IfOk result (λ s. s ≡ record {
          id = id;
          piece = arc_value piece;
          leased = false;
        } ∷ []) }
        ensures err { IfErr result (λ f. f ≡ Memory) }
    {
        let mut pieces = OutstandingPieces {
            by_id: BTreeMap::new(alloc),
            by_name: BTreeMap::new(alloc),
        };
        pieces.add(id, piece, false)?;
        Ok(pieces)
    }

    /// How many pieces are outstanding, on lease or not.
    pub(crate) fn len(&self) -> usize
        ensures { result ≡ length self.now }
    {
        self.by_id.len()
    }

    /// The piece under the id, if any.
    pub(crate) fn piece(&self, id: u64) -> Option<&Arc<Piece>>
        ensures { MatchOption result (outstanding_at id self.now ≡ None) (λ p. (on : Bool)
            × (outstanding_at id self.now ≡ Some (record {
              id = id;
              piece = arc_value p.now;
              leased = on;
            }))) }
    {
        match self.by_id.get(&id) {
            Some(named) => Some(named.piece()),
            None => None,
        }
    }

    /// The piece at this place in the order of ids, from 0.
    pub(crate) fn at(&self, i: usize) -> &Arc<Piece>
        requires { i < length self.now }
        ensures { slice_get (map (λ (e : OutstandingData). e.piece) self.now) i
            ≡ Some (arc_value result.now) }
    {
        key_at(&self.by_id, i).piece()
    }

    /// Leases out the piece whose name comes first among those that aren't on lease, and gives its id too.
    pub(crate) fn lease(&mut self) -> Result<Option<(u64, Arc<Piece>)>, Fault>
        ensures ok { IfOk result (λ l. MatchOption l ((self.new ≡ self.old)
            × All (λ e. e.leased ≡ true) self.old) (λ l.
            LeasesFirst self.old l.0 (arc_value l.1) self.new)) }
        ensures err { IfErr result (λ f. (f ≡ Memory) × (self.new ≡ self.old)) }
    {
        let Some(id) = first_free(&self.by_name) else {
            return Ok(None);
        };
        // Both maps have the same ids.
        let Some(named) = self.by_id.get(&id) else {
            unreachable!()
        };
        let piece = Arc::try_clone(named.piece())?;
        set_leased(&mut self.by_name, named, true);
        Ok(Some((id, piece)))
    }

    /// Takes the piece under the id, if any, off lease.
    pub(crate) fn give_back(&mut self, id: u64)
        ensures { self.new ≡ map (with_lease_at id false) self.old }
    {
        if let Some(named) = self.by_id.get(&id) {
            set_leased(&mut self.by_name, named, false);
        }
    }

    /// Takes all pieces off lease.
    pub(crate) fn recall(&mut self)
        ensures { self.new ≡ map (with_lease false) self.old }
    {
        clear_leased(&mut self.by_name);
    }

    /// Adds a piece under an id that is above all others.
    fn add(&mut self, id: u64, piece: Arc<Piece>, leased: bool) -> Result<(), Fault>
        requires above { All (λ e. e.id < id) self.old }
        requires apart { All (λ e. e.piece.name ≢ (arc_value piece).name) self.old }
        ensures ok { OnOk result (self.new ≡ self.old ++ record {
          id = id;
          piece = arc_value piece;
          leased = leased;
        } ∷ []) }
        ensures err { IfErr result (λ f. (f ≡ Memory) × (self.new ≡ self.old)) }
    {
        let named = NameKey::of(piece);
        let shared = named.share()?;
        put_id(&mut self.by_id, id, named)?;
        match put_name(&mut self.by_name, shared, LeaseState { id, leased }) {
            Ok(()) => Ok(()),
            Err(fault) => {
                drop_id(&mut self.by_id, id);
                Err(fault)
            }
        }
    }

    /// Takes the piece under the id, if any, out of both maps.
    pub(crate) fn remove(&mut self, id: u64)
        ensures { self.new ≡ without id self.old }
    {
        if let Some(named) = self.by_id.remove(&id) {
            self.by_name.remove(&named);
        }
    }

    /// Puts the two pieces of a split, on lease, in place of the piece under `id`: `f`, the false one, under `first`,
    /// and `t`, the true one, under `second`.
    pub(crate) fn split(
        &mut self,
        id: u64,
        first: u64,
        second: u64,
        f: Arc<Piece>,
        t: Arc<Piece>,
    ) -> Result<(), Fault>
        requires above { All (λ e. e.id < first) self.old }
        requires ids { (id < first) × (first < second) }
        requires apart { All (λ e. (e.piece.name ≢ (arc_value f).name)
            × (e.piece.name ≢ (arc_value t).name)) self.old }
        requires differ { (arc_value f).name ≢ (arc_value t).name }
        ensures ok { OnOk result (self.new ≡ (without id self.old
            ++ record { id = first; piece = arc_value f; leased = true } ∷ [])
            ++ record { id = second; piece = arc_value t; leased = true } ∷ []) }
        ensures err { IfErr result (λ f. (f ≡ Memory) × (self.new ≡ self.old)) }
    {
        // The split piece is taken out last, so it needn't be put back where memory is refused.
        self.add(first, f, true)?;
        match self.add(second, t, true) {
            Ok(()) => {
                self.remove(id);
                Ok(())
            }
            Err(fault) => {
                self.remove(first);
                Err(fault)
            }
        }
    }
}

/// The key of the piece at place `i`, from 0, in the order of ids.
fn key_at(by_id: &BTreeMap<u64, NameKey>, i: usize) -> &NameKey
    requires { i < length (values by_id.now) }
    ensures { slice_get (values by_id.now) i ≡ Some result.now }
{
    let Some(named) = by_id.values().nth(i) else {
        unreachable!()
    };
    named
}

/// Puts a piece under an id, in place of one that may stand there.
fn put_id(by_id: &mut BTreeMap<u64, NameKey>, id: u64, piece: NameKey) -> Result<(), Fault>
    ensures updates { OnOk result (Updates nat_cmp by_id.old by_id.new id (Some piece)) }
    ensures inserted { OnOk result (by_id.new.entries
        ≡ insert_entry nat_cmp by_id.old.entries id piece) }
    ensures err { IfErr result (λ f. (f ≡ Memory) × (by_id.new.entries ≡ by_id.old.entries)) }
    ensures ordered { IsOrdered nat_cmp by_id.new }
{
    by_id.insert(id, piece)?;
    Ok(())
}

/// Puts what stands under a piece's name, in place of what may stand there.
fn put_name(
    by_name: &mut BTreeMap<NameKey, LeaseState>,
    piece: NameKey,
    state: LeaseState,
) -> Result<(), Fault>
    ensures updates { OnOk result (Updates name_cmp by_name.old by_name.new piece (Some state)) }
    ensures err { IfErr result (λ f. (f ≡ Memory)
        × (by_name.new.entries ≡ by_name.old.entries)) }
    ensures ordered { IsOrdered name_cmp by_name.new }
{
    by_name.insert(piece, state)?;
    Ok(())
}

/// Takes the piece under an id, if any, out of the map of ids.
fn drop_id(by_id: &mut BTreeMap<u64, NameKey>, id: u64)
    ensures { by_id.new.entries ≡ remove_entry (is_at (nat_cmp id)) by_id.old.entries }
{
    by_id.remove(&id);
}

/// The id of the piece with the first name among those that aren't on lease.
fn first_free(by_name: &BTreeMap<NameKey, LeaseState>) -> Option<u64>
    ensures { result ≡ option_map (λ (m : LeaseState). m.id)
        (find (λ (m : LeaseState). not m.leased) (values by_name.now)) }
{
    by_name
        .values()
        .find(|state| !state.leased)
        .map(|state| state.id)
}

/// Puts the piece of a name, if the map has it, on lease, or takes it off.
fn set_leased(by_name: &mut BTreeMap<NameKey, LeaseState>, named: &NameKey, leased: bool)
    ensures { MatchOption (lease_state_of by_name.old.entries named.now)
        (by_name.new.entries ≡ by_name.old.entries) (λ m. by_name.new.entries
        ≡ set_value (is_at (name_cmp named.now)) by_name.old.entries
        (record { id = m.id; leased = leased })) }
{
    if let Some(state) = by_name.get_mut(named) {
        state.leased = leased;
    }
}

/// Takes all pieces off lease.
fn clear_leased(by_name: &mut BTreeMap<NameKey, LeaseState>)
    ensures { by_name.new.entries ≡ map (λ e. (e.0, record { id = e.1.id; leased = false }))
        by_name.old.entries }
{
    // No entry is taken out: this only goes over all of them.
    by_name.retain(|_, state| {
        state.leased = false;
        true
    });
}
