//! One bench with several handles.

ghost use Rattle.std.specs.Prelude.{◌≡◌, [], ◌∷◌, IfSome};
ghost use Rattle.sf_crew.specs.Benches.{owner_view, thief_view, IsOnBench, IsSameBench, IsSameThief};
ghost use Rattle.sf_crew.specs.History.{numbers_of, KeepsHandles, IsWhole};

use crossbeam_deque::Steal;
use samples::execve_stack;
use sf_book::Lease;
use sf_crew::{Owner, Thief, bench};
use sf_piece::{Piece, root};
use std::alloc::{AllocError, Global};
use std::sync::Arc;
use std::test::Fail;
use std::thread;
use std::thread::Threads;

/// A handle of a bench.
#[derive(Drop)]
enum Any {
    Owning(Owner),
    Stealing(Thief),
}

/// Takes all leases that are left: the ids, in their order.
fn take_all(owner: &mut Owner, ids: &mut Vec<u64>) -> Result<(), AllocError> {
    for _ in 0..u64::MAX {
        let Some(lease) = owner.take() else {
            break;
        };
        ids.push(lease.id)?;
    }
    Ok(())
}

/// Steals all leases that are left. After a `Retry` it tries again.
fn steal_all(thief: &mut Thief, ids: &mut Vec<u64>) -> Result<(), AllocError> {
    for _ in 0..u64::MAX {
        match thief.steal() {
            Steal::Success(lease) => ids.push(lease.id)?,
            Steal::Retry => {}
            Steal::Empty => break,
        }
    }
    Ok(())
}

/// Gets leases until none is left: the ids, in their order.
fn drain(alloc: Global, end: Any) -> Result<Vec<u64>, AllocError> {
    let mut ids = Vec::new(alloc);
    match end {
        Any::Owning(mut owner) => take_all(&mut owner, &mut ids)?,
        Any::Stealing(mut thief) => steal_all(&mut thief, &mut ids)?,
    }
    Ok(ids)
}

/// Whether the numbers rise.
fn rises(ids: &[u64]) -> bool {
    let mut last = None;
    for id in ids {
        if last.is_some_and(|before| before >= *id) {
            return false;
        }
        last = Some(*id);
    }
    true
}

/// The first piece of a stack.
fn execve_root(alloc: Global) -> Result<Arc<Piece>, Fail> {
    Ok(root(alloc, &execve_stack(alloc)?)?)
}

/// Puts leases of the piece under this many ids, from 0. False: one was not put.
fn put_many(owner: &mut Owner, piece: &Arc<Piece>, count: u64) -> bool
    ensures same { IsSameBench owner.old owner.new }
    ensures handles { KeepsHandles (owner_view owner.old) (owner_view owner.new) }
{
    for id in 0..count {
        let Ok(piece) = Arc::try_clone(piece) else {
            return false;
        };
        if owner.put(Lease { id, piece }).is_err() {
            return false;
        }
    }
    true
}

/// What a thief steals: the id. A `Retry`, which comes only where several handles are used at once, counts as
/// `u64::MAX`.
fn stolen_id(thief: &mut Thief) -> Option<u64>
    ensures same { IsSameThief thief.old thief.new }
    ensures handles { KeepsHandles (thief_view thief.old) (thief_view thief.new) }
{
    match thief.steal() {
        Steal::Success(lease) => Some(lease.id),
        Steal::Retry => Some(u64::MAX),
        Steal::Empty => None,
    }
}

/// How many leases are put where many are: so many that threads which get them do so at once.
const MANY: u64 = 50_000;

/// An owner that has put many leases, and three thieves, of which one has stolen the first lease. `None` where it is
/// otherwise.
fn many_on_a_bench(alloc: Global, piece: &Arc<Piece>) -> Option<(Owner, Vec<Thief>)> {
    let (mut owner, mut thieves) = bench(alloc, 3).ok()?;
    if !put_many(&mut owner, piece, MANY) || stolen_id(thieves.first_mut()?) != Some(0) {
        return None;
    }
    Some((owner, thieves))
}

/// The handles, the owner's first.
fn ends_of(alloc: Global, owner: Owner, thieves: Vec<Thief>) -> Result<Vec<Any>, AllocError> {
    let mut ends = Vec::new(alloc);
    ends.push(Any::Owning(owner))?;
    for thief in thieves {
        ends.push(Any::Stealing(thief))?;
    }
    Ok(ends)
}

/// All ids that the handles get, each on a thread of its own and in rising order.
fn drain_all<R: Threads + Sync>(rt: &R, alloc: Global, ends: Vec<Any>) -> Result<Vec<u64>, Fail> {
    let got = thread::map_vec(
        rt,
        ends,
        &|end: Any| -> Result<Vec<u64>, AllocError> { drain(alloc, end) },
    )?;
    let mut all = Vec::new(alloc);
    for ids in got {
        let ids = ids?;
        if !rises(&ids) {
            return Err("ids that don't rise".into());
        }
        all.extend_from_slice(&ids)?;
    }
    Ok(all)
}

/// All ids that are got after the first, in rising order.
fn ids_after_the_first<R: Threads + Sync>(rt: &R, alloc: Global) -> Result<Vec<u64>, Fail> {
    let piece = execve_root(alloc)?;
    let (owner, thieves) = many_on_a_bench(alloc, &piece).ok_or("another lease")?;
    let mut all = drain_all(rt, alloc, ends_of(alloc, owner, thieves)?)?;
    all.sort()?;
    Ok(all)
}

#[test]
fn each_of_many_leases_is_got_once_and_in_order(rt: HostRuntime) -> Result<(), Fail> {
    let all = ids_after_the_first(&rt, rt.alloc())?;
    assert!(rt; rises(&all));
    assert_eq!(rt;
        (all.len(), all.first().copied(), all.last().copied()),
        (49_999, Some(1), Some(49_999))
    );
    Ok(())
}

/// The owner takes a lease, and each thief in turn steals one.
fn get_in_turn(
    owner: &mut Owner,
    thieves: &mut [Thief],
    ids: &mut Vec<Option<u64>>,
) -> Result<(), AllocError> {
    ids.push(owner.take().map(|lease| lease.id))?;
    for thief in thieves.iter_mut() {
        ids.push(stolen_id(thief))?;
    }
    Ok(())
}

/// What an owner and two thieves get in turn: once from the empty bench, and twice after four leases are put.
fn got_in_turn(alloc: Global, piece: &Arc<Piece>) -> Result<Vec<Option<u64>>, Fail> {
    let (mut owner, mut thieves) = bench(alloc, 2)?;
    let mut ids = Vec::new(alloc);
    get_in_turn(&mut owner, &mut thieves, &mut ids)?;
    if !put_many(&mut owner, piece, 4) {
        return Err("a lease was not put".into());
    }
    get_in_turn(&mut owner, &mut thieves, &mut ids)?;
    get_in_turn(&mut owner, &mut thieves, &mut ids)?;
    Ok(ids)
}

#[test]
fn a_bench_is_first_in_first_out(rt: HostRuntime) -> Result<(), Fail> {
    let ids = got_in_turn(rt.alloc(), &execve_root(rt.alloc())?)?;
    let wanted = [
        None,
        None,
        None,
        Some(0),
        Some(1),
        Some(2),
        Some(3),
        None,
        None,
    ];
    assert_eq!(rt; ids.as_slice(), wanted.as_slice());
    Ok(())
}

/// An owner that has put four leases, and its one thief. `None` where it is otherwise.
fn owner_and_thief(alloc: Global, piece: &Arc<Piece>) -> Option<(Owner, Thief)>
    ensures bench { IfSome result (λ b. IsOnBench b.0 b.1) }
    ensures two { IfSome result (λ b. ((owner_view b.0).made ≡ 2)
        × (numbers_of (owner_view b.0).ends ≡ 0 ∷ [])
        × (numbers_of (thief_view b.1).ends ≡ 1 ∷ [])) }
{
    let (mut owner, mut thieves) = bench(alloc, 1).ok()?;
    let thief = thieves.pop()?;
    if !put_many(&mut owner, piece, 4) {
        return None;
    }
    Some((owner, thief))
}

/// The owner takes a lease and the thief steals one, each on a thread of its own: the ids. Then the thief is joined
/// into the owner.
fn get_and_join<R: Threads>(rt: &R, owner: Owner, thief: Thief) -> (Owner, Option<u64>, Option<u64>)
    requires bench { IsOnBench owner thief }
    requires two { ((owner_view owner).made ≡ 2)
        × (numbers_of (owner_view owner).ends ≡ 0 ∷ [])
        × (numbers_of (thief_view thief).ends ≡ 1 ∷ []) }
    ensures { IsWhole (owner_view result.0) }
{
    let (owning, stealing) = thread::join(
        rt,
        move || -> (Owner, Option<u64>)
            ensures { IsSameBench owner result.0
                × KeepsHandles (owner_view owner) (owner_view result.0) }
        {
            let mut mine = owner;
            let id = mine.take().map(|lease| lease.id);
            (mine, id)
        },
        move || -> (Thief, Option<u64>)
            ensures { IsSameThief thief result.0
                × KeepsHandles (thief_view thief) (thief_view result.0) }
        {
            let mut mine = thief;
            let id = stolen_id(&mut mine);
            (mine, id)
        },
    );
    let (mut all, taken) = owning;
    let (joined, stolen) = stealing;
    all.join(joined);
    (all, taken, stolen)
}

/// What an owner and a thief get that are then joined, and what the owner takes after that: the ids, in rising order.
fn ids_of_joined<R: Threads>(rt: &R, alloc: Global) -> Result<Vec<u64>, Fail> {
    let piece = execve_root(alloc)?;
    let (owner, thief) = owner_and_thief(alloc, &piece).ok_or("a lease was not put")?;
    let (mut all, taken, stolen) = get_and_join(rt, owner, thief);
    let mut ids = Vec::new(alloc);
    for id in [taken, stolen] {
        if let Some(id) = id {
            ids.push(id)?;
        }
    }
    take_all(&mut all, &mut ids)?;
    ids.sort()?;
    Ok(ids)
}

#[test]
fn joined_handles_have_got_each_lease_once(rt: HostRuntime) -> Result<(), Fail> {
    let mut ids = ids_of_joined(&rt, rt.alloc())?;
    // A steal that came to nothing.
    if ids.last() == Some(&u64::MAX) {
        ids.pop();
    }
    assert_eq!(rt; ids.as_slice(), [0, 1, 2, 3].as_slice());
    Ok(())
}
