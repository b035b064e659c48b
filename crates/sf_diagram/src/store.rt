//! A store of decision trees, in which equal trees are one node.

ghost use Rattle.std.specs.Prelude.{◌≡◌, ◌≢◌, ◌↔◌, suc, ◌<◌, ◌≤◌, length, OnErr, IfOk, IfErr, IfSome};
ghost use Rattle.sf_diagram.specs.Trees.{Leaf, Fork, HasValues, IsJoined, IsOrderedTree, IsOrderedFrom, IsReducedTree};
ghost use Rattle.sf_diagram.specs.Stores.{empty_store, tree_at, KeepsStore, IsLawfulStore, HasNoRoom};
ghost use Rattle.sf_diagram.specs.Nodes.{OperandsBelow, tree_of};
ghost use Rattle.sf_diagram.specs.Tasks.{AreBelow, wanted};

use crate::fault::Fault;
use crate::index::{Id, Indexed, Node};
use crate::task::{Task, is_same_task, place};
use std::alloc::Global;
use std::marker::Model;

/// How many buckets a store without nodes has.
const BUCKETS: usize = 1023;

/// Decision trees, oldest first. Each is ordered and reduced, and none stands twice.
#[derive(Drop)]
pub struct Store {
    // The nodes. The operands of each are older.
    nodes: Indexed,
    // Tasks with the nodes of their trees. A new one takes the place of an older one.
    cache: Vec<Option<(Task, Id)>>,
    // How many nodes are allowed.
    most: u32,
}

impl Model for Store {
    ghost use Rattle.sf_diagram.specs.Stores.{StoreData, store_code};
    ghost use Rattle.sf_diagram.specs.Nodes.{trees_of};
    ghost use Rattle.sf_diagram.specs.Remembered.{IsSound};

    ghost Value = { StoreData };

    ghost coded = { store_code };

    ghost view = { λ s. record { trees = trees_of s.nodes; most = s.most } };

    ghost invariant = { λ s. IsSound s.nodes s.most s.cache.items };
}

impl Store {
    /// A store without trees, which takes at most `most` nodes.
    pub fn new(alloc: Global, most: u32) -> Result<Store, Fault>
        ensures store { IfOk result (λ s. s ≡ empty_store most) }
        ensures memory { IfErr result (λ e. e ≡ Fault.Memory) }
    {
        Ok(Store {
            nodes: Indexed::new(alloc, BUCKETS)?,
            cache: Vec::new(alloc),
            most,
        })
    }

    /// How many nodes the store has, of those that are allowed.
    pub fn count(&self) -> usize
        ensures count { result ≡ length self.now.trees }
        ensures few { result ≤ self.now.most }
    {
        self.nodes.len()
    }

    /// The node at a place.
    pub fn node(&self, id: Id) -> Node
        requires { id < length self.now.trees }
        ensures tree { tree_at self.now.trees id ≡ tree_of self.now.trees result }
        ensures older { OperandsBelow id result }
        ensures lawful { IsLawfulStore self.now }
    {
        self.nodes.node(id as usize)
    }

    /// The node: one that is there already, or a new one.
    fn intern(&mut self, node: Node) -> Result<Id, Fault>
        requires operands { OperandsBelow (length self.old.trees) node }
        requires ordered { IsOrderedTree (tree_of self.old.trees node) }
        requires reduced { IsReducedTree (tree_of self.old.trees node) }
        ensures within { IfOk result (λ id. id < length self.new.trees) }
        ensures tree { IfOk result (λ id.
            tree_at self.new.trees id ≡ tree_of self.old.trees node) }
        ensures keeps { KeepsStore self.old self.new }
        ensures lawful { IsLawfulStore self.new }
        ensures err { OnErr result (self.new ≡ self.old) }
        ensures spent { result ≡ Err Fault.Spent
            ↔ HasNoRoom self.old (tree_of self.old.trees node) }
    {
        if let Some(at) = self.nodes.find(node) {
            return Ok(at as Id);
        }
        let at = self.nodes.len();
        if at >= self.most as usize {
            return Err(Fault::Spent);
        }
        self.nodes.add(node)?;
        Ok(at as Id)
    }

    /// The leaf with this number: one that is there already, or a new one.
    pub fn leaf(&mut self, number: u64) -> Result<Id, Fault>
        ensures within { IfOk result (λ id. id < length self.new.trees) }
        ensures tree { IfOk result (λ id. tree_at self.new.trees id ≡ Leaf number) }
        ensures keeps { KeepsStore self.old self.new }
        ensures lawful { IsLawfulStore self.new }
        ensures err { OnErr result (self.new ≡ self.old) }
        ensures spent { result ≡ Err Fault.Spent ↔ HasNoRoom self.old (Leaf number) }
    {
        self.intern(Node::Number(number))
    }

    /// The tree that leads to `lower` where the variable is false, and to `higher` where it is true: a fork, or, where
    /// the two are the same, this one.
    pub fn fork(&mut self, variable: u16, lower: Id, higher: Id) -> Result<Id, Fault>
        requires lower { lower < length self.old.trees }
        requires higher { higher < length self.old.trees }
        requires below_lower { IsOrderedFrom (suc variable) (tree_at self.old.trees lower) }
        requires below_higher { IsOrderedFrom (suc variable) (tree_at self.old.trees higher) }
        ensures within { IfOk result (λ id. id < length self.new.trees) }
        ensures tree { IfOk result (λ id. IsJoined variable (tree_at self.old.trees lower)
            (tree_at self.old.trees higher) (tree_at self.new.trees id)) }
        ensures keeps { KeepsStore self.old self.new }
        ensures lawful { IsLawfulStore self.new }
        ensures err { OnErr result (self.new ≡ self.old) }
        ensures spent { result ≡ Err Fault.Spent ↔ ((lower ≢ higher) × HasNoRoom self.old
            (Fork variable (tree_at self.old.trees lower) (tree_at self.old.trees higher))) }
    {
        // For the prover: the trees of the store are canonical.
        let _node = self.node(lower);
        if lower == higher {
            return Ok(lower);
        }
        self.intern(Node::Choice(variable, lower, higher))
    }

    /// The tree that is 1 where the variable is true, else 0.
    pub fn literal(&mut self, variable: u16) -> Result<Id, Fault>
        ensures within { IfOk result (λ id. id < length self.new.trees) }
        ensures tree { IfOk result (λ id.
            tree_at self.new.trees id ≡ Fork variable (Leaf 0) (Leaf 1)) }
        ensures keeps { KeepsStore self.old self.new }
        ensures lawful { IsLawfulStore self.new }
        ensures spent { IfErr result (λ e. e ≡ Fault.Spent
            → HasNoRoom self.new (Fork variable (Leaf 0) (Leaf 1))) }
    {
        let zero = self.leaf(0)?;
        let one = self.leaf(1)?;
        Ok(self.fork(variable, zero, one)?)
    }

    /// The node of a task's tree, where it is remembered.
    pub(crate) fn recall(&self, task: Task) -> Option<Id>
        ensures within { IfSome result (λ id. id < length self.now.trees) }
        ensures made { IfSome result
            (λ id. HasValues (tree_at self.now.trees id) (wanted self.now.trees task)) }
    {
        if self.cache.is_empty() {
            return None;
        }
        match self.cache[place(task, self.cache.len())] {
            Some((known, id)) => {
                if is_same_task(known, task) {
                    Some(id)
                } else {
                    None
                }
            }
            None => None,
        }
    }

    /// Makes room for as many results as there are nodes, and forgets all results if there was less.
    fn make_room(&mut self) -> Result<(), Fault>
        ensures same { self.new ≡ self.old }
        ensures memory { IfErr result (λ e. e ≡ Fault.Memory) }
    {
        if self.cache.len() >= self.nodes.len() {
            return Ok(());
        }
        let alloc = *self.cache.allocator();
        let places = self.nodes.len().saturating_mul(2).saturating_add(1023);
        self.cache = vec![in alloc; None; places]?;
        Ok(())
    }

    /// Remembers the node of a task's tree.
    pub(crate) fn remember(&mut self, task: Task, id: Id) -> Result<(), Fault>
        requires below { AreBelow (length self.old.trees) task }
        requires within { id < length self.old.trees }
        requires made { HasValues (tree_at self.old.trees id) (wanted self.old.trees task) }
        ensures same { self.new ≡ self.old }
        ensures memory { IfErr result (λ e. e ≡ Fault.Memory) }
    {
        self.make_room()?;
        if self.cache.is_empty() {
            return Ok(());
        }
        let at = place(task, self.cache.len());
        self.cache[at] = Some((task, id));
        Ok(())
    }
}
