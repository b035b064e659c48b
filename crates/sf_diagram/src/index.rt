//! Nodes, with an index by which an equal node is found without going through all of them.

ghost use Rattle.std.specs.Prelude.{◌≡◌, ◌≢◌, ℕ, ◌+◌, ◌<◌, ◌^◌, List, [], ◌∷◌, ◌++◌, length, IfSome, IfNone, OnOk, OnErr, IfOk, IsTrue, false};
ghost use Rattle.sf_diagram.specs.Nodes.{stored_node};
ghost use Rattle.sf_diagram.specs.Index.{bucket_of, nodes_of, IsInBuckets};

use std::alloc::{AllocError, Global};
use std::marker::Model;

/// The place of a node in its store, from 0.
pub type Id = u32;

/// A leaf, or a choice between two older nodes.
#[derive(Clone, Copy, Debug, PartialEq, Eq)]
pub enum Node {
    /// A leaf with a number.
    Number(u64),
    /// A variable, the node where it is false, and the node where it is true.
    Choice(u16, Id, Id),
}

/// A store has many nodes.
const _: () = prove!(size_of::<Node>() <= 16);

/// A node, and where to look next for a node of its hash.
#[derive(Clone, Copy)]
pub(crate) struct Interned {
    /// The node.
    pub(crate) node: Node,
    /// One more than the place of the newest older node of the same hash, or 0 where there is none.
    pub(crate) link: u32,
}

/// The hash of a node, which is the number of its bucket: equal nodes have the same one. The factors only spread the
/// nodes over the buckets.
fn hash(node: Node, buckets: usize) -> usize
    requires { 0 < buckets }
    ensures value { result ≡ bucket_of buckets node }
    ensures within { result < buckets }
{
    match node {
        Node::Number(number) => number as usize % buckets,
        Node::Choice(variable, lower, higher) => {
            (variable as usize * 65599 + lower as usize * 12582917 + higher as usize * 4256249)
                % buckets
        }
    }
}

/// Whether two nodes are equal.
fn is_same(a: Node, b: Node) -> bool
    ensures same { IsTrue result → a ≡ b }
    ensures differ { result ≡ false → a ≢ b }
{
    a == b
}

/// The place of the newest node that is equal to `node`; `None` where no node is. Only the nodes in the bucket of
/// `node` are compared with it, the newest first.
fn place_of(interned: &[Interned], heads: &[u32], node: Node) -> Option<usize>
    requires indexed { IsInBuckets interned.now heads.now }
    ensures found { IfSome result (λ i. (i < length (nodes_of interned.now))
        × (stored_node (nodes_of interned.now) i ≡ node)) }
    ensures absent { IfNone result ((i : ℕ) → i < length (nodes_of interned.now)
        → stored_node (nodes_of interned.now) i ≢ node) }
{
    let mut next = heads[hash(node, heads.len())] as usize;
    // `next` is one more than the place to look at, as heads and links are.
    while next > 0 {
        let one = interned[next - 1];
        if is_same(one.node, node) {
            return Some(next - 1);
        }
        next = one.link as usize;
    }
    None
}

/// Adds a node at the end, and makes it the newest of its bucket.
fn push(interned: &mut Vec<Interned>, heads: &mut [u32], node: Node) -> Result<(), AllocError>
    requires indexed { IsInBuckets interned.old.items heads.old }
    requires room { length interned.old.items + 1 < 2 ^ 32 }
    ensures indexed { IsInBuckets interned.new.items heads.new }
    ensures ok { OnOk result (nodes_of interned.new.items
        ≡ nodes_of interned.old.items ++ node ∷ []) }
    ensures err { OnErr result (interned.new.items ≡ interned.old.items) }
{
    let hash = hash(node, heads.len());
    let link = heads[hash];
    interned.push(Interned { node, link })?;
    // This is one more than the place of the new node.
    heads[hash] = interned.len() as u32;
    Ok(())
}

/// Nodes, oldest first, and where the newest one of each bucket is.
#[derive(Drop)]
pub(crate) struct Indexed {
    // The nodes, each with its link.
    interned: Vec<Interned>,
    // For each bucket, one more than the place of its newest node, or 0 where it has none.
    heads: Vec<u32>,
}

impl Model for Indexed {
    ghost use Rattle.std.specs.Prelude.{List};
    ghost use Rattle.sf_diagram.specs.declared.index.Node.{Node};
    ghost use Rattle.sf_diagram.specs.Index.{nodes_of, IsInBuckets};

    ghost Value = { List Node };

    ghost view = { λ n. nodes_of n.interned.items };

    ghost invariant = { λ n. IsInBuckets n.interned.items n.heads.items };
}

impl Indexed {
    /// No nodes, and so many buckets.
    pub(crate) fn new(alloc: Global, buckets: usize) -> Result<Indexed, AllocError>
        requires { 0 < buckets }
        ensures { IfOk result (λ n. n ≡ []) }
    {
        Ok(Indexed {
            interned: Vec::new(alloc),
            heads: vec![in alloc; 0u32; buckets]?,
        })
    }

    /// How many nodes there are.
    pub(crate) fn len(&self) -> usize
        ensures { result ≡ length self.now }
    {
        self.interned.len()
    }

    /// The node at place `i`.
    pub(crate) fn node(&self, i: usize) -> Node
        requires { i < length self.now }
        ensures { result ≡ stored_node self.now i }
    {
        self.interned[i].node
    }

    /// The place of the newest node that is equal to `node`; `None` where no node is.
    pub(crate) fn find(&self, node: Node) -> Option<usize>
        ensures found { IfSome result (λ i. (i < length self.now)
            × (stored_node self.now i ≡ node)) }
        ensures absent { IfNone result ((i : ℕ) → i < length self.now
            → stored_node self.now i ≢ node) }
    {
        place_of(self.interned.as_slice(), self.heads.as_slice(), node)
    }

    /// Adds a node at the end; the buckets stay.
    fn push(&mut self, node: Node) -> Result<(), AllocError>
        requires { length self.old + 1 < 2 ^ 32 }
        ensures ok { OnOk result (self.new ≡ self.old ++ node ∷ []) }
        ensures err { OnErr result (self.new ≡ self.old) }
    {
        push(&mut self.interned, self.heads.as_mut_slice(), node)?;
        Ok(())
    }

    /// The same nodes in twice as many buckets and one more.
    fn with_more_buckets(&self) -> Result<Indexed, AllocError>
        requires { length self.now < 2 ^ 32 }
        ensures { IfOk result (λ n. n ≡ self.now) }
    {
        let alloc = *self.heads.allocator();
        let mut bigger = Indexed::new(alloc, self.len().saturating_mul(2).saturating_add(1))?;
        for i in 0..self.len() {
            bigger.push(self.node(i))?;
        }
        Ok(bigger)
    }

    /// Adds a node at the end, even if an equal one is there.
    pub(crate) fn add(&mut self, node: Node) -> Result<(), AllocError>
        requires { length self.old + 1 < 2 ^ 32 }
        ensures ok { OnOk result (self.new ≡ self.old ++ node ∷ []) }
        ensures err { OnErr result (self.new ≡ self.old) }
    {
        if self.interned.len() >= self.heads.len() {
            *self = self.with_more_buckets()?;
        }
        self.push(node)?;
        Ok(())
    }
}
