//! The nodes of a pool, with an index by which an equal node is found fast.

ghost use Rattle.std.specs.Prelude.{◌≡◌, ◌≢◌, ℕ, ◌<◌, ◌*◌, ◌/◌, ◌-◌, ◌^◌, List, [], ◌∷◌, ◌++◌, length, ◌↔◌, OnOk, OnErr, IfOk, IsTrue, false, MatchBool, MatchOption};
ghost use Rattle.std.specs.Arc.{arc_value};
ghost use Rattle.sf_sym.specs.Pool.{node_at};
ghost use Rattle.sf_sym.specs.Index.{hash_of, nodes_of, IsIndexed};

use crate::pool::Node;
use sf_blocks::shared::SharedList;
use std::alloc::{AllocError, Global};
use std::marker::Model;
use std::sync::Arc;

const BUCKETS: usize = 127;

/// A node, and where to look next for a node of its hash.
#[derive(Clone, Copy)]
pub struct Interned {
    pub node: Node,
    /// One more than the place of the newest older node of the same hash, or 0 where there is none.
    pub link: u32,
}

impl Default for Interned {
    /// `SharedList` asks for a default of its elements.
    fn default() -> Self {
        Interned {
            node: Node::Const(0),
            link: 0,
        }
    }
}

/// The nodes of a pool with their links, oldest first.
pub type InternedNodes = SharedList<Interned, 1>;

/// The number of the node's bucket. The factors only spread the nodes over the buckets.
fn hash(node: Node) -> usize
    ensures value { result ≡ hash_of node }
    ensures within { result < 127 }
{
    match node {
        Node::Const(c) => c as usize % BUCKETS,
        Node::Word(i) => i as usize % BUCKETS,
        Node::Bin(_, a, b) => (a.0 as usize % BUCKETS * 31 + b.0 as usize % BUCKETS * 7) % BUCKETS,
        Node::Neg(a) => (a.0 as usize % BUCKETS + 5) % BUCKETS,
    }
}

fn is_same(a: Node, b: Node) -> bool
    ensures same { IsTrue result → a ≡ b }
    ensures differ { result ≡ false → a ≢ b }
{
    a == b
}

/// The place of the newest node that is equal to `node`. Only the nodes in its bucket are compared, the newest first.
fn place_of(interned_nodes: &InternedNodes, heads: &[u32], node: Node) -> Option<usize>
    requires indexed { IsIndexed interned_nodes.now heads.now }
    ensures found { (i : ℕ) → result ≡ Some i → (i < length (nodes_of interned_nodes.now))
        × (node_at (nodes_of interned_nodes.now) i ≡ node) }
    ensures absent { result ≡ None → (i : ℕ) → i < length (nodes_of interned_nodes.now)
        → node_at (nodes_of interned_nodes.now) i ≢ node }
{
    let mut next = heads[hash(node)] as usize;
    while next > 0 {
        let interned = interned_nodes.get(next - 1);
        if is_same(interned.node, node) {
            return Some(next - 1);
        }
        next = interned.link as usize;
    }
    None
}

/// Adds a node at the end, and makes it the newest of its bucket.
fn add(interned_nodes: &mut InternedNodes, heads: &mut [u32], node: Node) -> Result<(), AllocError>
    requires indexed { IsIndexed interned_nodes.old heads.old }
    ensures indexed { IsIndexed interned_nodes.new heads.new }
    ensures ok { OnOk result (nodes_of interned_nodes.new
        ≡ nodes_of interned_nodes.old ++ node ∷ []) }
    ensures err { OnErr result (interned_nodes.new ≡ interned_nodes.old) }
{
    let hash = hash(node);
    let link = heads[hash];
    interned_nodes.push(Interned { node, link })?;
    heads[hash] = interned_nodes.len() as u32;
    Ok(())
}

/// Nodes, oldest first, which pools share until one of them gets another node.
#[derive(Drop)]
pub struct Indexed {
    interned_nodes: InternedNodes,
    // For each bucket, one more than the place of its newest node, or 0 where it has none.
    heads: Vec<u32>,
}

impl Model for Indexed {
    ghost use Rattle.std.specs.Prelude.{List};
    ghost use Rattle.sf_sym.specs.declared.pool.Node.{Node};

    ghost Value = { List Node };

    ghost use Rattle.sf_sym.specs.Index.{nodes_of, IsIndexed};

    ghost view = { λ n. nodes_of n.interned_nodes };

    ghost invariant = { λ n. IsIndexed n.interned_nodes n.heads.items };
}

impl Indexed {
    /// An `Indexed` without nodes.
    pub fn new(alloc: Global) -> Result<Indexed, AllocError>
        ensures { IfOk result (λ n. n ≡ []) }
    {
        Ok(Indexed {
            interned_nodes: SharedList::new(alloc)?,
            heads: vec![in alloc; 0u32; BUCKETS]?,
        })
    }

    /// How many nodes there are.
    pub fn len(&self) -> usize
        ensures count { result ≡ length self.now }
        ensures small { result < 3 * 2 ^ 30 }
    {
        self.interned_nodes.len()
    }

    /// The node at place `i`.
    pub fn node(&self, i: usize) -> Node
        requires { i < length self.now }
        ensures { result ≡ node_at self.now i }
    {
        self.interned_nodes.get(i).node
    }

    /// The place of the newest node that is equal to `node`.
    pub fn find(&self, node: Node) -> Option<usize>
        ensures found { (i : ℕ) → result ≡ Some i → (i < length self.now)
            × (node_at self.now i ≡ node) }
        ensures absent { result ≡ None → (i : ℕ) → i < length self.now
            → node_at self.now i ≢ node }
    {
        place_of(&self.interned_nodes, self.heads.as_slice(), node)
    }

    /// Adds a node at the end, even if an equal one is there, and gives its place.
    pub fn add(&mut self, node: Node) -> Result<usize, AllocError>
        ensures place { IfOk result (λ at. at ≡ length self.old) }
        ensures ok { OnOk result (self.new ≡ self.old ++ node ∷ []) }
        ensures err { OnErr result (self.new ≡ self.old) }
    {
        let at = self.interned_nodes.len();
        add(&mut self.interned_nodes, self.heads.as_mut_slice(), node)?;
        Ok(at)
    }

    /// A copy with one more node, even if an equal one is there, and the place of this node.
    pub fn with(&self, node: Node) -> Result<(Arc<Indexed>, usize), AllocError>
        ensures { IfOk result (λ r. (arc_value r.0 ≡ self.now ++ node ∷ [])
            × (r.1 ≡ length self.now)) }
    {
        let alloc = *self.heads.allocator();
        let mut copy = Indexed {
            interned_nodes: self.interned_nodes.fork()?,
            heads: Vec::from_slice(alloc, self.heads.as_slice())?,
        };
        let at = copy.add(node)?;
        Ok((Arc::new(alloc, copy)?, at))
    }
}

/// Adds a node as `add` does. Where other pools share the nodes, theirs stay as they are.
pub fn add_to(nodes: &mut Arc<Indexed>, node: Node) -> Result<usize, AllocError>
    ensures place { IfOk result (λ at. at ≡ length (arc_value nodes.old)) }
    ensures ok { OnOk result (arc_value nodes.new ≡ arc_value nodes.old ++ node ∷ []) }
    ensures err { OnErr result (arc_value nodes.new ≡ arc_value nodes.old) }
{
    match Arc::get_mut(nodes) {
        Some(alone) => alone.add(node),
        None => {
            let (copy, at) = nodes.with(node)?;
            *nodes = copy;
            Ok(at)
        }
    }
}
