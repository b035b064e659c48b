//! Reads the lines of cases.

use sf_insn::{BinOp, Test};
use sf_sym::{Node, NodeId};
use std::alloc::{AllocError, Global};

/// A step that facts take.
#[derive(Clone, Copy)]
pub enum Step {
    /// The test of two nodes has this result.
    Learn(usize, Test, usize, bool),
    /// A word lies from the first number to the second.
    Confine(usize, u32, u32),
    /// A word has, on the bits of the first number, those of the second.
    ConfineBits(usize, u32, u32),
    /// The pool gains a node, and the facts take it in.
    Push(Node),
}

/// What is shown of a case.
#[derive(Clone, Copy)]
pub enum Shown {
    /// What its steps leave of the node at this place.
    Node(usize),
    /// What all facts tell after each step.
    All,
}

/// A case.
#[derive(Drop)]
pub struct Case {
    /// The nodes that are pushed to the pool, in order.
    pub nodes: Vec<Node>,
    /// The steps that the facts of the pool take, in order.
    pub steps: Vec<Step>,
    /// What is shown.
    pub shown: Shown,
}

/// A number in decimal digits, or after `0x` in hexadecimal ones; `None` of any other text.
fn number(text: &str) -> Option<u32> {
    match text.strip_prefix("0x") {
        Some(digits) => u32::from_str_radix(digits, 16).ok(),
        None => text.parse::<u32>().ok(),
    }
}

/// The place that a text names.
fn place(text: &str) -> Option<usize> {
    text.parse::<usize>().ok()
}

/// The operation that a word names.
fn op_of(word: &str) -> Option<BinOp> {
    match word {
        "add" => Some(BinOp::Add),
        "sub" => Some(BinOp::Sub),
        "mul" => Some(BinOp::Mul),
        "div" => Some(BinOp::Div),
        "or" => Some(BinOp::Or),
        "and" => Some(BinOp::And),
        "lsh" => Some(BinOp::Lsh),
        "rsh" => Some(BinOp::Rsh),
        "xor" => Some(BinOp::Xor),
        _ => None,
    }
}

/// The node that a text names by its place.
fn id(text: &str) -> Option<NodeId> {
    let place = text.parse::<u32>().ok()?;
    Some(NodeId(place))
}

/// The test that a word names.
fn test_of(word: &str) -> Option<Test> {
    match word {
        "=" => Some(Test::Equal),
        ">" => Some(Test::Greater),
        ">=" => Some(Test::GreaterOrEqual),
        "&" => Some(Test::AnyBit),
        _ => None,
    }
}

/// The node that words name: `const N`, `neg A`, or an operation and its two operands.
fn node_of(words: &[&str]) -> Option<Node> {
    match words {
        ["const", c] => Some(Node::Const(number(c)?)),
        ["neg", a] => Some(Node::Neg(id(a)?)),
        [op, a, b] => Some(Node::Bin(op_of(op)?, id(a)?, id(b)?)),
        _ => None,
    }
}

/// The step that words name: `word W from LOW to HIGH`, `word W bits MASK are VALUE`, `push` and a node, or a test of
/// two nodes and its result.
fn step_of(words: &[&str]) -> Option<Step> {
    match words {
        ["push", node @ ..] => Some(Step::Push(node_of(node)?)),
        ["word", w, "from", low, "to", high] => {
            Some(Step::Confine(place(w)?, number(low)?, number(high)?))
        }
        ["word", w, "bits", mask, "are", value] => {
            Some(Step::ConfineBits(place(w)?, number(mask)?, number(value)?))
        }
        [node, test, other, "true"] => {
            Some(Step::Learn(place(node)?, test_of(test)?, place(other)?, true))
        }
        [node, test, other, "false"] => {
            Some(Step::Learn(place(node)?, test_of(test)?, place(other)?, false))
        }
        _ => None,
    }
}

/// The nodes of a text, with semicolons between them; `None` where a part names no node.
fn nodes_of(alloc: Global, text: &str) -> Result<Option<Vec<Node>>, AllocError> {
    let mut nodes = Vec::new(alloc);
    for part in text.split(';') {
        let words: Vec<&str> = part.split_whitespace().collect(alloc)?;
        if !words.is_empty() {
            let Some(node) = node_of(&words) else {
                return Ok(None);
            };
            nodes.push(node)?;
        }
    }
    Ok(Some(nodes))
}

/// The steps of a text, with semicolons between them; `None` where a part names no step.
fn steps_of(alloc: Global, text: &str) -> Result<Option<Vec<Step>>, AllocError> {
    let mut steps = Vec::new(alloc);
    for part in text.split(';') {
        let words: Vec<&str> = part.split_whitespace().collect(alloc)?;
        if !words.is_empty() {
            let Some(step) = step_of(&words) else {
                return Ok(None);
            };
            steps.push(step)?;
        }
    }
    Ok(Some(steps))
}

/// What a text says is to be shown: `all`, or the place of a node.
fn shown_of(text: &str) -> Option<Shown> {
    match text {
        "all" => Some(Shown::All),
        _ => Some(Shown::Node(place(text)?)),
    }
}

/// The case of a line; `None` where it isn't one.
pub fn case_of(alloc: Global, line: &str) -> Result<Option<Case>, AllocError> {
    let parts: Vec<&str> = line.split('|').collect(alloc)?;
    let [nodes, steps, shown] = parts.as_slice() else {
        return Ok(None);
    };
    let (Some(nodes), Some(steps)) = (nodes_of(alloc, nodes)?, steps_of(alloc, steps)?) else {
        return Ok(None);
    };
    match shown_of(shown.trim()) {
        Some(shown) => Ok(Some(Case {
            nodes,
            steps,
            shown,
        })),
        None => Ok(None),
    }
}
