ghost use Rattle.std.specs.Prelude.{◌≡◌, ◌<◌, length, IfSome};
ghost use Rattle.sf_insn.specs.Inputs.{IsInput};
ghost use Rattle.sf_insn.specs.Words.{apply};
ghost use Rattle.sf_insn.specs.declared.input.Input.{Input};
ghost use Rattle.sf_sym.specs.Pool.{node_at, value_of, IsComputed};
ghost use Rattle.sf_sym.specs.Operands.{IsSwappable, constant_operand_of};

use crate::pool::{Node, Pool, constant_of};
use sf_insn::BinOp;

/// The operation of the node at `at`, the place of its operand that is no constant, and its other operand, a constant.
/// Which operand comes first isn't told: callers rely on the result for AND, OR and XOR alone.
pub fn constant_operand(pool: &Pool, at: usize) -> Option<(BinOp, usize, u32)>
    requires { at < length pool.now }
    ensures operand { result ≡ constant_operand_of pool.now (node_at pool.now at) }
    ensures smaller { IfSome result (λ o. o.1 < at) }
    ensures computed { IfSome result (λ o. IsComputed (node_at pool.now at)) }
    ensures value { IfSome result (λ o. (d : Input) → IsInput d → IsSwappable o.0
        → value_of pool.now d at ≡ apply o.0 (value_of pool.now d o.1) o.2) }
{
    match pool.node_at(at) {
        Node::Bin(op, a, b) => match (constant_of(pool.node(a)), constant_of(pool.node(b))) {
            (None, Some(c)) => Some((op, a.0 as usize, c)),
            (Some(c), None) => Some((op, b.0 as usize, c)),
            _ => None,
        },
        _ => None,
    }
}
