//! What is to be made of trees, and what there is to do for it.

ghost use Rattle.std.specs.Prelude.{◌≡◌, ◌<◌, true};

use crate::index::Id;
use crate::operation::Operation;

/// What is to be made of trees.
#[derive(Clone, Copy, Debug, PartialEq, Eq)]
pub(crate) enum Task {
    /// Where the first node is not 0 the second, else the third.
    Choose(Id, Id, Id),
    /// What the operation makes of the two nodes.
    Merge(Operation, Id, Id),
}

/// What there is to do for a task.
#[derive(Clone, Copy)]
pub(crate) enum Step {
    /// Nothing: its tree is this node.
    Same(Id),
    /// Its tree is the leaf with this number.
    Constant(u64),
    /// Its tree has this variable, and on its sides the trees of these tasks.
    Divided(u16, Task, Task),
}

/// Whether two tasks are the same one.
pub(crate) fn is_same_task(a: Task, b: Task) -> bool
    ensures { result ≡ true → a ≡ b }
{
    a == b
}

/// A number below `places`, which only spreads tasks over the places.
pub(crate) fn place(task: Task, places: usize) -> usize
    requires { 0 < places }
    ensures { result < places }
{
    match task {
        Task::Choose(test, taken, other) => {
            (test as usize * 12582917 + taken as usize * 4256249 + other as usize * 741457) % places
        }
        Task::Merge(_, first, second) => {
            (first as usize * 12582917 + second as usize * 4256249 + 741457) % places
        }
    }
}
