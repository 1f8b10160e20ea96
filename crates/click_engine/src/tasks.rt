//! The elements that have a task, which runs once in each round.
ghost use Rattle.std.specs.Prelude.{◌≡◌, All, IfOk, MatchOption};
ghost use Rattle.click_engine.specs.kept.Tasks.{class_of_task, places_of, IsTaskIn};
ghost use Rattle.click_engine.specs.Tasks.{AreTasks, HasTask};

use click_base::Class;
use click_classes::Side;
use click_ports::Net;
use std::alloc::{AllocError, Global};

/// The class of an element with a task, which says what the task does.
///
/// perf: stored in the task, so that a round distinguishes three kinds and not thirty classes.
#[derive(Clone, Copy)]
pub enum TaskKind {
    InfiniteSource,
    Unqueue,
    Discard,
}

/// The task of an element: the element's index and its kind.
#[derive(Clone, Copy)]
pub struct Task {
    pub at: usize,
    pub kind: TaskKind,
}

/// Returns the kind of the element's task. Returns `None` if it has no task.
fn kind_of(net: &Net, at: usize, class: Class) -> Option<TaskKind>
    ensures { MatchOption result (HasTask net.now at class → ⊥) (λ kind. HasTask net.now at class × (class_of_task kind ≡ class)) }
{
    match class {
        Class::InfiniteSource => Some(TaskKind::InfiniteSource),
        Class::Unqueue => Some(TaskKind::Unqueue),
        // proof: a guard that compares two options takes minutes to check.
        Class::Discard => match net.pulls(at, Side::Input, 0) {
            Some(true) => Some(TaskKind::Discard),
            _ => None,
        },
        _ => None,
    }
}

/// Returns the tasks of a net's elements, in flat order.
pub(crate) fn tasks_of(alloc: Global, net: &Net) -> Result<Vec<Task>, AllocError>
    ensures places { IfOk result (λ tasks. AreTasks net.now 0 net.now.shapes (places_of tasks.items)) }
    ensures classes { IfOk result (λ tasks. All (IsTaskIn net.now.shapes) tasks.items) }
{
    let mut tasks = Vec::new(alloc);
    for at in 0..net.shapes().len() {
        let Some(kind) = kind_of(net, at, net.shapes()[at].class) else {
            continue;
        };
        tasks.push(Task { at, kind })?;
    }
    Ok(tasks)
}
