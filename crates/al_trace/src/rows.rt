// What changes with an event.
ghost use Rattle.std.specs.Prelude.{◌≡◌};
ghost use Rattle.al_trace.specs.Rows.{has_changed, is_like, is_same_object};

use crate::moment::Moment;
use al_link_image::ImageObject;
use al_tasks::{TaskLook, TaskState};

/// A task after an event that changed what it is doing, and what it did before; `None` if it was just created.
#[derive(Clone, Copy)]
pub(crate) struct Row<'a> {
    pub(crate) moment: Moment,
    pub(crate) before: Option<TaskLook>,
    pub(crate) now: TaskLook,
    /// The task's place: the unit, and the line of its source.
    pub(crate) unit: Option<&'a ImageObject>,
    pub(crate) line: Option<u32>,
}

/// Whether two states are of one kind.
pub(crate) fn is_like(before: TaskState, now: TaskState) -> bool
    ensures { result ≡ is_like before now }
{
    match (before, now) {
        (TaskState::Running, TaskState::Running) => true,
        (TaskState::Ready, TaskState::Ready) => true,
        (TaskState::Created, TaskState::Created) => true,
        (TaskState::Activating, TaskState::Activating) => true,
        (TaskState::Delayed(_), TaskState::Delayed(_)) => true,
        (TaskState::Waiting(_), TaskState::Waiting(_)) => true,
        (TaskState::Ended, TaskState::Ended) => true,
        _ => false,
    }
}

pub(crate) fn is_same_object(before: Option<u32>, now: Option<u32>) -> bool
    ensures { result ≡ is_same_object before now }
{
    match (before, now) {
        (None, None) => true,
        (Some(object), Some(other)) => object == other,
        _ => false,
    }
}

/// Whether a task has another state or priority, or is inside another object.
pub(crate) fn has_changed(before: TaskLook, now: TaskLook) -> bool
    ensures { result ≡ has_changed before now }
{
    let same = is_like(before.state, now.state)
        && before.level == now.level
        && is_same_object(before.object, now.object);
    !same
}

impl Row<'_> {
    /// The object that the task was inside before.
    pub(crate) fn object_before(&self) -> Option<u32> {
        match self.before {
            Some(look) => look.object,
            None => None,
        }
    }

    /// Whether it is inside another object than before.
    pub(crate) fn has_moved(&self) -> bool {
        !is_same_object(self.object_before(), self.now.object)
    }

    /// Whether it has another state than before.
    pub(crate) fn has_turned(&self) -> bool {
        match self.before {
            Some(look) => !is_like(look.state, self.now.state),
            None => true,
        }
    }

    /// Whether it has another priority than before.
    pub(crate) fn has_risen(&self) -> bool {
        match self.before {
            Some(look) => look.level != self.now.level,
            None => true,
        }
    }
}
