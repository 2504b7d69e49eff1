// Lists of tasks: the ready ones in the order of their dispatch, and the paused ones by number.
ghost use Rattle.std.specs.Prelude.{ℤ, int_lt, true, false, ◌≡◌, ◌+◌, ◌<◌, ◌≤◌, ◌≡◌, nat_le, nat_lt, not, insert, vec_len, vec_capacity, length};
ghost use Rattle.std.specs.List.{list_any, list_all};
ghost use Rattle.al_tasks.specs.Task.{is_waiting, is_ended, is_delayed, is_due};
ghost use Rattle.al_tasks.specs.Bursts.{is_any_due};
ghost use Rattle.al_tasks.specs.World.{at_head, at_tail, by_number, passing, failing, all_at_tail};
ghost use Rattle.al_tasks.specs.Queues.{first_place, is_wanted};

use crate::Pause;
use crate::tasks::Task;

/// Which of the paused tasks become ready.
#[derive(Clone, Copy)]
pub(crate) enum Wanted {
    /// The ones that are created.
    Created,
    /// The one that waits for activations to end.
    Activating,
    /// The ones that are delayed until this moment or an earlier one.
    Due(i64),
    /// The ones that wait at the entry of the object of this number.
    Waiting(u32),
}

impl Wanted {
    pub(crate) fn fits(&self, pause: &Pause) -> bool
        ensures { result ≡ is_wanted self.now pause.now }
    {
        match (self, pause) {
            (Wanted::Created, Pause::Created) => true,
            (Wanted::Activating, Pause::Activating) => true,
            (Wanted::Due(clock), Pause::Delayed(moment)) => *moment <= *clock,
            (Wanted::Waiting(object), Pause::Waiting(at)) => *at == *object,
            _ => false,
        }
    }
}

/// Puts a task at a place of a list that has room for it.
pub(crate) fn put(queue: &mut Vec<Task>, place: usize, task: Task)
    requires place { place ≤ vec_len queue.old }
    requires room { vec_len queue.old < vec_capacity queue.old }
    ensures items { queue.new.items ≡ insert queue.old.items place task }
    ensures len { vec_len queue.new ≡ vec_len queue.old + 1 }
    ensures capacity { vec_capacity queue.old ≤ vec_capacity queue.new }
{
    let _ = queue.insert(place, task);
}

fn head_place(queue: &[Task], level: u32) -> usize
    ensures value { result ≡ first_place (λ u. nat_le u.active level) queue.now }
    ensures within { result ≤ length queue.now }
{
    for (place, task) in queue.iter().enumerate() {
        if task.active <= level {
            return place;
        }
    }
    queue.len()
}

fn tail_place(queue: &[Task], level: u32) -> usize
    ensures value { result ≡ first_place (λ u. not (nat_le level u.active)) queue.now }
    ensures within { result ≤ length queue.now }
{
    for (place, task) in queue.iter().enumerate() {
        if task.active < level {
            return place;
        }
    }
    queue.len()
}

fn number_place(queue: &[Task], number: u32) -> usize
    ensures value { result ≡ first_place (λ u. nat_lt number u.number) queue.now }
    ensures within { result ≤ length queue.now }
{
    for (place, task) in queue.iter().enumerate() {
        if number < task.number {
            return place;
        }
    }
    queue.len()
}

/// Puts a task at the head of its level.
pub(crate) fn put_at_head(queue: &mut Vec<Task>, task: Task)
    requires { vec_len queue.old < vec_capacity queue.old }
    ensures items { queue.new.items ≡ at_head task queue.old.items }
    ensures len { vec_len queue.new ≡ vec_len queue.old + 1 }
    ensures capacity { vec_capacity queue.old ≤ vec_capacity queue.new }
{
    let level = task.level();
    let place = head_place(queue, level);
    put(queue, place, task);
}

/// Puts a task at the tail of its level.
pub(crate) fn put_at_tail(queue: &mut Vec<Task>, task: Task)
    requires { vec_len queue.old < vec_capacity queue.old }
    ensures items { queue.new.items ≡ at_tail task queue.old.items }
    ensures len { vec_len queue.new ≡ vec_len queue.old + 1 }
    ensures capacity { vec_capacity queue.old ≤ vec_capacity queue.new }
{
    let level = task.level();
    let place = tail_place(queue, level);
    put(queue, place, task);
}

/// Puts a task into a list that is ordered by number.
pub(crate) fn put_by_number(queue: &mut Vec<Task>, task: Task)
    requires { vec_len queue.old < vec_capacity queue.old }
    ensures items { queue.new.items ≡ by_number task queue.old.items }
    ensures len { vec_len queue.new ≡ vec_len queue.old + 1 }
    ensures capacity { vec_capacity queue.old ≤ vec_capacity queue.new }
{
    let number = task.number();
    let place = number_place(queue, number);
    put(queue, place, task);
}

/// Makes the wanted tasks ready, in the order of their numbers, each at the tail of its level.
pub(crate) fn release(ready: &mut Vec<Task>, paused: &mut Vec<Task>, wanted: Wanted)
    requires { vec_len ready.old + vec_len paused.old ≤ vec_capacity ready.old }
    ensures ready { ready.new.items ≡ all_at_tail (passing (is_wanted wanted) paused.old.items) ready.old.items }
    ensures paused { paused.new.items ≡ failing (is_wanted wanted) paused.old.items }
{
    let mut place = 0;
    'tasks: while place < paused.len() {
        let task = &paused[place];
        if wanted.fits(&task.pause) {
            let task = paused.remove(place);
            put_at_tail(ready, task);
        } else {
            place += 1;
        }
    }
}

/// Whether a task waits at the entry of an object.
pub(crate) fn has_caller(paused: &[Task], object: u32) -> bool
    ensures { result ≡ list_any (λ u. is_waiting object u.pause) paused.now }
{
    for task in paused {
        if let Pause::Waiting(at) = task.pause {
            if at == object {
                return true;
            }
        }
    }
    false
}

/// Whether some task is delayed.
pub(crate) fn has_delayed(paused: &[Task]) -> bool
    ensures { result ≡ list_any (λ u. is_delayed u.pause) paused.now }
{
    for task in paused {
        if let Pause::Delayed(_) = task.pause {
            return true;
        }
    }
    false
}

/// The given moment, or the one until which a task is delayed if that is earlier.
fn sooner(moment: i64, pause: &Pause) -> i64
    ensures { (clock : ℤ) → int_lt clock result ≡ true → (int_lt clock moment ≡ true) × (is_due clock pause.now ≡ false) }
{
    let Pause::Delayed(other) = pause else {
        return moment;
    };
    moment.min(*other)
}

/// The earliest moment until which a task is delayed; the last of all moments if no task is delayed.
pub(crate) fn earliest(paused: &[Task]) -> i64
    ensures { (clock : ℤ) → int_lt clock result ≡ true → is_any_due clock paused.now ≡ false }
{
    let mut least = i64::MAX;
    for task in paused {
        least = sooner(least, &task.pause);
    }
    least
}

/// Whether all tasks have ended.
pub(crate) fn have_ended(paused: &[Task]) -> bool
    ensures { result ≡ list_all (λ u. is_ended u.pause) paused.now }
{
    for task in paused {
        let Pause::Ended = task.pause else {
            return false;
        };
    }
    true
}
