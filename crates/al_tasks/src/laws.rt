// Laws of all lists of events, as contracts of functions without code.
ghost use Rattle.std.specs.Prelude.{◌≡◌, ◌+◌, ℕ, List};
ghost use Rattle.al_link_image.specs.Images as images;
ghost use Rattle.al_tasks.specs.declared.event.Event.{Event};
ghost use Rattle.al_tasks.specs.Task.{Program, World};
ghost use Rattle.al_tasks.specs.World.{after, load};
ghost use Rattle.al_tasks.specs.Runs.{ran};
ghost use Rattle.al_tasks.specs.WorldPrograms.{program_of};
ghost use Rattle.al_tasks.specs.Partitions.{Partition, part_of_run, ran_on};
ghost use Rattle.al_tasks.specs.Exclusion.{Each, EachAfter, Apart, Above, Descends, InsideNothing, WordsAreKept, WordsAreUnread, reached};

/// Exclusion by priorities alone (ARM 9.5.1, D.3). It holds for every image and every list of events from its start, whatever ticks come among the
/// instructions.
///
/// - `apart`: no two tasks are inside one protected object.
/// - `nothing`: a task that isn't ready is inside no object.
/// - `levels`: the ready tasks are in the order of their active priorities, highest first (ARM D.2.2).
/// - `above`: if a task is inside an object, every task ahead of it has a base priority above its active priority.
/// - `words`: the words of an object change only by instructions of the task that is inside it, apart from their first values, which they get before
///   `Go`.
/// - `unread`: they are read only by instructions of the task that is inside it.
pub fn exclusion()
    ensures apart { (image : images.Image) (events : List Event) → EachAfter Apart (reached image events).ready }
    ensures nothing { (image : images.Image) (events : List Event) → Each InsideNothing (reached image events).paused }
    ensures levels { (image : images.Image) (events : List Event) → EachAfter Descends (reached image events).ready }
    ensures above { (image : images.Image) (events : List Event) → EachAfter Above (reached image events).ready }
    ensures words { (image : images.Image) (events : List Event) → images.IsImage image → WordsAreKept (program_of image) (reached image events) }
    ensures unread { (image : images.Image) (events : List Event) → images.IsImage image → WordsAreUnread (program_of image) (reached image events) }
{}

/// Each run is one of these lists of events.
pub fn runs_are_events()
    ensures { (p : Program) (steps n since : ℕ) (w : World) → (events : List Event) × (ran p steps n since w ≡ after p w events) }
{}

/// A run in parts is the same as the run in one: the last part gives the result of the whole, and the same number of instructions since the last
/// tick.
pub fn parts_are_the_run()
    ensures parts { (a b n since : ℕ) (w : Partition) → (let first = part_of_run a n since w in part_of_run b n first.0 first.1) ≡ part_of_run (a + b) n since w }
    ensures run { (steps n : ℕ) (w : Partition) → (part_of_run steps n 0 w).1 ≡ ran_on steps n w }
{}
