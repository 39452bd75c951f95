//! Laws of legal runs.
ghost use Rattle.std.specs.Prelude.{◌≡◌, ◌≤◌, ℕ, List, [], ◌∷◌, ◌++◌, Option, Some, None, Contains, length};
ghost use mathlib.Core.List.{IsPrefix};
ghost use Rattle.justification.specs.declared.answer.Answer.{Answer};
ghost use Rattle.row_rule.specs.Row.{target_of};
ghost use Rattle.row_plan.specs.Changes.{EncodesChanges};
ghost use Rattle.event_machine.specs.Machine.{Call, Event, Machine};
ghost use Rattle.event_machine.specs.Machine.Event.{begin, read_policy, read_cell, answer, open_change, publish};
ghost use Rattle.event_machine.specs.Takes.{Answers, Takes};
ghost use Rattle.event_machine.specs.Runs.{Runs, Legal};
ghost use Rattle.event_machine.specs.Rule.{KeepsRule};
ghost use Rattle.event_machine.specs.Right.{IsRight, IsToldIn};
ghost use Rattle.event_machine.specs.Lawful.{IsLawful, TakesMemory};
ghost use Rattle.directory_tree.specs.declared.change.Change.{Change};
ghost use Rattle.mediation.specs.Deeds.{Deed};
ghost use Rattle.names.specs.declared.errors.Errno.TheVariants.{EINVAL};
ghost use Rattle.names.specs.declared.verdict.Verdict.TheVariants.{NoRule};
ghost use Rattle.justification.specs.declared.answer.Answer.TheVariants.{Judged, Failed, NoProfile, Busy};
ghost use Rattle.event_machine.specs.Examples.{to_read, nothing, unpublished_call, whole_call, busy_call, overtaken_call};
ghost use Rattle.event_machine.specs.Deeds.{opened_by, closed_by, published_by};

/// Every answer of a legal run is right: it is justified by the changes of the tree and of the policy made until then, at a version
/// of each that was current at an event of its own call. In whatever order the steps of opens, of the keeper and of publications
/// happen, an open judged by a compiled profile answers what its rules say about a name that its file had.
pub fn answers_are_right()
    ensures { (capacity : ℕ) (events : List Event) (answers : List (ℕ × Answer)) (m : Machine) (s : ℕ) (told : Answer) (new : Machine) →
        Legal capacity events answers m → Takes m (answer s) (Some told) new → IsRight capacity events m s told }
{}

/// Each answer in the list of a legal run's answers was given by one of its events, and was right there.
pub fn listed_answers_are_right()
    ensures { (capacity : ℕ) (events : List Event) (answers before after : List (ℕ × Answer)) (m : Machine) (s : ℕ) (told : Answer) →
        Legal capacity events answers m → answers ≡ before ++ (s, told) ∷ after → IsToldIn capacity events s told }
{}

/// There is one answer to a call: after a legal run there is one way to answer a session, and one machine that results.
pub fn answers_are_the_only_ones()
    ensures { (capacity : ℕ) (events : List Event) (answers : List (ℕ × Answer)) (m : Machine) (s : ℕ) (told other : Answer)
        (new another : Machine) →
        Legal capacity events answers m → Answers m s told new → Answers m s other another → (told ≡ other) × (new ≡ another) }
{}

/// A session begins a call only once the one before was answered: between two beginnings of its calls it answers. So at most one of
/// its calls is open at a time.
pub fn one_call_at_a_time()
    ensures { (capacity : ℕ) (before middle after : List Event) (answers : List (ℕ × Answer)) (m : Machine) (s : ℕ) (call next : Call) →
        Legal capacity (before ++ begin s call ∷ middle ++ begin s next ∷ after) answers m → Contains middle (answer s) }
{}

/// A legal run keeps the rule of the row, and while no change is being made the row encodes the changes that were made.
pub fn runs_keep_rule()
    ensures rule { (capacity : ℕ) (events : List Event) (answers : List (ℕ × Answer)) (m : Machine) →
        Legal capacity events answers m → KeepsRule m }
    ensures encodes { (capacity : ℕ) (events : List Event) (answers : List (ℕ × Answer)) (m : Machine) →
        Legal capacity events answers m → m.keeper.pending ≡ None → EncodesChanges m.capacity m.keeper.cells m.keeper.history }
{}

/// A legal step keeps the rule of the row, and so does a run of legal steps, wherever they begin.
pub fn steps_keep_rule()
    ensures step { (old : Machine) (event : Event) (told : Option Answer) (new : Machine) →
        KeepsRule old → Takes old event told new → KeepsRule new }
    ensures run { (from : Machine) (events : List Event) (answers : List (ℕ × Answer)) (to : Machine) →
        KeepsRule from → Runs from events answers to → KeepsRule to }
{}

/// The changes of the tree, the open one last, are those that the events opened, and as many were made as the events closed. The
/// policy's changes are those that the events published.
pub fn runs_do_what_events_say()
    ensures tree { (capacity : ℕ) (events : List Event) (answers : List (ℕ × Answer)) (m : Machine) →
        Legal capacity events answers m → target_of m.keeper.history m.keeper.pending ≡ opened_by events }
    ensures version { (capacity : ℕ) (events : List Event) (answers : List (ℕ × Answer)) (m : Machine) →
        Legal capacity events answers m → length m.keeper.history ≡ closed_by events }
    ensures policy { (capacity : ℕ) (events : List Event) (answers : List (ℕ × Answer)) (m : Machine) →
        Legal capacity events answers m → m.deeds ≡ published_by events }
{}

/// No version decreases, and what was done isn't undone; the capacity stays the same.
pub fn versions_never_fall()
    ensures tree { (from : Machine) (events : List Event) (answers : List (ℕ × Answer)) (to : Machine) →
        Runs from events answers to → IsPrefix from.keeper.history to.keeper.history }
    ensures policy { (from : Machine) (events : List Event) (answers : List (ℕ × Answer)) (to : Machine) →
        Runs from events answers to → IsPrefix from.deeds to.deeds }
    ensures capacity { (from : Machine) (events : List Event) (answers : List (ℕ × Answer)) (to : Machine) →
        Runs from events answers to → to.capacity ≡ from.capacity }
{}

/// A legal run that is continued by legal steps is legal.
pub fn steps_go_on_runs()
    ensures { (capacity : ℕ) (events later : List Event) (answers more : List (ℕ × Answer)) (m to : Machine) →
        Legal capacity events answers m → Runs m later more to → Legal capacity (events ++ later) (answers ++ more) to }
{}

/// Runs that are legal, and how they are answered: a profile that isn't published; one that is, without rules; a call that asks for
/// nothing; and, where the row has room for an entry, calls during which the keeper opens a change, before and after the count is
/// read.
pub fn calls_are_answered()
    ensures no_profile { (capacity : ℕ) → (m : Machine) × Legal capacity unpublished_call ((1, NoProfile 0) ∷ []) m }
    ensures judged { (capacity : ℕ) → (m : Machine) × Legal capacity (whole_call to_read) ((1, Judged (NoRule to_read) 1 0 1) ∷ []) m }
    ensures failed { (capacity : ℕ) → (m : Machine) × Legal capacity (whole_call nothing) ((1, Failed EINVAL 0) ∷ []) m }
    ensures busy { (capacity : ℕ) → 1 ≤ capacity → (m : Machine) × Legal capacity busy_call ((1, Busy 1 1) ∷ []) m }
    ensures overtaken { (capacity : ℕ) → 1 ≤ capacity → (m : Machine) × Legal capacity overtaken_call ((1, Busy 0 1) ∷ []) m }
{}

/// Where memory may be refused, the event is legal: a call that may begin, a session that reads its policy, and a publication.
/// A cell that may be read needs memory, and so does a change that may be opened.
pub fn legal_events_take_memory()
    ensures begin { (m : Machine) (s : ℕ) (call : Call) → TakesMemory m (begin s call) → IsLawful m (begin s call) }
    ensures policy { (m : Machine) (s : ℕ) → TakesMemory m (read_policy s) → IsLawful m (read_policy s) }
    ensures publication { (m : Machine) (deeds : List Deed) → TakesMemory m (publish deeds) → IsLawful m (publish deeds) }
    ensures cell { (m : Machine) (s : ℕ) → IsLawful m (read_cell s) → TakesMemory m (read_cell s) }
    ensures change { (m : Machine) (change : Change) → IsLawful m (open_change change) → TakesMemory m (open_change change) }
{}
