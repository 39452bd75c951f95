use directory_tree::Change;
use matcher::PolicyChange;
use names::Perms;

/// One event: a step of a session's call, of the keeper, or a publication.
#[derive(Clone, Copy)]
pub enum Event<'a> {
    /// A session begins a call: may this profile open this path for this?
    Begin {
        session: u32,
        profile: &'a [u8],
        path: &'a [u8],
        ask: Perms,
    },
    /// The session enters the published policy, and reads what it has for its profile.
    PolicyRead(u32),
    /// It reads the row's count, to begin its walk.
    CountRead(u32),
    /// It reads the next cell that its walk needs.
    CellRead(u32),
    /// It reads the count again, to end its walk.
    CountCheck(u32),
    /// It answers.
    Answer(u32),
    /// The keeper plans a change, and makes the count odd.
    Open(&'a Change<'a>),
    /// It sets the next cell of its plan.
    CellSet,
    /// It makes the count even: the change is made.
    Close,
    /// These changes of the policy are published, all at once.
    Publish(&'a [PolicyChange]),
}

/// Why an event isn't taken. The machine is unchanged.
#[derive(Clone, Copy, Debug, PartialEq, Eq)]
pub enum StepFault {
    /// The event isn't legal in the machine's present state.
    NotNow,
    /// Out of memory.
    NoMemory,
}
