//! Laws of the steps of sessions. The functions do nothing: each stands for its contract.
ghost use Rattle.std.specs.Prelude.{◌≡◌, ◌≢◌, ℕ, List};
ghost use Rattle.event_machine.specs.Machine.{Call, Session};
ghost use Rattle.justification.specs.declared.answer.Answer.{Answer};
ghost use Rattle.justification.specs.declared.answer.Answer.TheVariants.{NoEntry};
ghost use Rattle.mediation.specs.Deeds.{Deed};
ghost use Rattle.open_session.specs.Steps.{Answers, Begins, ChecksCount, ReadsCell, ReadsCount, ReadsPolicy};
ghost use Rattle.open_session.specs.Turns.{IsAnswerable, IsBegun, IsPoliced, IsReading, IsResting, IsWalked};
ghost use Rattle.row_rule.specs.declared.view.KeeperView.{KeeperView};
ghost use Rattle.interleaving_core.specs.Table.{StepsIn};

/// A step of one session leaves the others as they are.
pub fn steps_leave_other_sessions()
    ensures begin { (call : Call) (number other : ℕ) (old new : ℕ → Session) → other ≢ number →
        StepsIn (Begins call) number old new → new other ≡ old other }
    ensures policy { (deeds : List Deed) (number other : ℕ) (old new : ℕ → Session) → other ≢ number →
        StepsIn (ReadsPolicy deeds) number old new → new other ≡ old other }
    ensures count { (capacity : ℕ) (keeper : KeeperView) (number other : ℕ) (old new : ℕ → Session) → other ≢ number →
        StepsIn (ReadsCount capacity keeper) number old new → new other ≡ old other }
    ensures cell { (capacity : ℕ) (cells : List ℕ) (number other : ℕ) (old new : ℕ → Session) → other ≢ number →
        StepsIn (ReadsCell capacity cells) number old new → new other ≡ old other }
    ensures check { (keeper : KeeperView) (number other : ℕ) (old new : ℕ → Session) → other ≢ number →
        StepsIn (ChecksCount keeper) number old new → new other ≡ old other }
    ensures answer { (capacity : ℕ) (answer : Answer) (number other : ℕ) (old new : ℕ → Session) → other ≢ number →
        StepsIn (Answers capacity answer) number old new → new other ≡ old other }
{}

/// Each step moves its session on: none is lost, and none is made twice or out of turn.
pub fn steps_move_their_session()
    ensures lost_call { (call : Call) (number : ℕ) (old new : ℕ → Session) →
        IsResting (new number).stage → StepsIn (Begins call) number old new → ⊥ }
    ensures second_call { (call : Call) (number : ℕ) (old new : ℕ → Session) →
        IsBegun (old number).stage → StepsIn (Begins call) number old new → ⊥ }
    ensures policy_read_again { (deeds : List Deed) (number : ℕ) (old new : ℕ → Session) →
        IsBegun (new number).stage → StepsIn (ReadsPolicy deeds) number old new → ⊥ }
    ensures count_read_again { (capacity : ℕ) (keeper : KeeperView) (number : ℕ) (old new : ℕ → Session) →
        IsPoliced (new number).stage → StepsIn (ReadsCount capacity keeper) number old new → ⊥ }
    ensures cell_read_at_rest { (capacity : ℕ) (cells : List ℕ) (number : ℕ) (old new : ℕ → Session) →
        IsResting (old number).stage → StepsIn (ReadsCell capacity cells) number old new → ⊥ }
    ensures unchecked_count { (keeper : KeeperView) (number : ℕ) (old new : ℕ → Session) →
        IsWalked (new number).stage → StepsIn (ChecksCount keeper) number old new → ⊥ }
    ensures answer_amid_a_walk { (capacity : ℕ) (answer : Answer) (number : ℕ) (old new : ℕ → Session) →
        IsReading (old number).stage → StepsIn (Answers capacity answer) number old new → ⊥ }
    ensures second_answer { (capacity : ℕ) (answer : Answer) (number : ℕ) (old new : ℕ → Session) →
        IsAnswerable (new number).stage → StepsIn (Answers capacity answer) number old new → ⊥ }
    ensures no_entry { (capacity number : ℕ) (old new : ℕ → Session) → StepsIn (Answers capacity NoEntry) number old new → ⊥ }
{}
