//! Laws of how commands end. The functions do nothing: each stands for its contract.
ghost use Rattle.std.specs.Prelude.{◌≡◌, ◌≢◌, ◌++◌, ℕ, Bool, List, Option, Some, false, true};
ghost use Rattle.trace_report.specs.Fault.{fault_status};
ghost use Rattle.trace_report.specs.Output.{Output, finding, whole_answer};
ghost use Rattle.trace_report.specs.Status.{status_code};
ghost use Rattle.trace_report.specs.Streams.{Ends, EndsAnswered, IsTold, Streams, streams};
ghost use Rattle.trace_report.specs.declared.fault.Fault.{Fault};
ghost use Rattle.trace_report.specs.declared.status.Status.{Status};
ghost use Rattle.trace_report.specs.declared.status.Status.TheVariants.{Done, Unmet, BadArguments, Refused, InputFailed, NoMemory};

/// Only `Done` has the code 0, and no fault has the status `Done`.
pub fn zero_is_done()
    ensures code { (status : Status) → status_code status ≡ 0 → status ≡ Done }
    ensures fault { (fault : Fault) → fault_status fault ≡ Done → ⊥ }
{}

/// No command that is to report a fault, or that has written a part of its answer, ends as done; none that has an answer ends as
/// refused; and none with bad arguments goes on to read.
pub fn commands_end_as_they_are_to()
    ensures fault_as_done { (streams : Streams) (output : Output) → output.status ≢ Done → Ends streams output Done → ⊥ }
    ensures answer_as_refused { (streams : Streams) (output : Output) → output.status ≡ Done → Ends streams output Refused → ⊥ }
    ensures unmet { (streams : Streams) (output : Output) → Ends streams output Unmet → ⊥ }
    ensures bad_arguments_read { (streams : Streams) (output : Output) → output.status ≡ BadArguments →
        Ends streams output InputFailed → ⊥ }
    ensures bad_arguments_without_memory { (streams : Streams) (output : Output) → output.status ≡ BadArguments →
        Ends streams output NoMemory → ⊥ }
    ensures part_of_an_answer { (before after bytes : List ℕ) (faults_before faults_after : Option (List ℕ)) → after ≢ before ++ bytes →
        Ends (streams (Some before) (Some after) faults_before faults_after) (whole_answer bytes) Done → ⊥ }
    ensures message_as_done { (before after : Option (List ℕ)) (text : List ℕ) (status : Status) → status ≢ Done →
        IsTold before after text status Done → ⊥ }
{}

/// A question ends as done only with an answer in which nothing is found, and as unmet only with one in which something is.
pub fn questions_end_as_they_are_answered()
    ensures found_as_done { (streams : Streams) (bytes : List ℕ) →
        EndsAnswered streams (λ output. output ≡ finding bytes true) Done → ⊥ }
    ensures nothing_as_unmet { (streams : Streams) (bytes : List ℕ) →
        EndsAnswered streams (λ output. output ≡ finding bytes false) Unmet → ⊥ }
    ensures answer_as_refused { (streams : Streams) (bytes : List ℕ) (found : Bool) →
        EndsAnswered streams (λ output. output ≡ finding bytes found) Refused → ⊥ }
{}
