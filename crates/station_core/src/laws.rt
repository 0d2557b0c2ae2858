//! Laws about the definitions.
ghost use Rattle.std.specs.Prelude.{◌≡◌, ℕ, List, None};
ghost use Rattle.station_core.specs.Common.{LocalMinute, IsConserved, AreBalances};
ghost use Rattle.station_core.specs.declared.answer.Input.{Input};
ghost use Rattle.station_core.specs.Retries.{IsInput, AreInputs, RetryEvent, ActsOnce};
ghost use Rattle.station_core.specs.Step.{State, IsLawfulState, opening, repeated, step, after_all};

/// Whatever is sent, cut off by a crash and repeated, each accepted input acts once, from any
/// state. A new station has kept no reply.
pub fn retry_law()
    ensures once { (start : State) (events : List RetryEvent) → ActsOnce start events }
    ensures new { (here : List ℕ) (input : Input) → repeated (opening here) input ≡ None }
{}

/// A new station is lawful, and a lawful station stays lawful under a step.
pub fn step_law()
    ensures opening { (here : List ℕ) → IsLawfulState (opening here) }
    ensures step { (s : State) (input : Input) (at : LocalMinute) → IsInput input → IsLawfulState s
        → IsLawfulState (step s input at).state }
{}

/// Every state that inputs lead to from a new station is lawful. For each waybill, what was
/// received or found is in store, departed, delivered, transferred or missing, in pieces and in
/// tenths, and the amounts shown are the balances of its moves.
pub fn run_law()
    ensures lawful { (here : List ℕ) (inputs : List (Input × LocalMinute)) → AreInputs inputs
        → IsLawfulState (after_all (opening here) inputs) }
    ensures conserved { (here : List ℕ) (inputs : List (Input × LocalMinute)) (w : ℕ)
        → AreInputs inputs → IsConserved (after_all (opening here) inputs).cargo.book w }
    ensures shown { (here : List ℕ) (inputs : List (Input × LocalMinute)) (w : ℕ) → AreInputs inputs
        → AreBalances (after_all (opening here) inputs).cargo.book w }
{}
