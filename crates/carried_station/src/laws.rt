//! Laws about the definitions.
ghost use Rattle.std.specs.Prelude.{◌≡◌, ℕ, Bool, true, List};
ghost use Rattle.carried_station.specs.Common.{FlightDate, Input, IsLawfulState, LocalMinute, Move, Notice, Open, Place, State, expected_for, missing, notice_text, pieces_of, shed_rows, step, tenths_of};
ghost use Rattle.carried_station.specs.Carried.{Choice, MayCarry, carried, names};
ghost use Rattle.carried_station.specs.Laws.{IsLate, IsSameWaybill, SumsAgree, is_of};

/// The carried part of a lawful state is lawful. Each carried waybill is as it was, and the sums of
/// each place, or of several, are those of the carried and of the left out together.
pub fn carry_law()
    ensures lawful { (s : State) (day : ℕ) (c : Choice) → IsLawfulState s → MayCarry s day c
        → IsLawfulState (carried c s) }
    ensures whole { (s : State) (c : Choice) (w : ℕ) → c.waybill w ≡ true
        → IsSameWaybill w s.cargo (carried c s).cargo }
    ensures pieces { (c : Choice) (book : List Move) (there : Place → Bool)
        → SumsAgree pieces_of c book there }
    ensures tenths { (c : Choice) (book : List Move) (there : Place → Bool)
        → SumsAgree tenths_of c book there }
{}

/// A repeat of an input that the old station accepted, and that the new one doesn't know, changes
/// no cargo.
pub fn late_law()
    ensures { (s : State) (day : ℕ) (c : Choice) (input : Input) (at : LocalMinute)
        → IsLawfulState s → MayCarry s day c → IsLate s c input
        → (step (carried c s) input at).state.cargo ≡ (carried c s).cargo }
{}

/// The text of a status message names its waybill, and that of a manifest each of its waybills.
pub fn message_law()
    ensures { (w : ℕ) (n : Notice) → is_of w n ≡ true → names w (notice_text n) ≡ true }
{}

/// What is in store, missing or still expected is the same in the new file as in the old one.
pub fn unfinished_law()
    ensures shed { (s : State) (day : ℕ) (c : Choice) → MayCarry s day c
        → shed_rows (carried c s).cargo ≡ shed_rows s.cargo }
    ensures missing { (s : State) (day : ℕ) (c : Choice) (w : ℕ) → MayCarry s day c
        → (missing (carried c s).cargo.book w).pieces ≡ (missing s.cargo.book w).pieces }
    ensures expected { (s : State) (day : ℕ) (c : Choice) (f : FlightDate) (w : ℕ)
        → MayCarry s day c → expected_for Open (carried c s).cargo.expected f w
        ≡ expected_for Open s.cargo.expected f w }
{}
