//! Laws about the definitions.

ghost use Rattle.std.specs.Prelude.{◌≡◌, ◌↔◌, ◌≤◌, ◌-◌, ℕ, List, Some, IsTrue};
ghost use Rattle.imp_fields.specs.Fields.{share_of, Designator, IsDesignator, flight_text, same_flight};
ghost use Rattle.imp_fields.specs.declared.amount.Quantity.{Quantity};
ghost use Rattle.imp_fields.specs.Message.{quantity_of, IsQuantity};

/// A text is read as a quantity exactly if its parts make that quantity.
pub fn quantity_law()
    ensures parts { (text : List ℕ) (q : Quantity) → quantity_of text ≡ Some q → IsQuantity text q }
    ensures read { (text : List ℕ) (q : Quantity) → IsQuantity text q → quantity_of text ≡ Some q }
{}

/// Two flights are equal if their carriers, numbers and letters are, and also if they are written
/// alike.
pub fn flight_law()
    ensures same { (a b : Designator) → IsTrue (same_flight a b) ↔ (a ≡ b) }
    ensures written { (a b : Designator) → IsDesignator a → IsDesignator b
        → flight_text a ≡ flight_text b → a ≡ b }
{}

/// The share of all pieces is the whole weight. If there is at least a tenth for each piece, a part
/// and the rest have a tenth for each of their pieces.
pub fn share_law()
    ensures whole { (pieces tenths : ℕ) → 1 ≤ pieces → share_of pieces tenths pieces ≡ tenths }
    ensures part { (pieces tenths part : ℕ) → 1 ≤ pieces → pieces ≤ tenths
        → part ≤ share_of pieces tenths part }
    ensures within { (pieces tenths part : ℕ) → pieces ≤ tenths → part ≤ pieces
        → share_of pieces tenths part ≤ tenths }
    ensures rest { (pieces tenths part : ℕ) → pieces ≤ tenths → part ≤ pieces
        → pieces - part ≤ tenths - share_of pieces tenths part }
{}
