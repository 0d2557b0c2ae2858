//! Laws about the definitions only.
ghost use Rattle.std.specs.Prelude.{◌≡◌, ℕ, List};
ghost use Rattle.shipment_machine.specs.declared.moves.Move.{Move};
ghost use Rattle.shipment_machine.specs.Book.{pieces_of, tenths_of, waybills_of, has_moves};
ghost use Rattle.shipment_machine.specs.Cargo.{Cargo, opening_cargo, IsAscending, is_in};
ghost use Rattle.shipment_machine.specs.Lawful.{IsLawful};
ghost use Rattle.shipment_machine.specs.Laws.{AreBalances, BalancesAgree, IsConserved, KeepsLawful};

/// In any list of moves, what was received or found of a waybill is in store or beyond the store.
pub fn balance_law()
    ensures pieces { (book : List Move) (w : ℕ) → BalancesAgree pieces_of book w }
    ensures tenths { (book : List Move) (w : ℕ) → BalancesAgree tenths_of book w }
{}

/// In a lawful state the amounts agree too: what was received or found is in store or beyond the
/// store, in pieces and in tenths, and no amount is negative.
pub fn conservation_law()
    ensures { (s : Cargo) (w : ℕ) → IsLawful s → IsConserved s.book w }
{}

/// An empty station is lawful.
pub fn opening_law()
    ensures { (here : List ℕ) → IsLawful (opening_cargo here) }
{}

/// Every command leaves a lawful state lawful.
pub fn lawful_law()
    ensures { KeepsLawful }
{}

/// The waybills of a book are those of its moves, in ascending order without repeats.
pub fn waybills_law()
    ensures ascending { (book : List Move) → IsAscending (waybills_of book) }
    ensures moved { (book : List Move) (w : ℕ) → is_in w (waybills_of book) ≡ has_moves book w }
{}

/// In a lawful state each amount shown of a waybill is a balance of the book. For the received and
/// found amounts, which came from outside, the sign is reversed.
pub fn amounts_law()
    ensures { (s : Cargo) (w : ℕ) → IsLawful s → AreBalances s.book w }
{}
