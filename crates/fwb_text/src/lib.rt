//! Waybill data messages (Cargo-IMP FWB): a head, a consignment line with a weight, and ignored
//! lines.
#![tactic(auto)]

ghost use Rattle.std.specs.Prelude.{◌≡◌, ℕ, List, None};
ghost use Rattle.imp_fields.specs.Message.{Shipment};
ghost use Rattle.fwb_text.specs.Fwb.{IsFwb, fwb_fault};

mod reading;

use imp_fields::Consignment;
pub use reading::read;

/// A waybill data message: its consignment line. The source of the line's tokens is that line.
#[derive(Clone, Copy)]
pub struct Fwb<'a> {
    pub consignment: Consignment<'a>,
}

/// Lines are a message exactly if they have no fault, and then only one message.
pub fn fwb_law()
    ensures read { (lines : List (List ℕ)) (s : Shipment) → IsFwb lines s → fwb_fault lines ≡ None }
    ensures faultless { (lines : List (List ℕ)) → fwb_fault lines ≡ None → (s : Shipment)
        × IsFwb lines s }
    ensures one { (lines : List (List ℕ)) (s t : Shipment) → IsFwb lines s → IsFwb lines t → s ≡ t }
{}
