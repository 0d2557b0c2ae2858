//! The reader of waybill data messages.

ghost use Rattle.std.specs.Prelude.{◌≡◌, ℕ, List, Some, Ok, Err, IfOk, IfErr, IsTrue, is_some};
ghost use Rattle.imp_fields.specs.Message.{consignment_of, shipment_of, HasSpans, line_texts};
ghost use Rattle.fwb_text.specs.Fwb.{IsFwb, weighed_fault, fwb_fault, fwb_shipment, HasFwbSpans};

use crate::Fwb;
use imp_fields::{Consignment, Lines, TextFault, Why, fault_at, is_head, read_consignment};

fn weighed<'a>(line: &'a [u8]) -> Result<Consignment<'a>, Why>
    ensures read { IfOk result (λ c. (consignment_of line.now ≡ Ok (shipment_of c))
        × IsTrue (is_some c.quantity.weight)) }
    ensures fault { IfErr result (λ why. weighed_fault (consignment_of line.now) ≡ Some why) }
    ensures spans { IfOk result (HasSpans line.now) }
{
    match read_consignment(line) {
        Ok(consignment) => {
            if consignment.quantity.weight.is_some() {
                Ok(consignment)
            } else {
                Err(Why::Weight)
            }
        }
        Err(why) => Err(why),
    }
}

/// Reads a message. It allocates nothing, so all faults are those of the lines.
///
/// # Errors
///
/// The fault of the first faulty line:
///
/// - `Head`: the first line isn't `FWB/` and one to three digits.
/// - the fault of a consignment line, for the second line, and then `Weight` if it gives none.
/// - `Ending`, at the last line: there is no second line.
pub fn read<'a>(lines: &Lines<'a>) -> Result<Fwb<'a>, TextFault>
    ensures read { IfOk result (λ m. IsFwb (line_texts lines.now) (fwb_shipment m)) }
    ensures fault { IfErr result (λ told. fwb_fault (line_texts lines.now) ≡ Some told) }
    ensures spans { IfOk result (HasFwbSpans (line_texts lines.now)) }
{
    let lines = lines.lines.as_slice();
    if lines.is_empty() {
        return Err(fault_at(0, Why::Ending));
    }
    if !is_head(b"FWB", lines[0].text) {
        return Err(fault_at(1, Why::Head));
    }
    if lines.len() < 2 {
        return Err(fault_at(1, Why::Ending));
    }
    match weighed(lines[1].text) {
        Ok(consignment) => Ok(Fwb { consignment }),
        Err(why) => Err(fault_at(2, why)),
    }
}
