//! Why a telegram can't be read.
ghost use Rattle.std.specs.Prelude.{◌≡◌, IfOk, IsTrue, codes, string_bytes};
ghost use Rattle.input_reasons.specs.Common.{list_all, is_printable};
ghost use Rattle.input_reasons.specs.Reason.{IsReason, is_unread};

use crate::shown::{printable, reason_line};
use imp_fields::Why;
use shipment_machine::{Detail, Refusal};
use std::alloc::{AllocError, Global};

/// Returns whether a refusal says that a telegram can't be read.
pub fn is_unread(refusal: &Refusal) -> bool
    ensures { result ≡ is_unread refusal.now }
{
    refusal.number == 301 || refusal.number == 302
}

/// A fault of a line of a telegram, or of the whole.
fn fault_words(why: Why) -> &'static str {
    match why {
        Why::Size => "it has more than 65,536 bytes",
        Why::Lines => "it has more than 1,000 lines",
        Why::Byte => "it has a byte that isn't printable ASCII",
        Why::Long => "it has more than 255 bytes",
        Why::Kind => "no line among the first eleven begins with FWB/, FFM/ or FSU/ (302)",
        Why::Ending => {
            "the message ends too early, or goes on after its end: an FFM ends with LAST or CONT, an FWB has at least two lines, an FSU three"
        }
        Why::Head => "expected FWB, FFM or FSU, a slash and one to three digits, such as FFM/8",
        Why::Consignment => {
            "expected a waybill number, two airports and a slash at the start, such as 020-12345675FRAJFK/"
        }
        Why::Number => "the check digit of the waybill number is wrong",
        Why::Quantity =>
            "expected a quantity such as T10K100.0 after the airports: 1 to 9999 pieces, and at most 7 digits and points of weight",
        Why::Weight => "expected a weight in the quantity, as in T10K100.0",
        Why::Date => "expected an existing date, such as 12JAN or 12JAN1030",
        Why::Flight => "expected part, flight, date and airport, such as 1/LH400/12JAN/FRA",
        Why::Order => "consignment before the first point of unloading",
        Why::Memory => "it can't be read",
    }
}

/// The words of a refusal of a telegram that can't be read: which line it is, and what is wrong
/// there.
pub(crate) fn refusal_words(alloc: Global, refusal: &Refusal) -> Result<String, AllocError> {
    let Detail::Line { line, why } = refusal.detail else {
        return String::from_str(alloc, fault_words(Why::Kind));
    };
    let words = fault_words(why);
    match why {
        Why::Size | Why::Lines | Why::Kind | Why::Memory => String::from_str(alloc, words),
        Why::Byte | Why::Long => format!(in alloc; "line {line} of the file: {words}"),
        _ => format!(in alloc; "line {line} of the message: {words}"),
    }
}

/// Why a telegram can't be read, by its refusal: the line, and what is wanted there.
///
/// Returns [`AllocError`] when out of memory.
pub fn telegram_reason(alloc: Global, refusal: &Refusal) -> Result<String, AllocError>
    ensures { IfOk result (λ line. IsReason (codes "telegram: ") (string_bytes line)) }
{
    let words = refusal_words(alloc, refusal)?;
    reason_line(alloc, "telegram: ", words.as_str())
}

/// Returns the words of that reason alone.
///
/// Returns [`AllocError`] when out of memory.
pub fn telegram_fault(alloc: Global, refusal: &Refusal) -> Result<String, AllocError>
    ensures { IfOk result (λ words. IsTrue (list_all is_printable (string_bytes words))) }
{
    let words = refusal_words(alloc, refusal)?;
    printable(alloc, words.as_bytes())
}
