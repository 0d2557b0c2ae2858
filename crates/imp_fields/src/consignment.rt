//! The consignment line of a message: `020-12345675FRAJFK/T10K100MC0.5/CARGO`.

ghost use Rattle.std.specs.Prelude.{◌≡◌, ◌≤◌, length, slice_range, IsSome, IfOk};
ghost use Rattle.imp_fields.specs.Common.{has_number_shape, where_true};
ghost use Rattle.imp_fields.specs.Message.{has_consignment_shape, consignment_of, plain, HasSpans};

use crate::airport::Airport;
use crate::fault::Why;
use crate::line::{Consignment, Token};
use crate::quantity::read_quantity;
use crate::run;
use awb_number::Awb;

/// Returns whether twelve bytes are three digits, a hyphen and eight digits.
fn has_number_shape(number: &[u8; 12]) -> bool
    ensures { result ≡ has_number_shape number.now }
{
    if !run::is_digits(&number[..3]) || number[3] != b'-' {
        return false;
    }
    run::is_digits(&number[4..])
}

/// Returns origin and destination if the line has the form of a consignment line.
#[tactic(auto, using(crate::proofs::ShapeLaws::shape_short, crate::proofs::ShapeLaws::shape_by, crate::proofs::ShapeLaws::route_lost))]
fn route(line: &[u8]) -> Option<(Airport, Airport)>
    ensures shape { result ≡ where_true (has_consignment_shape line.now)
        (slice_range line.now 12 15, slice_range line.now 15 18) }
    ensures bound { IsSome result → 19 ≤ length line.now }
{
    if line.len() < 19 {
        return None;
    }
    let number = line.first_chunk()?;
    if !has_number_shape(number) || line[18] != b'/' {
        return None;
    }
    let origin = Airport::read(&line[12..15])?;
    let destination = Airport::read(&line[15..18])?;
    Some((origin, destination))
}

/// Reads a consignment line, with the positions of its fields.
///
/// # Errors
///
/// In this order:
///
/// - `Consignment`: the line doesn't begin with three digits, a hyphen, eight digits, six letters
///   and a slash.
/// - `Number`: the check digit is wrong.
/// - `Quantity`: the text up to the next slash or the end isn't a quantity.
#[tactic(auto, using(crate::proofs::LineLaws::unshaped, crate::proofs::LineLaws::misnumbered, crate::proofs::LineLaws::uncounted))]
pub fn read_consignment<'a>(line: &'a [u8]) -> Result<Consignment<'a>, Why>
    ensures exact { plain result ≡ consignment_of line.now }
    ensures spans { IfOk result (HasSpans line.now) }
{
    let Some(route) = route(line) else {
        return Err(Why::Consignment);
    };
    let Some(number) = line.first_chunk() else {
        return Err(Why::Consignment);
    };
    let Ok(awb) = Awb::read(number) else {
        return Err(Why::Number);
    };
    let end = 19 + run::before_slash(&line[19..]);
    let quantity_text = Token::new(line, 19, end);
    let Some(quantity) = read_quantity(quantity_text.text) else {
        return Err(Why::Quantity);
    };
    Ok(Consignment {
        awb,
        origin: route.0,
        destination: route.1,
        quantity,
        number_text: Token::new(line, 0, 12),
        origin_text: Token::new(line, 12, 15),
        destination_text: Token::new(line, 15, 18),
        quantity_text,
        goods: Token::new(line, line.len().min(end + 1), line.len()),
    })
}
