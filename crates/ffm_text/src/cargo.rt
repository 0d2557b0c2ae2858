//! The lines after the flight line: points of unloading, consignment lines, and ignored lines.

ghost use Rattle.std.specs.Prelude.{◌≡◌, ◌∷◌, ◌++◌, ◌≤◌, ◌<◌, ◌^◌, ℕ, List, [], length, map, Some, Ok, IfOk, IfErr, OnOk, option_map};
ghost use Rattle.ffm_text.specs.Common.{consignment_of, shipment_of, HasSpans, fault_at, first_fault, IsFaultOf, most_lines};
ghost use Rattle.ffm_text.specs.Ffm.{is_cargo_line, ordered_fault, cargo_fault, cargo_faults, IsScan, AreCargo, texts_of};

use crate::FfmLine;
use crate::reading::unloading_point;
use imp_fields::{Airport, TextFault, Token, Why, fault_at, read_consignment};
use std::alloc::{AllocError, Global};

fn is_cargo_line(line: &[u8]) -> bool
    ensures { result ≡ is_cargo_line line.now }
{
    match line {
        [first, second, third, b'-', ..] => {
            first.is_ascii_digit() && second.is_ascii_digit() && third.is_ascii_digit()
        }
        _ => false,
    }
}

/// Reads a consignment line.
///
/// Its errors are those of a consignment line, and then `Order` if there is no point of unloading
/// above it.
fn cargo_line<'a>(point: Option<Airport>, line: &'a [u8]) -> Result<FfmLine<'a>, Why>
    ensures read { IfOk result (λ l. (consignment_of line.now ≡ Ok (shipment_of l.consignment))
        × (point ≡ Some l.unload)) }
    ensures fault { IfErr result (λ why. ordered_fault (consignment_of line.now) point ≡ Some why) }
    ensures spans { IfOk result (λ l. HasSpans line.now l.consignment) }
{
    match read_consignment(line) {
        Ok(consignment) => match point {
            Some(unload) => Ok(FfmLine {
                unload,
                consignment,
            }),
            None => Err(Why::Order),
        },
        Err(why) => Err(why),
    }
}

/// The state of a scan over the lines after a manifest's flight line.
#[derive(Drop)]
pub(crate) struct ManifestScan<'a> {
    /// The last point of unloading.
    point: Option<Airport>,
    /// The consignment lines.
    cargo: Vec<FfmLine<'a>>,
}

impl<'a> ManifestScan<'a> {
    /// Starts a scan, with room for `room` lines.
    fn new(alloc: Global, room: usize) -> Result<ManifestScan<'a>, AllocError>
        ensures { IfOk result (IsScan []) }
    {
        Ok(ManifestScan {
            point: None,
            cargo: Vec::with_capacity(alloc, room)?,
        })
    }

    /// Reads a line that must be a consignment line.
    fn take(&mut self, number: u32, line: &'a [u8]) -> Result<(), TextFault>
        ensures cargo { (above : List (List ℕ)) → IsScan above self.old
            → OnOk result (AreCargo (above ++ line.now ∷ []) self.new.cargo.items) }
        ensures point { OnOk result (self.new.point ≡ self.old.point) }
        ensures fault { (above : List (List ℕ)) → IsScan above self.old
            → IfErr result (IsFaultOf (option_map (fault_at number) (cargo_fault above line.now))) }
    {
        if !is_cargo_line(line) {
            return Ok(());
        }
        let cargo = match cargo_line(self.point, line) {
            Ok(cargo) => cargo,
            Err(why) => return Err(fault_at(number, why)),
        };
        match self.cargo.push(cargo) {
            Ok(()) => Ok(()),
            Err(_) => Err(fault_at(0, Why::Memory)),
        }
    }

    /// Scans the next line.
    fn see(&mut self, number: u32, line: &'a [u8]) -> Result<(), TextFault>
        ensures seen { (above : List (List ℕ)) → IsScan above self.old
            → OnOk result (IsScan (above ++ line.now ∷ []) self.new) }
        ensures fault { (above : List (List ℕ)) → IsScan above self.old
            → IfErr result (IsFaultOf (option_map (fault_at number) (cargo_fault above line.now))) }
    {
        self.take(number, line)?;
        if let Some(point) = unloading_point(line) {
            self.point = Some(point);
        }
        Ok(())
    }
}

/// Returns the consignment lines among the lines after a flight line. The first of these is line 3.
///
/// The error is the fault of the first faulty line: that of a consignment line, or `Order`.
/// `Memory`, line 0, says nothing about the lines.
pub(crate) fn cargo<'a>(alloc: Global, lines: &[Token<'a>]) -> Result<Vec<FfmLine<'a>>, TextFault>
    requires { length lines.now ≤ most_lines }
    ensures read { IfOk result (λ cargo. AreCargo (texts_of lines.now) cargo.items) }
    ensures fault { IfErr result
        (IsFaultOf (first_fault 3 (cargo_faults [] (texts_of lines.now)))) }
{
    let Ok(mut seen) = ManifestScan::new(alloc, lines.len()) else {
        return Err(fault_at(0, Why::Memory));
    };
    let mut number = 2;
    for line in lines {
        number += 1;
        if let Err(fault) = seen.see(number, line.text) {
            return Err(fault);
        }
    }
    Ok(seen.cargo)
}
