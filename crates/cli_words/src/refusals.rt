//! Help on a refusal, a fault of a file or a verb: `help 203`, `help 603`, `help receive`.

use crate::fault::{WordsFault, usage_fault};
use crate::words::{Request, sort_words, verb_help};
use desk_commands::Verb;
use std::alloc::{AllocError, Global};
use std::convert::AsStr;

/// A row for each refusal: its number, its meaning, its detail and what to do. docs/STATION.md has
/// the same texts in its table of refusals.
const REFUSALS: &str = "\
101 | already in stock | the lowest such number | take in the numbers before it and after it as \
    runs of their own
102 | not at the desk | the lowest such number | look it up with `holder`: it is with an agent, \
    used, void, or was never taken in
103 | not with that agent | the lowest such number | look it up with `holder`, and return it for \
    the agent who has it
104 | used, void or not in stock | the lowest such number | a used or void number stays so; take a \
    number in before you void it
105 | the count isn't 1 to 1,000,000, or the run goes past serial 9999999 | no detail | split the \
    run
201 | unknown waybill | the waybill | `book` it, or take its FWB or FFM
202 | already declared, and it has moves | the waybill | `amend` the declaration
203 | the number is at the desk, or void | the waybill | issue the number to an agent first; if it \
    is void, check the number
204 | wrong station: Receive and Withdraw if the origin isn't here, Amend if pieces were taken \
    over and the origin would be here or no longer here, Manifest and Reroute if it unloads here, \
    Notify and Deliver if the destination isn't here | the waybill; for Reroute the flight | check \
    the airports of the waybill and of the command
205 | more received than declared | the waybill | `book` it again with more pieces while it has no \
    moves; later `amend` it
206 | not enough free pieces; for Notify, none | the free pieces | use at most that many; receive, \
    check in or offload the rest first
207 | not that many on the flight | the waybill | see what was built on the flight in `report \
    movements`
208 | the flight is closed | the flight | build it on another flight
209 | nothing is on that flight | the flight | check the flight and its day; manifest something on \
    it first
210 | the consignee isn't notified | the waybill | `notify` the consignee first
211 | not expected on that flight | the waybill | check the flight and its day, and take its FFM \
    first; book pieces that come before their FFM with `found`, and `strike` them off when it \
    comes
212 | already checked in, or struck | the waybill | report what differs with `found` or `missing`
213 | that part of the manifest was already taken | the part | have lines that it lacked sent as a \
    further part, with another number; a corrected part can't replace the first
214 | a line's waybill is already checked in on that flight, or struck | the waybill | its pieces \
    are counted; report what differs with `found` or `missing`. The part is refused whole: have \
    its other lines sent as a part of their own
217 | past 9,999 pieces or 999,999 tenths: declared, expected, or received and found together | \
    the waybill | check the weight; of a manifest, take the FWB or `book` the waybill first; \
    otherwise split the shipment over two waybills
218 | the flight unloads elsewhere | the flight | a flight has one point of unloading; use that \
    one, or `reroute` the flight
219 | 500 waybills are already on the flight | the flight | build the rest on another flight
220 | the shipment ends here: Transfer if the destination is here | the waybill | `deliver` it to \
    the consignee
221 | the flight isn't noted here | the flight | check the flight and its day; its first \
    `manifest` notes it
222 | something is built on the flight | the flight | `offload` it first
223 | more pieces or tenths would go back than are received now | the waybill | withdraw fewer \
    pieces; pieces that were found can't go back to the shipper
224 | not that many expected on that flight | the waybill | look it up in `report expected`; what \
    was struck is no longer expected
225 | not all pieces that came in are free | the waybill | `offload` what is built, and find what \
    is missing; what has left keeps its declaration
226 | what is here doesn't fit in the new pieces and weight | the waybill | declare at least what \
    is here, and a tenth of a kilogram for each further piece
301 | the telegram can't be read, or a manifest's date doesn't exist | the line and the word of \
    the fault, as `2 date`; for `byte` and `long` lines count from the start of the file, for all \
    others from the line that names the message | have the message sent again with that line \
    corrected
302 | unknown kind of telegram | no detail | only FWB, FFM and FSU are read
401 | below what is confirmed, or past the last message | the last confirmed, and the last message \
    | confirm a number between the two
402 | more than 4,294,967,295 moves, trail lines or messages; tested after all other refusals | no \
    detail | the station is full: start a new one
501 | the key was used for another command; tested before all other refusals | no detail | if you \
    mean a new command, use a new key";

/// A row for each fault of a station's file, in the same form. docs/OPERATING.md says more.
const FAULTS: &str = "\
601 | a table is missing or has an unlawful row, and the program never writes one | the table | find \
    out who else wrote the file, or whether the disk failed; keep the file, restore the last \
    back-up, and send again what came since
602 | the file is missing or empty, or has no station | no detail | check its name; `init` makes a \
    station
603 | the file is of another version | its version | 1: copy the file, then `migrate` upgrades it; \
    2, from `migrate`: it already is of version 2; another number: use the program that made it
604 | from `init`: the file has a station, or something with one of its names | no detail | leave \
    out `init`, or choose another file";

/// Returns the text of the row with this number.
fn row_on(alloc: Global, rows: &str, kind: &str, text: &str) -> Result<Option<String>, AllocError> {
    for row in rows.lines() {
        if let Some((number, texts)) = row.split_once(" | ")
            && text.parse::<u16>() == number.parse::<u16>()
            && let Some((meaning, texts)) = texts.split_once(" | ")
            && let Some((detail, advice)) = texts.split_once(" | ")
        {
            let help = format!(in alloc;
                "{kind} {number}: {meaning}\nDetail: {detail}\nWhat to do: {advice}\n"
            )?;
            return Ok(Some(help));
        }
    }
    Ok(None)
}

/// Returns the help on the refusal or the fault with this number, or the usage if there is none.
fn help_on(alloc: Global, text: &str) -> Result<WordsFault, AllocError> {
    if let Some(help) = row_on(alloc, REFUSALS, "refused", text)? {
        return Ok(WordsFault::Help(help));
    }
    if let Some(help) = row_on(alloc, FAULTS, "fault", text)? {
        return Ok(WordsFault::Help(help));
    }
    let told = format!(in alloc; "unknown refusal '{text}'; expected a number such as 203")?;
    Ok(usage_fault(alloc, told.as_str()))
}

/// Returns whether words are the program's name and options: a command may follow.
fn are_options<S: AsStr>(alloc: Global, words: &[S]) -> Result<bool, AllocError> {
    let mut asked = Vec::new(alloc);
    for word in words {
        asked.push(word.as_str())?;
    }
    asked.push("stock")?;
    match sort_words(alloc, asked.as_slice()) {
        Ok(words) => Ok(matches!(words.request, Request::Stock)),
        Err(_) => Ok(false),
    }
}

/// Fails with the help that the words request: `help` and a number or a verb, after the program's
/// name and its options.
pub(crate) fn number_help<S: AsStr>(alloc: Global, words: &[S]) -> Result<(), WordsFault> {
    let [front @ .., help, about] = words else {
        return Ok(());
    };
    let about = about.as_str();
    if help.as_str() != "help" || about.is_empty() || !are_options(alloc, front)? {
        return Ok(());
    }
    if about.bytes().all(|byte| byte.is_ascii_digit()) {
        return Err(help_on(alloc, about)?);
    }
    match Verb::read(about.as_bytes()) {
        Some(verb) => Err(verb_help(alloc, verb)),
        None => Ok(()),
    }
}
