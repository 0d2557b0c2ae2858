//! Running a command of the command line with a service.
//! Laws of the lines, and of whole answers.

ghost use Rattle.desk_client.specs.Common.{call, Answer, answer_text, answer_reply, number_of, number_text, IsNumber, word, Verb, looks_up, sends, most_bytes, IsListed, report_path, rows_path, Form, Listing, Report, as_text, in_form, posted_command, posted_telegram, got_history, got_holder, got_report, got_waybill, is_key};
ghost use Rattle.desk_client.specs.Done.{HasDone};
ghost use Rattle.std.specs.Prelude.{◌≡◌, ◌⊎◌, ◌++◌, ◌≤◌, [], ℕ, List, Some, None, length, true, false};
ghost use Rattle.desk_client.specs.Printed.{HasFew, reply_line, IsRead};
ghost use Rattle.desk_client.specs.Whole.{has_end, IsCutShort, IsReport, IsWhole};
ghost use Rattle.desk_client.specs.Try.{command_head, telegram_head, get_request, history_path, holder_path, waybill_path};

use crate::ask::Ask;
use crate::looks::{ask_history, ask_number};
use crate::question::{ByService, Question};
use cli_run::{Inputs, RunFault, answer_acts, answer_input, answer_list, answer_takes};
use cli_words::LineCommand;
use reports::{Listing, Report};
use station_core::ByteOut;
use std::alloc::Global;
use std::io::Read;

/// Runs a command of the command line with a service, on the inputs of a reader, and writes what
/// the command writes over a file. For `init`, `migrate`, `serve` and `read` it does nothing.
///
/// `Ok` says whether everything was accepted.
///
/// # Errors
///
/// - [`RunFault::Read`]: the reader fails.
/// - [`RunFault::Write`]: the writer fails or writes 0 bytes.
/// - [`RunFault::Memory`]: memory runs out.
/// - [`RunFault::Store`]: the service didn't answer, or not like a desk. The lines before are
///   answered, and the last input may have acted. Ask again, under the same key: it acts once.
pub fn ask_command<S: Ask, I: Inputs + Read, W: ByteOut, E: ByteOut>(
    alloc: Global,
    service: &mut S,
    command: &LineCommand<'_>,
    reader: &mut I,
    output: &mut W,
    errors: &mut E,
) -> Result<bool, RunFault>
    ensures { HasDone command.now S.talk I.given I.turned E.taken (I.remaining reader.old)
        (call service.old (W.taken output.old) errors.old, reader.old)
        (call service.new (W.taken output.new) errors.new, reader.new) result }
{
    let way = ByService;
    match command {
        LineCommand::Stock => answer_list(&way, alloc, service, reader, output, errors),
        LineCommand::Take(paths) => {
            answer_takes(&way, alloc, service, paths.len(), reader, output, errors)
        }
        LineCommand::Act { verb, key } => {
            let head = Some((*verb, *key));
            answer_input(&way, alloc, service, &head, reader, output, errors)
        }
        LineCommand::Acts => answer_acts(&way, alloc, service, reader, output, errors),
        LineCommand::Outbox(form) => {
            service.ask_rows(alloc, &Listing::All(Report::Pending), *form, output)
        }
        LineCommand::Report(listing, form) => service.ask_rows(alloc, listing, *form, output),
        LineCommand::History(number) => ask_history(alloc, service, number, output),
        LineCommand::Waybill(number) => {
            ask_number(alloc, service, &Question::Waybill(*number), number, output)
        }
        LineCommand::Holder(number) => {
            ask_number(alloc, service, &Question::Holder(*number), number, output)
        }
        LineCommand::Init
        | LineCommand::Migrate
        | LineCommand::Read(_)
        | LineCommand::Serve { .. } => Ok(true),
    }
}

/// The reply of a desk to an input has the line that the command line prints for the same answer.
pub fn lines_law()
    ensures { (a : Answer) → HasFew a → reply_line (answer_reply a) ≡ Some (answer_text a) }
{}

/// The received bytes are at most one whole answer, so the result is a function of them. A whole
/// answer isn't a prefix of another, unless its body ends with a report's last line: so no answer
/// with a length is taken as whole if it was cut. A report of which a prefix was received becomes a
/// whole answer with its rest if that ends like a report, and is cut otherwise.
pub fn whole_law()
    ensures one { (bytes : List ℕ) (s t : ℕ) (b c : List ℕ) → IsWhole bytes s b → IsWhole bytes t c
        → (s ≡ t) × (b ≡ c) }
    ensures cut { (front more : List ℕ) (s t : ℕ) (b c : List ℕ) → IsWhole front s b
        → IsWhole (front ++ more) t c → (more ≡ []) ⊎ (has_end b ≡ true) }
    ensures begun { (f : Form) (bytes body more : List ℕ) → IsReport f bytes body
        → has_end (body ++ more) ≡ true → IsWhole (bytes ++ more) 200 (body ++ more) }
    ensures broken { (f : Form) (bytes body more : List ℕ) → IsReport f bytes body
        → has_end (body ++ more) ≡ false → IsCutShort (bytes ++ more) }
{}

/// A desk reads each request as intended. A command is read as a post of the verb with this key and
/// this body, a telegram as its post with this text and without a key, a waybill, a history and a
/// number as the look-up of that number, and a report, or a part of one, as those rows in that
/// form.
pub fn request_law()
    ensures command { (verb : Verb) (key body : List ℕ) → is_key key ≡ true
        → length body ≤ most_bytes → IsRead (command_head (word verb) key (length body) ++ body)
        (sends (posted_command verb) (length body)) (Some key) body }
    ensures telegram { (text : List ℕ) → length text ≤ most_bytes
        → IsRead (telegram_head (length text) ++ text) (sends posted_telegram (length text)) None
        text }
    ensures report { (name : Report)
        → IsRead (get_request (report_path name) ++ []) (looks_up (got_report (as_text name)))
        None [] }
    ensures waybill { (w : ℕ) → IsNumber w
        → IsRead (get_request (waybill_path w) ++ []) (looks_up (got_waybill (number_text w)))
        None [] × (number_of (number_text w) ≡ Ok w) }
    ensures history { (w : ℕ) → IsNumber w
        → IsRead (get_request (history_path w) ++ []) (looks_up (got_history (number_text w)))
        None [] × (number_of (number_text w) ≡ Ok w) }
    ensures holder { (w : ℕ) → IsNumber w
        → IsRead (get_request (holder_path w) ++ []) (looks_up (got_holder (number_text w)))
        None [] × (number_of (number_text w) ≡ Ok w) }
    ensures rows { (l : Listing) (f : Form) → IsListed l
        → IsRead (get_request (rows_path l f) ++ []) (looks_up (got_report (in_form f l))) None [] }
{
    http_desk::routes_law();
}
