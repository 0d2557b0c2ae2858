//! Running files of cases.
use crate::case::read_case;
use std::alloc::Global;
use std::io::Print;
use std::{fs, io};

pub trait Answers {
    /// Returns the result of one case as text; `None` if memory runs out or the case is unknown.
    fn answer(&mut self, asked: &str, text: &[u8]) -> Option<String>;
}

fn fault_of<A: Answers>(
    alloc: Global,
    answers: &mut A,
    line: &str,
) -> Result<Option<String>, io::Error> {
    let Some(case) = read_case(alloc, line) else {
        return Ok(Some(String::from_str(alloc, "not a case")?));
    };
    let Some(came) = answers.answer(case.asked, case.text.as_slice()) else {
        return Ok(Some(String::from_str(alloc, "no answer")?));
    };
    if came.as_bytes() == case.wanted.as_slice() {
        return Ok(None);
    }
    Ok(Some(format!(in alloc; "came {came:?}")?))
}

/// Prints each failed case of a file, or the number of cases. Returns whether all passed.
pub fn go_through<R: AllocGlobal + Print, A: Answers>(
    rt: &R,
    file: &str,
    text: &str,
    answers: &mut A,
) -> Result<bool, io::Error> {
    let mut cases: u32 = 0;
    let mut faults: u32 = 0;
    for (place, line) in text.lines().enumerate() {
        if line.is_empty() || line.starts_with('#') {
            continue;
        }
        cases = cases.saturating_add(1);
        if let Some(fault) = fault_of(rt.alloc(), answers, line)? {
            faults = faults.saturating_add(1);
            let number = place.saturating_add(1);
            println!(rt; "{file}.cases:{number}: {line}\n    {fault}")?;
        }
    }
    if faults == 0 {
        println!(rt; "{file}: {cases} cases as told")?;
    }
    Ok(faults == 0)
}

/// Runs `FOLDER/FILE.cases`, like `go_through`. It fails if printing fails or memory runs out.
pub fn go_through_file<A: Answers>(
    rt: &HostRuntime,
    folder: &str,
    file: &str,
    answers: &mut A,
) -> Result<bool, io::Error> {
    let path = format!(in rt.alloc(); "{folder}/{file}.cases")?;
    match fs::read_to_string(rt, path.as_str()) {
        Ok(text) => go_through(rt, file, text.as_str(), answers),
        Err(_) => {
            println!(rt; "{path}: can't be read")?;
            Ok(false)
        }
    }
}

/// Prints whether running out of memory had the expected outcome, and returns that.
pub fn print_told(rt: &HostRuntime, what: &str, is_told: bool) -> Result<bool, io::Error> {
    let word = if is_told { "told" } else { "not told" };
    println!(rt; "memory: {what}: {word}")?;
    Ok(is_told)
}
