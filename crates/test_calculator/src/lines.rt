//! The lines of an input and of its text, for tests that cut a worked run short.

use crate::worked_runs::Run;
use std::alloc::{AllocError, Global};

/// How many lines of the input are ended by a byte 10 among these bytes.
pub(crate) fn ended_lines(bytes: &[u8]) -> usize {
    bytes.iter().filter(|byte| **byte == b'\n').count()
}

/// Where the line of this number, counted from 1, ends in the input, past its byte 10, if it has one.
pub(crate) fn line_end(input: &[u8], number: usize) -> Option<usize> {
    for end in 0..=input.len() {
        if ended_lines(&input[..end]) == number {
            return Some(end);
        }
    }
    None
}

/// Whether the line's first word is `show`.
fn is_show(line: &str) -> bool {
    line.trim_start().starts_with("show")
}

/// How many of the first lines of an input show a register.
pub(crate) fn shows(input: &str, count: usize) -> usize {
    input
        .lines()
        .take(count)
        .filter(|line| is_show(line))
        .count()
}

/// The number of the line that shows a register after so many others that do.
pub(crate) fn show_line(input: &str, before: usize) -> usize {
    for number in 0..input.len() {
        if shows(input, number) > before {
            return number;
        }
    }
    input.len()
}

/// The number of the line at which a text tells a fault, if it does.
pub(crate) fn fault_line(text: &str) -> Option<usize> {
    let (number, _) = text.lines().last()?.strip_prefix("line ")?.split_once(':')?;
    number.parse::<usize>().ok()
}

/// How many values a run's text shows.
pub(crate) fn values_shown(run: &Run) -> usize {
    let (_, text, _) = *run;
    text.lines()
        .filter(|line| !line.starts_with("line "))
        .count()
}

/// The first lines of a text, and after them a fault at a line.
pub(crate) fn cut_text(
    alloc: Global,
    text: &str,
    count: usize,
    number: usize,
    fault: usize,
) -> Result<String, AllocError> {
    let mut cut = String::new(alloc);
    for line in text.lines().take(count) {
        cut.push_str(line)?;
        cut.push_str("\n")?;
    }
    cut.push_str(&format!(in alloc; "line {number}: fault {fault}\n")?)?;
    Ok(cut)
}
