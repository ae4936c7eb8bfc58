//! The calls that take inverses of values, over extensions that are no fields.
use crate::extensions::agrees_at;
use crate::plain::PlainRing;
use crate::split_tables::{EVERY, SAMPLED, SPLITS};
use crate::value_calls::Call;
use std::alloc::{AllocError, Global};
use std::process::Abort;
use std::test::Fail;
use test_families::names::Extension;
use test_families::texts::{list_of, lists_of};
use test_values::lists::List;

/// What is asserted of one extension.
#[derive(Clone, Copy)]
struct Row<'a> {
    extension: Extension,
    /// Values and their inverses, or `none`.
    inverses: &'a str,
    /// The registers of a run that is refused.
    before: &'a str,
    /// These registers then.
    after: &'a str,
}

impl<'a> Row<'a> {
    /// The row of a line.
    fn read(line: &'a str) -> Option<Row<'a>> {
        let (name, sides) = line.split_once(':')?;
        let mut parts = sides.split('|');
        Some(Row {
            extension: Extension::of_name(name)?,
            inverses: parts.next()?,
            before: parts.next()?,
            after: parts.next()?,
        })
    }
}

/// The list of a word; none where it is `none`.
fn inverse_of(word: &str) -> Option<List> {
    if word == "none" {
        None
    } else {
        Some(list_of(word))
    }
}

/// Whether the inverses of a row's values are those that were worked outside.
fn has_inverses(alloc: Global, row: &Row<'_>) -> Result<bool, AllocError> {
    for word in row.inverses.split_ascii_whitespace() {
        let (value, inverse) = word.split_once('=').unwrap_or((word, ""));
        let call = Call::Inverse {
            value: list_of(value),
            inverse: inverse_of(inverse),
        };
        if !agrees_at(row.extension, alloc, &call)? {
            return Ok(false);
        }
    }
    Ok(true)
}

/// Whether the run of a row is refused at its second inverse, whose value has none, and what the registers hold
/// then.
fn is_refused(alloc: Global, row: &Row<'_>) -> Result<bool, AllocError> {
    let before = lists_of(alloc, row.before)?;
    let after = lists_of(alloc, row.after)?;
    let refused = Call::Refused {
        before: &before,
        after: &after,
    };
    agrees_at(row.extension, alloc, &refused)
}

/// Whether a line agrees; `Ok(None)` where it can't be read.
fn line_agrees(alloc: Global, line: &str) -> Result<Option<bool>, AllocError> {
    let Some(row) = Row::read(line) else {
        return Ok(None);
    };
    Ok(Some(has_inverses(alloc, &row)? && is_refused(alloc, &row)?))
}

/// The extension of a line like `z15x2 15 2 2,0`, and it in plain numbers: its order, its degree and its rule.
fn plain_ring(line: &str) -> Option<(Extension, PlainRing)> {
    let mut words = line.split(' ');
    let extension = Extension::of_name(words.next()?)?;
    let order = words.next()?.parse::<u64>().ok()?;
    let degree = words.next()?.parse::<usize>().ok()?;
    let rule = list_of(words.next()?);
    Some((
        extension,
        PlainRing {
            order,
            degree,
            rule,
        },
    ))
}

/// Whether each value of a line's extension has just the inverse that a search in plain numbers finds.
fn every_agrees(alloc: Global, line: &str) -> Result<bool, AllocError> {
    match plain_ring(line) {
        Some((extension, ring)) => agrees_at(extension, alloc, &Call::Every(ring)),
        None => Ok(false),
    }
}

/// Whether 2000 values of a line's extension have an inverse just where their norm in plain numbers isn't zero.
fn samples_agree(alloc: Global, line: &str) -> Result<bool, AllocError> {
    match plain_ring(line) {
        Some((extension, ring)) => {
            let call = Call::Sampled(ring, 2000);
            agrees_at(extension, alloc, &call)
        }
        None => Ok(false),
    }
}

#[test]
fn every_value(rt: HostRuntime) -> Result<(), Fail> {
    for line in EVERY.trim().lines() {
        assert!(rt; every_agrees(rt.alloc(), line)?, "{line}");
    }
    Ok(())
}

#[test]
fn values_by_their_norm(rt: HostRuntime) -> Result<(), Fail> {
    for line in SAMPLED.trim().lines() {
        assert!(rt; samples_agree(rt.alloc(), line)?, "{line}");
    }
    Ok(())
}

#[test]
fn values_without_inverse(rt: HostRuntime) -> Result<(), Fail> {
    for line in SPLITS.trim().lines() {
        assert_eq!(rt; line_agrees(rt.alloc(), line)?, Some(true), "{line}");
    }
    assert_eq!(rt; SPLITS.trim().lines().count(), 8);
    Ok(())
}
