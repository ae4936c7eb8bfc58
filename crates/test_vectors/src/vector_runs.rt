//! Runs over vectors of packings of the values of extensions, told by the rows of tables.
use crate::extensions::{over_cubic, over_quadratic, over_quartic, over_septic};
use crate::run_tables as tables;
use crate::runs::Run;
use p3_helpers::steps::Step;
use p3_prime_fields::baby_bear::BabyBearModulus;
use p3_prime_fields::form::Plain;
use p3_prime_fields::montgomery::Montgomery;
use p3_prime_fields::small::{M2, M17, M31};
use std::alloc::{AllocError, Global};
use std::process::Abort;
use std::test::Fail;
use test_families::residues::SplitM17;
use test_families::texts::lists_of;

/// The extensions.
#[derive(Clone, Copy)]
enum Extension {
    F17x2,
    BbX4,
    F31t3,
    F2t7,
    /// One that is no field.
    F17sx2,
}

/// Their names.
static NAMES: [(&str, Extension); 5] = [
    ("f17x2", Extension::F17x2),
    ("bbx4", Extension::BbX4),
    ("f31t3", Extension::F31t3),
    ("f2t7", Extension::F2t7),
    ("f17sx2", Extension::F17sx2),
];

impl Extension {
    /// The extension of a name.
    fn of_name(name: &str) -> Option<Self> {
        for row in NAMES {
            let (known, extension) = row;
            if known == name {
                return Some(extension);
            }
        }
        None
    }

    /// Whether a run leaves what it has to, over packings of so many values; false where there are no such
    /// packings here.
    fn run_agrees(self, alloc: Global, lanes: usize, run: &Run<'_>) -> Result<bool, AllocError> {
        match self {
            Self::F17x2 => over_quadratic::<Plain<M17>>(alloc, lanes, run),
            Self::BbX4 => over_quartic::<Montgomery<BabyBearModulus>>(alloc, lanes, run),
            Self::F31t3 => over_cubic::<Plain<M31>>(alloc, lanes, run),
            Self::F2t7 => over_septic::<Plain<M2>>(alloc, lanes, run),
            Self::F17sx2 => over_quadratic::<Plain<SplitM17>>(alloc, lanes, run),
        }
    }
}

/// What a step does.
#[derive(Clone, Copy)]
enum StepKind {
    Neg,
    Square,
    Double,
    Exp,
    Mul2Exp,
    Add,
    Sub,
    Mul,
}

/// The kinds of steps by their names.
static KINDS: [(&str, StepKind); 8] = [
    ("Neg", StepKind::Neg),
    ("Square", StepKind::Square),
    ("Double", StepKind::Double),
    ("Exp", StepKind::Exp),
    ("Mul2Exp", StepKind::Mul2Exp),
    ("Add", StepKind::Add),
    ("Sub", StepKind::Sub),
    ("Mul", StepKind::Mul),
];

/// The kind of a name.
fn kind_of(name: &str) -> Option<StepKind> {
    for row in KINDS {
        let (known, kind) = row;
        if known == name {
            return Some(kind);
        }
    }
    None
}

/// The step with one register read.
fn unary_step(kind: StepKind, d: usize, a: usize) -> Option<Step> {
    match kind {
        StepKind::Neg => Some(Step::Neg { d, a }),
        StepKind::Square => Some(Step::Square { d, a }),
        StepKind::Double => Some(Step::Double { d, a }),
        _ => None,
    }
}

/// The step with a number or a second register read.
fn binary_step(kind: StepKind, d: usize, a: usize, last: u64) -> Option<Step> {
    let b = last as usize;
    match kind {
        StepKind::Exp => Some(Step::Exp { d, a, e: last }),
        StepKind::Mul2Exp => Some(Step::Mul2Exp { d, a, e: last }),
        StepKind::Add => Some(Step::Add { d, a, b }),
        StepKind::Sub => Some(Step::Sub { d, a, b }),
        StepKind::Mul => Some(Step::Mul { d, a, b }),
        _ => None,
    }
}

/// The step of a word, as `Add:0:1:2`.
fn step(word: &str) -> Option<Step> {
    let mut parts = word.split(':');
    let kind = kind_of(parts.next()?)?;
    let d = parts.next()?.parse::<usize>().ok()?;
    let a = parts.next()?.parse::<usize>().ok()?;
    match parts.next() {
        Some(last) => binary_step(kind, d, a, last.parse::<u64>().ok()?),
        None => unary_step(kind, d, a),
    }
}

/// The steps of a text; none where a word can't be read.
fn steps_of(alloc: Global, text: &str) -> Result<Option<Vec<Step>>, AllocError> {
    let mut steps = Vec::new(alloc);
    for word in text.split_ascii_whitespace() {
        let Some(step) = step(word) else {
            return Ok(None);
        };
        steps.push(step)?;
    }
    Ok(Some(steps))
}

/// A row of a table.
#[derive(Clone, Copy)]
struct Row<'a> {
    extension: Extension,
    /// The number of lanes of a packing.
    lanes: usize,
    /// The number of packings of a vector.
    packings: usize,
    before: &'a str,
    steps: &'a str,
    after: &'a str,
}

impl<'a> Row<'a> {
    /// The row of a line like `f17x2 4 run_lane_steps 1: 0,1 1,1 2,1 3,1|Neg:0:0 = 0,16 16,16 15,16 14,16`.
    fn read(line: &'a str) -> Option<Row<'a>> {
        let (head, sides) = line.split_once(':')?;
        let (arguments, after) = sides.split_once('=')?;
        let (before, steps) = arguments.split_once('|')?;
        let mut words = head.split(' ');
        Some(Row {
            extension: Extension::of_name(words.next()?)?,
            lanes: words.next()?.parse::<usize>().ok()?,
            packings: words.nth(1)?.parse::<usize>().ok()?,
            before,
            steps,
            after,
        })
    }
}

/// Whether the run of a line has its registers after; `Ok(None)` where the line can't be read or there is
/// none.
fn run_agrees(alloc: Global, line: &str) -> Result<Option<bool>, AllocError> {
    let Some(row) = Row::read(line) else {
        return Ok(None);
    };
    let Some(steps) = steps_of(alloc, row.steps)? else {
        return Ok(None);
    };
    let before = lists_of(alloc, row.before)?;
    let after = lists_of(alloc, row.after)?;
    let run = Run {
        packings: row.packings,
        steps: &steps,
        before: &before,
        after: &after,
    };
    Ok(Some(row.extension.run_agrees(alloc, row.lanes, &run)?))
}

/// Every line of a table has its registers after.
fn assert_table(rt: &(impl Abort + AllocGlobal), table: &str) -> Result<(), Fail> {
    for line in table.lines() {
        if !line.is_empty() {
            assert_eq!(rt; run_agrees(rt.alloc(), line)?, Some(true), "{line}");
        }
    }
    Ok(())
}

#[test]
fn runs_over_vectors(rt: HostRuntime) -> Result<(), Fail> {
    assert_table(&rt, tables::RUNS_BY_HAND)?;
    assert_table(&rt, tables::RUNS_OVER_F17X2)?;
    assert_table(&rt, tables::RUNS_OVER_BBX4)?;
    assert_table(&rt, tables::RUNS_OVER_F31T3)?;
    assert_table(&rt, tables::RUNS_OVER_F2T7)?;
    assert_table(&rt, tables::RUNS_OVER_F17SX2)
}

#[test]
fn a_wrong_number_is_seen(rt: HostRuntime) -> Result<(), Fail> {
    let agrees = run_agrees(rt.alloc(), tables::WRONG_RUN)?;
    assert_eq!(rt; agrees, Some(false));
    Ok(())
}
