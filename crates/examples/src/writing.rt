// Files that are written in stages, and each refusal of the writer.
use crate::common::{one_field, told};
use decision::class::Class;
use decision::handling::Handling;
use decision::queue::Queue;
use fault::writing::WriteFault;
use file::reader::TableFile;
use file::rules::{RuleList, Rules};
use routing::rule::Rule;
use std::test::Fail;
use writer::stage::{DecisionStage, Refused, RowStage, Stage};
use writer::whole::{rewrite, write_table};

const FIVE: Queue = Queue { queue: 5 };

// What a step answers; the stage of a refused one is given up.
fn going_on<T, P>(step: Result<T, Refused<Stage<P>>>) -> Result<T, WriteFault> {
    match step {
        Ok(next) => Ok(next),
        Err(refused) => Err(refused.abandon()),
    }
}

// Why there is no stage, if there is none. One that there is is given up.
fn stage_told<P>(answer: Result<Stage<P>, WriteFault>) -> Option<(u8, usize)> {
    match answer {
        Ok(stage) => {
            stage.abandon();
            None
        }
        Err(fault) => Some(told::<WriteFault>(fault)),
    }
}

// Why a step was refused, if it was.
fn step_told<P, Q>(step: Result<Stage<P>, Refused<Stage<Q>>>) -> Option<(u8, usize)> {
    stage_told(going_on(step))
}

// The same of what answers a length, which is not given up.
fn length_told(answer: Result<usize, WriteFault>) -> Option<(u8, usize)> {
    match answer {
        Ok(_) => None,
        Err(fault) => Some(told::<WriteFault>(fault)),
    }
}

fn start_told(widths: &[u8], rules: usize, room: usize) -> Option<(u8, usize)> {
    let mut out = [0u8; 64];
    stage_told(RowStage::start::<Queue>(widths, rules, &mut out[0..room.min(64)]))
}

#[test]
fn refusals_of_a_start(rt: HostRuntime) {
    assert_eq!(rt; start_told(&[8], 2, 35), None);
    assert_eq!(rt;
        start_told(&[], 513, 0),
        Some((3, 1)),
        "the number of fields goes first"
    );
    assert_eq!(rt;
        start_told(&[8, 0], 513, 0),
        Some((8, 2)),
        "the width goes before the number of rules"
    );
    assert_eq!(rt; start_told(&[8, 33], 1, 64), Some((8, 2)));
    assert_eq!(rt;
        start_told(&[8], 513, 0),
        Some((5, 4)),
        "the number of rules goes before the room"
    );
    assert_eq!(rt; start_told(&[8], 2, 34), Some((16, 35)));
}

// A file for one rule of one field before its row, after it, before its decision, and after that.
fn at_row(out: &mut [u8]) -> Result<RowStage, WriteFault> {
    RowStage::start::<Queue>(&[8], 1, out)
}

fn after_row(out: &mut [u8]) -> Result<RowStage, WriteFault> {
    going_on(at_row(out)?.row(out, one_field(7, 7)))
}

fn at_decision(out: &mut [u8]) -> Result<DecisionStage, WriteFault> {
    going_on(after_row(out)?.turn())
}

fn after_decision(out: &mut [u8]) -> Result<DecisionStage, WriteFault> {
    going_on(at_decision(out)?.decision(out, FIVE))
}

// The refusal of a row, tried with so many bytes of the buffer.
fn row_told_in(room: usize, low: u32, high: u32) -> Result<Option<(u8, usize)>, WriteFault> {
    let mut out = [0u8; 26];
    let stage = at_row(&mut out)?;
    Ok(step_told(stage.row(&mut out[0..room.min(26)], one_field(low, high))))
}

#[test]
fn refusals_of_a_row(rt: HostRuntime) -> Result<(), Fail> {
    assert_eq!(rt;
        row_told_in(25, 7, 6)?,
        Some((16, 26)),
        "the room goes first"
    );
    assert_eq!(rt; row_told_in(26, 7, 6)?, Some((9, 1)));
    assert_eq!(rt; row_told_in(26, 0, 256)?, Some((9, 1)));
    assert_eq!(rt; row_told_in(26, 7, 7)?, None);
    Ok(())
}

#[test]
fn a_row_too_many_and_a_turn_too_early(rt: HostRuntime) -> Result<(), Fail> {
    let mut out = [0u8; 26];
    let full = after_row(&mut out)?;
    assert_eq!(rt;
        step_told(full.row(&mut out, one_field(7, 6))),
        Some((17, 1)),
        "one too many goes before its ends"
    );
    assert_eq!(rt;
        step_told(at_row(&mut out)?.turn()),
        Some((17, 0)),
        "a turn too early"
    );
    Ok(())
}

#[test]
fn refusals_of_a_decision(rt: HostRuntime) -> Result<(), Fail> {
    let mut out = [0u8; 26];
    let handling = Handling::new(5, Class::Express, 0, 0);
    let stage = at_decision(&mut out)?;
    assert_eq!(rt;
        step_told(stage.decision(&mut [0u8; 25], FIVE)),
        Some((16, 26))
    );
    let stage = at_decision(&mut out)?;
    assert_eq!(rt; step_told(stage.decision(&mut out, handling)), Some((4, 2)));
    let full = after_decision(&mut out)?;
    assert_eq!(rt;
        step_told(full.decision(&mut out, handling)),
        Some((17, 1)),
        "one too many goes before the kind"
    );
    assert_eq!(rt;
        length_told(going_on(at_decision(&mut out)?.end())),
        Some((17, 0)),
        "an end too early"
    );
    Ok(())
}

// A file of 512 rules of one field before its decisions, and after them.
fn after_512_rows(out: &mut [u8]) -> Result<DecisionStage, WriteFault> {
    let mut stage = RowStage::start::<Queue>(&[32], 512, out)?;
    for _ in 0..512 {
        stage = going_on(stage.row(out, one_field(0, 4294967295)))?;
    }
    going_on(stage.turn())
}

fn after_512_decisions(out: &mut [u8]) -> Result<usize, WriteFault> {
    let mut stage = after_512_rows(out)?;
    for _ in 0..512 {
        stage = going_on(stage.decision(out, Queue { queue: 255 }))?;
    }
    going_on(stage.end())
}

#[test]
fn a_file_of_512_rules(rt: HostRuntime) -> Result<(), Fail> {
    let mut out = [9u8; 4626];
    assert_eq!(rt; after_512_decisions(&mut out)?, 4625);
    assert!(rt; out[4625] == 9, "no other byte changes");
    let file = TableFile::<Queue>::open(&out[0..4625])?;
    assert_eq!(rt; file.count(), 512);
    let last = file.decision(511).ok_or("no decision")?;
    assert_eq!(rt; last.queue, 255);
    Ok(())
}

#[test]
fn a_whole_table(rt: HostRuntime) -> Result<(), Fail> {
    let rules = [
        Rule {
            ends: one_field(10, 60),
            decision: FIVE,
        },
        Rule {
            ends: one_field(61, 120),
            decision: Queue { queue: 7 },
        },
    ];
    let mut out = [0u8; 40];
    assert_eq!(rt;
        write_table(&[8], &RuleList { rules: &rules }, &mut out)?,
        35
    );
    assert_eq!(rt; out[32], 120);
    assert_eq!(rt; out[34], 7);
    let mut again = [0u8; 35];
    assert_eq!(rt; rewrite::<Queue>(&out[0..35], &mut again)?, 35);
    assert!(rt; &again[0..35] == &out[0..35]);
    Ok(())
}

#[test]
fn nothing_is_written_where_it_is_refused(rt: HostRuntime) {
    let rules = [
        Rule {
            ends: one_field(10, 60),
            decision: FIVE,
        },
        Rule {
            ends: one_field(61, 60),
            decision: FIVE,
        },
    ];
    let mut out = [9u8; 35];
    assert_eq!(rt;
        length_told(write_table(&[8], &RuleList { rules: &rules }, &mut out)),
        Some((9, 1))
    );
    assert_eq!(rt;
        length_told(write_table(&[8], &RuleList { rules: &rules }, &mut out[0..34])),
        Some((16, 35)),
        "the room goes first"
    );
    assert!(rt; out == [9u8; 35]);
}
