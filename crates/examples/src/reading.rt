// Files that are read, and each refusal of the reader.
use crate::common::told;
use decision::handling::Handling;
use decision::queue::Queue;
use fault::reading::FileFault;
use file::lawful::LawfulFile;
use file::reader::TableFile;
use file::rules::Rules;
use routing::ends::Ends;
use std::test::Fail;

// One field of eight bits; [10, 60] to queue 5, [61, 120] to queue 7.
const QUEUES: [u8; 35] = [
    1, 1, 1, 0, 0, 2, 0, 0, 0, 0, 0, 17, 0, 0, 0, 33, 8, 0, 0, 0, 10, 0, 0, 0, 60, 0, 0, 0, 61, 0,
    0, 0, 120, 5, 7,
];

// One field of eight bits; [0, 9] to queue 3, class 9, keep 300, note 1.
const HANDLING: [u8; 31] = [
    1, 1, 2, 0, 0, 1, 0, 0, 0, 0, 0, 17, 0, 0, 0, 25, 8, 0, 0, 0, 0, 0, 0, 0, 9, 3, 9, 1, 44, 0, 1,
];

// The number and the place of the reader's refusal, if there is one.
fn open_told(bytes: &[u8]) -> Option<(u8, usize)> {
    let fault = TableFile::<Queue>::open(bytes).err()?;
    Some(told(fault))
}

// The same of the file of queues with two bytes changed.
fn changed(place: usize, byte: u8, other: usize, another: u8) -> Option<(u8, usize)> {
    let mut bytes = QUEUES;
    for (at, to) in [(place, byte), (other, another)] {
        if let Some(here) = bytes.get_mut(at) {
            *here = to;
        }
    }
    open_told(&bytes)
}

// The queue of a rule.
fn queue_of(file: &TableFile<'_, Queue>, rule: usize) -> Option<u8> {
    file.decision(rule).map(|decision| decision.queue)
}

#[test]
fn a_lawful_file(rt: HostRuntime) -> Result<(), Fail> {
    let file = TableFile::<Queue>::open(&QUEUES)?;
    assert_eq!(rt; file.fields(), 1);
    assert_eq!(rt; file.count(), 2);
    assert!(rt; file.widths() == &[8u8][0..1]);
    assert!(rt; file.row(1)[0] == Ends { low: 61, high: 120 });
    assert_eq!(rt; queue_of(&file, 1), Some(7));
    assert_eq!(rt; queue_of(&file, 2), None, "there is no third rule");
    Ok(())
}

#[test]
fn a_class_without_a_name(rt: HostRuntime) -> Result<(), Fail> {
    let file = TableFile::<Handling>::open(&HANDLING)?;
    let decision = file.decision(0).ok_or("no decision")?;
    assert_eq!(rt; u8::from(decision.class()), 9);
    assert_eq!(rt; decision.keep, 300);
    Ok(())
}

// A file whose type says that it is lawful for its kind is opened and refused as any other, and copied where it is handed on.
#[test]
fn lawful_by_its_type(rt: HostRuntime) -> Result<(), Fail> {
    let file = LawfulFile::<Queue>::open(&QUEUES)?;
    let copy = file;
    assert_eq!(rt; copy.table.count(), 2);
    assert_eq!(rt; queue_of(&file.table, 1), Some(7));
    let other_kind = LawfulFile::<Queue>::open(&HANDLING).err();
    assert_eq!(rt; other_kind.map(told::<FileFault>), Some((4, 2)));
    let nothing = LawfulFile::<Handling>::open(&[]).err();
    assert_eq!(rt; nothing.map(told::<FileFault>), Some((1, 0)));
    Ok(())
}

#[test]
fn no_rules(rt: HostRuntime) {
    assert_eq!(rt;
        open_told(&[1, 1, 1, 0, 0, 0, 0, 0, 0, 0, 0, 17, 0, 0, 0, 17, 32]),
        None
    );
}

#[test]
fn refusals_of_the_header(rt: HostRuntime) {
    assert_eq!(rt; open_told(&[]), Some((1, 0)));
    assert_eq!(rt; open_told(&QUEUES[0..15]), Some((1, 15)));
    assert_eq!(rt; changed(0, 2, 0, 2), Some((2, 0)));
    assert_eq!(rt; changed(3, 1, 7, 1), Some((2, 3)));
    assert_eq!(rt; changed(6, 1, 7, 1), Some((2, 6)));
    assert_eq!(rt; changed(7, 1, 7, 1), Some((2, 7)));
    assert_eq!(rt;
        changed(1, 0, 2, 2),
        Some((3, 1)),
        "the number of fields goes before the kind"
    );
    assert_eq!(rt; changed(1, 9, 1, 9), Some((3, 1)));
    assert_eq!(rt;
        changed(2, 2, 4, 9),
        Some((4, 2)),
        "the kind goes before the number of rules"
    );
    assert_eq!(rt; changed(4, 2, 5, 1), Some((5, 4)), "513 rules");
}

#[test]
fn refusals_of_the_rest(rt: HostRuntime) {
    assert_eq!(rt; changed(11, 18, 15, 34), Some((6, 8)));
    assert_eq!(rt;
        changed(15, 34, 16, 0),
        Some((6, 12)),
        "the offset goes before the width"
    );
    assert_eq!(rt; open_told(&QUEUES[0..34]), Some((7, 34)));
    assert_eq!(rt;
        changed(16, 0, 20, 61),
        Some((8, 16)),
        "the width goes before the ends"
    );
    assert_eq!(rt; changed(16, 33, 16, 33), Some((8, 16)));
    assert_eq!(rt;
        changed(20, 61, 28, 121),
        Some((9, 17)),
        "the first pair goes before the second"
    );
    assert_eq!(rt;
        changed(23, 1, 23, 1),
        Some((9, 17)),
        "316 is no value of eight bits"
    );
    assert_eq!(rt; changed(28, 121, 28, 121), Some((9, 25)));
}
