// Widths, messages, intervals and classes.
use crate::common::{one_field, told};
use decision::class::Class;
use decision::handling::Handling;
use decision::kind::Kind;
use routing::ends::Ends;
use routing::refusal::{Layer, Refusal};
use routing::rule::matches;
use routing::widths::Widths;
use std::test::Fail;

// The number and the place of the refusal of widths, if they are refused.
fn widths_told(widths: &[u8]) -> Option<(u8, usize)> {
    let fault = Widths::test(widths).err()?;
    Some(told(fault.refusal(Layer::Table)))
}

#[test]
fn widths_are_tested(rt: HostRuntime) {
    assert_eq!(rt; widths_told(&[1, 32]), None);
    assert_eq!(rt; widths_told(&[]), Some((3, 1)));
    assert_eq!(rt; widths_told(&[8, 8, 8, 8, 8, 8, 8, 8, 8]), Some((3, 1)));
    assert_eq!(rt; widths_told(&[8, 33, 0]), Some((8, 2)));
    assert_eq!(rt; widths_told(&[8, 32, 0]), Some((8, 3)));
}

#[test]
fn values_of_a_field(rt: HostRuntime) -> Result<(), Fail> {
    let widths = Widths::test(&[8])?;
    assert_eq!(rt; widths.fields(), 1);
    assert_eq!(rt;
        widths.message_fault([255, 0, 0, 0, 0, 0, 0, 0]),
        None,
        "the greatest value of eight bits"
    );
    assert_eq!(rt;
        widths.message_fault([256, 0, 0, 0, 0, 0, 0, 0]),
        Some(1),
        "one more"
    );
    assert_eq!(rt;
        widths.message_fault([255, 0, 0, 1, 0, 0, 0, 9]),
        Some(4),
        "not 0 past the last field"
    );
    Ok(())
}

#[test]
fn intervals_of_a_field(rt: HostRuntime) -> Result<(), Fail> {
    let widths = Widths::test(&[8])?;
    assert_eq!(rt; widths.ends_fault(&one_field(7, 7)), None);
    assert_eq!(rt; widths.ends_fault(&one_field(7, 6)), Some(1));
    assert_eq!(rt; widths.ends_fault(&one_field(0, 255)), None);
    assert_eq!(rt; widths.ends_fault(&one_field(0, 256)), Some(1));
    let wide = Widths::test(&[32])?;
    assert_eq!(rt;
        wide.ends_fault(&one_field(0, 4294967295)),
        None,
        "all of 32 bits"
    );
    assert_eq!(rt; wide.message_fault([4294967295, 0, 0, 0, 0, 0, 0, 0]), None);
    Ok(())
}

#[test]
fn both_ends_are_included(rt: HostRuntime) {
    let all = Ends {
        low: 0,
        high: 4294967295,
    };
    assert!(rt; all.holds(0) && all.holds(4294967295));
    let some = Ends { low: 10, high: 60 };
    assert!(rt; some.holds(10) && some.holds(60) && !some.holds(9) && !some.holds(61));
    assert!(rt;
        matches(1, &one_field(10, 60), [60, 5, 0, 0, 0, 0, 0, 0]),
        "past the last field nothing is looked at"
    );
    assert!(rt; !matches(2, &one_field(10, 60), [60, 5, 0, 0, 0, 0, 0, 0]));
}

#[test]
fn handlings_by_queue_and_class(rt: HostRuntime) {
    let nine = Handling::new(3, Class::from(9), 30, 1);
    assert_eq!(rt;
        u8::from(nine.class()),
        9,
        "a class without a name keeps its code"
    );
    assert!(rt;
        nine.same(Handling::new(3, Class::from(9), 45, 2)),
        "keep time and note do not count"
    );
    assert!(rt;
        !nine.same(Handling::new(3, Class::Ordinary, 30, 1)),
        "class 9 is not class 0"
    );
    assert!(rt; !nine.same(Handling::new(4, Class::from(9), 30, 1)));
}

#[test]
fn the_line_of_a_refusal(rt: HostRuntime) -> Result<(), Fail> {
    let refusal = Refusal {
        layer: Layer::Writer,
        number: 16,
        place: 35,
    };
    let line = format!(in rt.alloc(); "{refusal}")?;
    assert!(rt; line.as_str() == "refused W 16 35");
    Ok(())
}
