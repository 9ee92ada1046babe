// Reads the file of a routing table from standard input, prints what it holds, writes it again and says whether the bytes are the same.
#![tactic(auto)]

use decision::handling::Handling;
use decision::kind::Kind;
use decision::queue::Queue;
use file::lawful::LawfulFile;
use file::rules::Rules;
use intake::{FileKind, MOST, read_front, refuse};
use std::fmt::Display;
use std::io;
use std::process::ExitCode;
use writer::whole::rewrite;

// The fields with their values.
fn print_fields<K: Kind>(rt: &impl Print, file: &LawfulFile<'_, K>) -> io::Result<()> {
    for (k, &width) in file.table.widths().iter().enumerate() {
        let most = (1u64 << width.min(32)) - 1;
        println!(rt; "field {}: {width} bits, 0 to {most}", k + 1)?;
    }
    Ok(())
}

// The intervals and the decision of a rule.
fn print_rule<K: Kind + Display>(
    rt: &impl Print,
    file: &LawfulFile<'_, K>,
    rule: usize,
) -> io::Result<()> {
    for pair in file.table.row(rule).iter().take(file.table.fields()) {
        print!(rt; " [{}, {}]", pair.low, pair.high)?;
    }
    match file.table.decision(rule) {
        Some(decision) => println!(rt; " -> {decision}"),
        None => println!(rt),
    }
}

// The whole task for a kind of decision.
fn report<K: Kind + Display>(
    rt: &(impl Print + Eprint),
    kind: &str,
    bytes: &[u8],
) -> io::Result<ExitCode> {
    // the same in both programs: the return is this function's, and no other can make it
    let file = match LawfulFile::<K>::open(bytes) {
        Ok(file) => file,
        Err(fault) => return refuse(rt, "report", fault),
    };
    let rules = file.table.count();
    println!(rt;
        "table of {kind}: {rules} rules, {} fields",
        file.table.fields()
    )?;
    print_fields(rt, &file)?;
    // there is no slice to go over: a rule is read from the bytes
    for rule in 0..rules {
        print!(rt; "rule {}:", rule + 1)?;
        print_rule(rt, &file, rule)?;
    }
    let mut again = [0u8; MOST];
    match rewrite::<K>(bytes, &mut again) {
        Ok(length) => {
            let verdict = if &again[..length] == bytes {
                "the same"
            } else {
                "not the same"
            };
            println!(rt; "written again: {length} bytes, {verdict}")?;
            Ok(ExitCode::SUCCESS)
        }
        Err(fault) => refuse(rt, "report", fault),
    }
}

// A refused file ends the program with status 1; what it says of it is printed by then.
fn main(rt: HostRuntime) -> io::Result<ExitCode> {
    let mut room = [0u8; MOST];
    let length = read_front(rt.stdin(), &mut room)?;
    let bytes = &room[..length];
    match FileKind::from(bytes) {
        FileKind::Queues => report::<Queue>(&rt, "queues", bytes),
        FileKind::Handlings => report::<Handling>(&rt, "handlings", bytes),
    }
}
