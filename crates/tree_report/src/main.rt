// Reads the file of a routing table from standard input, grows the tree of its rules and prints the tree's space, and what matches at each rule's low corner.
#![tactic(auto)]

mod space;

use decision::handling::Handling;
use decision::kind::Kind;
use decision::queue::Queue;
use file::lawful::LawfulFile;
use intake::{FileKind, MOST, read_front, refuse};
use routing::widths::Widths;
use space::print_space;
use std::io;
use std::process::ExitCode;

// The whole task for a kind of decision.
fn report<K: Kind>(rt: &(impl AllocGlobal + Print + Eprint), bytes: &[u8]) -> io::Result<ExitCode> {
    // the same in both programs: the return is this function's, and no other can make it
    let file = match LawfulFile::<K>::open(bytes) {
        Ok(file) => file,
        Err(fault) => return refuse(rt, "tree_report", fault),
    };
    match Widths::test(file.table.widths()) {
        Ok(widths) => print_space(rt, widths, file),
        Err(_) => Ok(ExitCode::SUCCESS), // a lawful file has no such widths
    }
}

// A refused file ends the program with status 1; what it says of it is printed by then.
fn main(rt: HostRuntime) -> io::Result<ExitCode> {
    let mut room = [0u8; MOST];
    let length = read_front(rt.stdin(), &mut room)?;
    let bytes = &room[..length];
    match FileKind::from(bytes) {
        FileKind::Queues => report::<Queue>(&rt, bytes),
        FileKind::Handlings => report::<Handling>(&rt, bytes),
    }
}
