// The tree of a file's rules: the space that it takes, and the rules that match at each rule's low corner.
ghost use Rattle.std.specs.Prelude.{◌≡◌, ◌<◌, [], length, IfErr};
ghost use Rattle.routing.specs.Fields.{widths_of};
ghost use Rattle.tree.specs.Means.{Means};

use decision::kind::Kind;
use file::lawful::LawfulFile;
use file::rules::Rules;
use routing::rule::Message;
use routing::widths::Widths;
use std::alloc::{AllocError, Global};
use std::io;
use std::process::ExitCode;
use tree::all_match::{Lack, Tree};
use tree::records::{Branch, Mark};

// Whatever the memory holds, the tree begins empty.
const NO_BRANCH: Branch = Branch {
    low: 0,
    high: 0,
    below: 0,
    next: 0,
};

const NO_MARK: Mark = Mark { rule: 0, next: 0 };

// A tree takes no more rules: how many it has, and what the next one lacks.
#[derive(Clone, Copy)]
struct Full {
    rules: usize,
    lack: Lack,
}

// Memory for the largest tree.
fn memory(alloc: Global) -> Result<(Vec<Branch>, Vec<Mark>), AllocError> {
    let branches = vec![in alloc; NO_BRANCH; 65536]?;
    let marks = vec![in alloc; NO_MARK; 1048576]?;
    Ok((branches, marks))
}

// Appends a file's rules to an empty tree, as far as its space goes, and says how many they are.
fn grow<K: Kind>(
    tree: &mut Tree<'_>,
    widths: Widths,
    file: LawfulFile<'_, K>,
) -> Result<usize, Full>
    requires empty { Means tree.old [] }
    requires fields { tree.old.fields ≡ length (widths_of widths) }
    ensures { IfErr result (λ full. full.rules < 512) }
{
    let count = file.table.count().min(512);
    // there is no slice to go over: a rule is read from the bytes
    for rule in 0..count {
        let ends = file.table.row(rule);
        if widths.ends_fault(&ends).is_some() {
            return Ok(rule); // a lawful file has no such rule
        }
        if let Err(lack) = tree.append(&ends, (rule + 1) as u16) {
            return Err(Full { rules: rule, lack });
        }
    }
    Ok(count)
}

// The numbers of the rules that match a message.
fn print_matching(rt: &impl Print, tree: &Tree<'_>, message: Message) -> io::Result<()> {
    let mut at = tree.look_up(message);
    let mut before = " ";
    while let Some(link) = at {
        let mark = tree.mark(link);
        print!(rt; "{before}{}", mark.rule)?;
        before = ", ";
        at = mark.next();
    }
    println!(rt)
}

// The space that a tree of a file's first rules takes, and what matches at each one's low corner.
fn print_tree<K: Kind>(
    rt: &impl Print,
    tree: &Tree<'_>,
    file: LawfulFile<'_, K>,
    rules: usize,
) -> io::Result<()> {
    let used = tree.used();
    println!(rt;
        "tree: {rules} rules, {} branches, {} marks",
        used.branches, used.marks
    )?;
    // nor is there here
    for rule in 0..rules {
        print!(rt; "low corner of rule {}: rules", rule + 1)?;
        print_matching(rt, tree, file.table.row(rule).map(|pair| pair.low))?;
    }
    Ok(())
}

// Grows the tree of a file's rules in memory of its own, and prints what it says.
pub(crate) fn print_space<K: Kind>(
    rt: &(impl AllocGlobal + Print + Eprint),
    widths: Widths,
    file: LawfulFile<'_, K>,
) -> io::Result<ExitCode> {
    let Ok((mut branches, mut marks)) = memory(rt.alloc()) else {
        eprintln!(rt; "tree_report: there is no memory for the tree")?;
        return Ok(ExitCode::FAILURE);
    };
    let mut tree = Tree::new(&mut branches, &mut marks, widths);
    let rules = match grow(&mut tree, widths, file) {
        Ok(rules) => rules,
        Err(Full { rules, lack }) => {
            println!(rt; "tree: rule {} lacks {lack}", rules + 1)?;
            rules
        }
    };
    print_tree(rt, &tree, file, rules)?;
    Ok(ExitCode::SUCCESS)
}
