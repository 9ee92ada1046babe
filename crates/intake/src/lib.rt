// What the programs share: a file from a reader, its kind of decision, and the line of a refusal.
#![tactic(auto)]

ghost use Rattle.std.specs.Prelude.{◌≡◌, ◌≤◌, take, IfOk, IfSome};
ghost use Rattle.std.specs.Process.{exit_status};

use decision::bytes::byte_at;
use decision::handling::Handling;
use decision::kind::Kind;
use routing::refusal::Refusal;
use std::fmt::Display;
use std::io;
use std::io::Read;
use std::process::ExitCode;

// No lawful file is longer than 35,864 bytes.
pub const MOST: usize = 40960;

// The first bytes of a reader, in a buffer that the caller lends, and how many they are. Each read has all of the room that is left.
pub fn read_front<R: Read + Drop>(mut from: R, room: &mut [u8; MOST]) -> io::Result<usize>
    ensures most { IfOk result (λ n. n ≤ MOST) }
    ensures front { IfSome (R.remaining from) (λ all. IfOk result (λ n. take n room.new ≡ take MOST all)) }
{
    let mut filled = 0;
    while filled < MOST {
        let n = from.read(&mut room[filled..])?;
        if n == 0 {
            return Ok(filled);
        }
        filled += n;
    }
    Ok(filled)
}

// The kind of decision that a file says, lawful or not.
#[derive(Clone, Copy, Debug, PartialEq, Eq, Hash)]
pub enum FileKind {
    Queues,
    Handlings,
}

impl From<&[u8]> for FileKind {
    ghost use Rattle.intake.specs.FileKinds.{kind_of};

    ghost from_gives = { λ bytes kind. kind ≡ kind_of bytes.now };

    fn from(value: &[u8]) -> FileKind {
        if byte_at(value, 2) == Handling::CODE {
            FileKind::Handlings
        } else {
            FileKind::Queues
        }
    }
}

// Prints the line of a refusal, and its words on standard error; the program ends with status 1.
pub fn refuse<F: Display + Into<Refusal> + Drop>(
    rt: &(impl Print + Eprint),
    program: &str,
    fault: F,
) -> io::Result<ExitCode>
    ensures { IfOk result (λ code. exit_status code ≡ 1) }
{
    eprintln!(rt; "{program}: {fault}")?;
    let refusal: Refusal = fault.into();
    println!(rt; "{refusal}")?;
    Ok(ExitCode::FAILURE)
}

#[cfg(test)]
mod tests;
