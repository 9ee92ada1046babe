// Rules and the messages that they match.
ghost use Rattle.std.specs.Prelude.{◌≡◌};
ghost use Rattle.routing.specs.Rules.{matches};

use crate::ends::Ends;

// One number for each of eight places; places past the last field hold 0. It is a plain array, as are the ends of a rule, since both are
// handed over by value and no memory is taken.
pub type Message = [u32; 8];

// An interval for each field, and a decision. Pairs past the last field are not looked at.
#[derive(Clone, Copy, Debug, PartialEq, Eq)]
pub struct Rule<K> {
    pub ends: [Ends; 8],
    pub decision: K,
}

// Whether each of the first fields' values lies in its interval.
pub fn matches(fields: usize, ends: &[Ends; 8], message: Message) -> bool
    ensures { result ≡ matches fields ends.now message }
{
    ends.iter()
        .zip(&message)
        .take(fields)
        .all(|(pair, &value)| pair.holds(value))
}

ghost use Rattle.routing.specs.Examples.{Worked};

// What the definitions of space and first match give on worked examples.
pub fn worked_examples()
    ensures { Worked }
{}
