// Writing a file in stages.
ghost use Rattle.std.specs.Prelude.{◌≡◌, ◌+◌, ◌≤◌, ◌++◌, length, Some, None, MatchResult};
ghost use Rattle.std.specs.Option.{option_map};
ghost use Rattle.routing.specs.Fields.{widths_of};
ghost use Rattle.fault.specs.Faults.{write_reason};
ghost use Rattle.writer.specs.Stages.{put, row_bytes, head_bytes, plan_fields, plan_layout, plan_length, Planned, Begun, room_refusal, start_refusal, ready_refusal, row_refusal, decision_refusal, early_refusal, next_stage, turned, reason_of, step_told, judged, changed, row_at, decision_place};

use crate::place::{put_decision, put_front, put_row};
use crate::stage::{DecisionStage, Plan, Refused, RowStage, Stage};
use decision::kind::Kind;
use fault::writing::WriteFault;
use file::layout::Layout;
use routing::ends::Ends;
use routing::widths::Widths;
use std::marker::PhantomData;

impl Plan {
    // What a start tests, for a buffer of a length. Widths, rules and room stay three parameters: a type for them would be made for this
    // call alone.
    pub(crate) fn test<K: Kind>(
        widths: &[u8],
        rules: usize,
        room: usize,
    ) -> Result<Plan, WriteFault>
        ensures { MatchResult result
            (λ p. (start_refusal widths.now rules K.SIZE room ≡ None) × Planned widths.now rules K.CODE K.SIZE p)
            (λ e. start_refusal widths.now rules K.SIZE room ≡ Some (write_reason e)) }
    {
        let widths = Widths::test(widths)?;
        if rules > 512 {
            return Err(WriteFault::Rules);
        }
        let plan = Plan {
            widths,
            rules: rules as u16,
            code: K::CODE,
            size: K::SIZE,
        };
        plan.room_test(room)?;
        Ok(plan)
    }

    pub(crate) fn layout(self) -> Layout
        ensures { result ≡ plan_layout self }
    {
        Layout {
            fields: self.widths.fields() as u8,
            rules: self.rules,
            size: self.size,
        }
    }

    // Room for the whole file.
    fn room_test(self, room: usize) -> Result<(), WriteFault>
        ensures { reason_of result ≡ room_refusal (plan_length self) room }
    {
        let needed = self.layout().length();
        if room < needed {
            return Err(WriteFault::Room(needed));
        }
        Ok(())
    }

    // Writes the header and the widths.
    pub(crate) fn start(self, widths: &[u8], out: &mut [u8]) -> RowStage
        requires of_widths { widths.now ≡ widths_of self.widths }
        requires room { 16 + length widths.now ≤ length out.old }
        ensures answer { result ≡ record { plan = self; done = 0; phase = record {} } }
        ensures after { out.new ≡ put 0 (head_bytes (length widths.now) self.rules self.code ++ widths.now) out.old }
    {
        put_front(out, widths, self.layout(), self.code);
        Stage {
            plan: self,
            done: 0,
            phase: PhantomData,
        }
    }
}

// A step hands its stage back in a `return` of its own, four times: a closure for `map_err` would take the stage also where the step goes
// on.
impl<P> Stage<P> {
    // What each step into the file tests first: room for the whole file, and a rule to come.
    fn ready(&self, room: usize) -> Result<(), WriteFault>
        ensures { reason_of result ≡ ready_refusal self.now room }
    {
        self.plan.room_test(room)?;
        if self.done >= self.plan.rules {
            return Err(WriteFault::Count(usize::from(self.done)));
        }
        Ok(())
    }

    // What a turn and an end test: no rule is to come.
    fn complete(&self) -> Result<(), WriteFault>
        ensures { reason_of result ≡ early_refusal self.now }
    {
        if self.done < self.plan.rules {
            return Err(WriteFault::Count(usize::from(self.done)));
        }
        Ok(())
    }
}

impl RowStage {
    // What a start would refuse with a buffer of so many bytes: a question, so an option of the fault. Nothing is written.
    pub fn start_fault<K: Kind>(widths: &[u8], rules: usize, room: usize) -> Option<WriteFault>
        ensures { option_map write_reason result ≡ start_refusal widths.now rules K.SIZE room }
    {
        Plan::test::<K>(widths, rules, room).err()
    }

    // Starts a file of so many rules with decisions of the kind K: writes the header and the widths.
    pub fn start<K: Kind>(
        widths: &[u8],
        rules: usize,
        out: &mut [u8],
    ) -> Result<RowStage, WriteFault>
        ensures answer { MatchResult result
            (λ s. (start_refusal widths.now rules K.SIZE (length out.old) ≡ None) × Begun widths.now rules K.CODE K.SIZE s)
            (λ e. start_refusal widths.now rules K.SIZE (length out.old) ≡ Some (write_reason e)) }
        ensures after { out.new ≡ changed (start_refusal widths.now rules K.SIZE (length out.old)) out.old
            (put 0 (head_bytes (length widths.now) rules K.CODE ++ widths.now) out.old) }
    {
        let plan = Plan::test::<K>(widths, rules, out.len())?;
        Ok(plan.start(widths, out))
    }

    // What a row tests.
    fn row_test(&self, room: usize, ends: &[Ends; 8]) -> Result<(), WriteFault>
        ensures { reason_of result ≡ row_refusal self.now ends.now room }
    {
        self.ready(room)?;
        match self.plan.widths.ends_fault(ends) {
            Some(field) => Err(WriteFault::Ends(field)),
            None => Ok(()),
        }
    }

    // Writes the next row.
    #[tactic(auto, using(crate::proofs::Steps::row_settled))]
    pub fn row(mut self, out: &mut [u8], ends: [Ends; 8]) -> Result<RowStage, Refused<RowStage>>
        ensures answer { step_told result ≡ judged (row_refusal self ends (length out.old)) self (next_stage self) }
        ensures after { out.new ≡ changed (row_refusal self ends (length out.old)) out.old
            (put (row_at self) (row_bytes (plan_fields self.plan) ends) out.old) }
    {
        if let Err(fault) = self.row_test(out.len(), &ends) {
            return Err(Refused { stage: self, fault });
        }
        let at = self.plan.layout().row(self.done);
        put_row(out, at, &ends[..self.plan.widths.fields()]);
        self.done += 1;
        Ok(self)
    }

    // From the rows to the decisions, once all rows stand.
    pub fn turn(self) -> Result<DecisionStage, Refused<RowStage>>
        ensures { step_told result ≡ judged (early_refusal self) self (turned self) }
    {
        if let Err(fault) = self.complete() {
            return Err(Refused { stage: self, fault });
        }
        let Stage {
            plan,
            done: _,
            phase: _,
        } = self;
        Ok(Stage {
            plan,
            done: 0, // no decision yet
            phase: PhantomData,
        })
    }
}

impl DecisionStage {
    // What a decision tests.
    fn decision_test<K: Kind>(&self, room: usize) -> Result<(), WriteFault>
        ensures { reason_of result ≡ decision_refusal self.now K.CODE K.SIZE room }
    {
        self.ready(room)?;
        if K::CODE != self.plan.code || K::SIZE != self.plan.size {
            return Err(WriteFault::Kind);
        }
        Ok(())
    }

    // Writes the next decision.
    #[tactic(auto, using(crate::proofs::Steps::decision_settled))]
    pub fn decision<K: Kind>(
        mut self,
        out: &mut [u8],
        decision: K,
    ) -> Result<DecisionStage, Refused<DecisionStage>>
        ensures answer { step_told result ≡ judged (decision_refusal self K.CODE K.SIZE (length out.old)) self (next_stage self) }
        ensures after { out.new ≡ changed (decision_refusal self K.CODE K.SIZE (length out.old)) out.old
            (put (decision_place self) (K.written decision) out.old) }
        ensures kept { decision_refusal self K.CODE K.SIZE (length out.old) ≡ None → K.reading (K.written decision) ≡ decision }
    {
        if let Err(fault) = self.decision_test::<K>(out.len()) {
            return Err(Refused { stage: self, fault });
        }
        let at = self.plan.layout().decision(self.done);
        put_decision(out, at, decision);
        self.done += 1;
        Ok(self)
    }

    // The file's length, once all decisions stand.
    pub fn end(self) -> Result<usize, Refused<DecisionStage>>
        ensures { step_told result ≡ judged (early_refusal self) self (plan_length self.plan) }
    {
        if let Err(fault) = self.complete() {
            return Err(Refused { stage: self, fault });
        }
        let length = self.plan.layout().length();
        self.abandon();
        Ok(length)
    }
}
