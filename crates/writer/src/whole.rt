// Whole tables written to a file, through the stages.
ghost use Rattle.std.specs.Prelude.{◌≡◌, ℕ, ◌<◌, ◌≤◌, length, Some, None, Ok, MatchResult, slice_index_or};
ghost use Rattle.std.specs.List.{flat_map};
ghost use Rattle.routing.specs.Fields.{widths_of};
ghost use Rattle.routing.specs.Lawful.{ends_refusal};
ghost use Rattle.fault.specs.Faults.{write_reason, rewrite_told};
ghost use Rattle.file.specs.Layout.{rows_at, decisions_at, file_length};
ghost use Rattle.writer.specs.Stages.{put, plan_fields, plan_length, turned, changed};
ghost use Rattle.file.specs.Contents.{blank};
ghost use Rattle.writer.specs.Tables.{rows_bytes, file_bytes, rows_refusal, table_refusal, rewrite_refusal, ReadsAs};

use crate::stage::{DecisionStage, Plan, RowStage};
use decision::kind::Kind;
use fault::writing::{RewriteFault, WriteFault};
use file::reader::TableFile;
use file::rules::Rules;
use routing::widths::Widths;

// The first field of the first rule whose ends make no interval of it.
fn rows_fault<K: Kind, R: Rules<K>>(widths: Widths, rules: &R) -> Option<u8>
    ensures { result ≡ rows_refusal (widths_of widths) (R.rows rules.now) }
{
    (0..rules.count()).find_map(|rule| widths.ends_fault(&rules.row(rule)))
}

// Writes all rows and turns. There is no slice to go over: a list of rules is a trait.
fn put_rows<K: Kind, R: Rules<K>>(
    mut stage: RowStage,
    rules: &R,
    out: &mut [u8],
) -> Result<DecisionStage, WriteFault>
    requires begun { stage.done ≡ 0 }
    requires counted { stage.plan.rules ≡ length (R.rows rules.now) }
    requires room { plan_length stage.plan ≤ length out.old }
    requires lawful { (k : ℕ) → k < length (R.rows rules.now) → ends_refusal (widths_of stage.plan.widths) (slice_index_or (R.rows rules.now) k blank) ≡ None }
    ensures answer { result ≡ Ok (turned stage) }
    ensures after { out.new ≡ put (rows_at (plan_fields stage.plan)) (rows_bytes (plan_fields stage.plan) (R.rows rules.now)) out.old }
    ensures eights { (k : ℕ) → k < length (R.rows rules.now) → length (slice_index_or (R.rows rules.now) k blank) ≡ 8 }
{
    for rule in 0..rules.count() {
        stage = match stage.row(out, rules.row(rule)) {
            Ok(next) => next,
            Err(refused) => return Err(refused.abandon()),
        };
    }
    stage.turn().map_err(|refused| refused.abandon())
}

// Writes all decisions and ends. There is no slice to go over: a list of rules is a trait.
fn put_decisions<K: Kind, R: Rules<K>>(
    mut stage: DecisionStage,
    rules: &R,
    out: &mut [u8],
) -> Result<usize, WriteFault>
    requires begun { stage.done ≡ 0 }
    requires counted { stage.plan.rules ≡ length (R.decisions rules.now) }
    requires of_code { stage.plan.code ≡ K.CODE }
    requires of_size { stage.plan.size ≡ K.SIZE }
    requires room { plan_length stage.plan ≤ length out.old }
    ensures answer { result ≡ Ok (plan_length stage.plan) }
    ensures after { out.new ≡ put (decisions_at (plan_fields stage.plan) stage.plan.rules) (flat_map K.written (R.decisions rules.now)) out.old }
    ensures kept { (k : ℕ) → k < length (R.decisions rules.now) → (x : K) → K.reading (K.written (slice_index_or (R.decisions rules.now) k x)) ≡ slice_index_or (R.decisions rules.now) k x }
{
    for rule in 0..rules.count() {
        stage = match stage.decision(out, rules.decision(rule).unwrap()) {
            Ok(next) => next,
            Err(refused) => return Err(refused.abandon()),
        };
    }
    stage.end().map_err(|refused| refused.abandon())
}

// Writes a file of these widths and rules, with the header, the widths, the rows and the decisions in their places and no other byte
// changed. Nothing is written where it is refused. What was written reads again as the same widths, rules and decisions.
pub fn write_table<K: Kind, R: Rules<K>>(
    widths: &[u8],
    rules: &R,
    out: &mut [u8],
) -> Result<usize, WriteFault>
    ensures answer { MatchResult result
        (λ n. (table_refusal widths.now (R.rows rules.now) K.SIZE (length out.old) ≡ None)
        × (n ≡ file_length (length widths.now) (length (R.rows rules.now)) K.SIZE))
        (λ e. table_refusal widths.now (R.rows rules.now) K.SIZE (length out.old) ≡ Some (write_reason e)) }
    ensures after { out.new ≡ changed (table_refusal widths.now (R.rows rules.now) K.SIZE (length out.old)) out.old
        (put 0 (file_bytes K.written K.CODE widths.now (R.rows rules.now) (R.decisions rules.now)) out.old) }
    ensures again { table_refusal widths.now (R.rows rules.now) K.SIZE (length out.old) ≡ None →
        ReadsAs K.reading K.CODE K.SIZE
        (file_bytes K.written K.CODE widths.now (R.rows rules.now) (R.decisions rules.now))
        widths.now (R.rows rules.now) (R.decisions rules.now) }
{
    let plan = Plan::test::<K>(widths, rules.count(), out.len())?;
    if let Some(field) = rows_fault(plan.widths, rules) {
        return Err(WriteFault::Ends(field));
    }
    let stage = put_rows(plan.start(widths, out), rules, out)?;
    put_decisions(stage, rules, out)
}

// Reads a file and writes it again: an accepted file comes out with the same bytes, and the buffer is untouched behind them. It is
// refused as the reader refuses it, or else only for lack of room, with the bytes needed and nothing written.
#[tactic(auto, using(crate::proofs::Again::reason_again, crate::proofs::Again::long_again))]
pub fn rewrite<K: Kind>(bytes: &[u8], out: &mut [u8]) -> Result<usize, RewriteFault>
    ensures answer { MatchResult result
        (λ n. (rewrite_refusal bytes.now K.CODE K.SIZE (length out.old) ≡ None) × (n ≡ length bytes.now))
        (λ e. rewrite_refusal bytes.now K.CODE K.SIZE (length out.old) ≡ Some (rewrite_told e)) }
    ensures after { out.new ≡ changed (rewrite_refusal bytes.now K.CODE K.SIZE (length out.old)) out.old (put 0 bytes.now out.old) }
{
    let file = TableFile::<K>::open(bytes)?;
    Ok(write_table(file.widths(), &file, out)?)
}
