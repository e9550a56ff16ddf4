// Evaluating, where the definitions are records.
ghost use Rattle.std.specs.Prelude.{length};
ghost use Rattle.evaluate.specs.Evaluation.{EvaluateIs};
ghost use Rattle.records.specs.Records.{records_in, Stand, first_of, looked, found, EvaluatesFirst};

use crate::{LentRecords, Numbers};
use refusal::Refusal;

// Evaluating over these numbers of the first records, where there are not too many.
fn evaluate_first(
    system: &LentRecords<'_>,
    numbers: &Numbers,
    assignment: &[u64],
    out: &mut [u64],
) -> Result<usize, Refusal>
    requires { Stand numbers.now }
    ensures { EvaluatesFirst (looked (length system.now.defs.now) system.now.sizes) (found system.now.sizes system.now.stores.old.now system.now.stores.new.now system.now.defs.now) system.now.sizes (first_of system.now numbers.now) assignment.now out.old out.new result }
{
    system.check_crowd()?;
    evaluate::evaluate(&numbers.system(system), assignment, out)
}

// `evaluate`, where the definitions are records.
pub fn evaluate_records(
    system: &LentRecords<'_>,
    assignment: &[u64],
    out: &mut [u64],
) -> Result<usize, Refusal>
    ensures { EvaluateIs system.now.sizes (records_in system.now) assignment.now out.old result out.new }
{
    let mut numbers = Numbers::none();
    numbers.unload(system.defs);
    evaluate_first(system, &numbers, assignment, out)
}
