// What an answer tells: a number, and its values in the lent slice.
#![tactic(auto)]

ghost use Rattle.std.specs.Prelude.{◌≡◌, Ok};
ghost use Rattle.std.proofs.lemmas.List.Edits.{sets};
ghost use Rattle.word.specs.Answers.{given};
ghost use Rattle.shift.specs.Shifts.{number_of};
ghost use Rattle.shift.specs.Answers.{told_composed};
ghost use Rattle.operand.specs.Push.{told_pushed};
ghost use Rattle.house_write.specs.Write.{told_written};
ghost use Rattle.fusion.specs.Answer.{told_fused};
ghost use Rattle.evaluate.specs.Evaluation.{told_evaluated};
ghost use Rattle.tell.specs.Gives.{Gives, GivesRead};

use fusion::Counts;
use house_file::{FileFault, FileRead};
use operand::PushInner;
use refusal::Refusal;
use shift::{Composition, Shift};

// An answer's values, from the front on: what would stand past the end is dropped. One by one: a call that copies costs more than the few
// that there are.
fn lay(answer: &[u64], values: &mut [u64])
    ensures { values.new ≡ sets values.old 0 answer.now }
{
    for i in 0..answer.len() {
        house_file::put(&mut *values, i, answer[i]);
    }
}

fn tell(answer: &[u64], values: &mut [u64]) -> u8
    ensures { Gives (given answer.now) values.old result values.new }
{
    lay(answer, values);
    0
}

// Kept: `Shift::index` and `valid::index` look at a shift or ask for a valid one, and an answer does not say that its shifts are valid.
fn number_of(s: Shift) -> u64
    ensures { result ≡ number_of s }
{
    64 * u64::from(s.variant.number()) + u64::from(s.amount)
}

pub fn composed(answer: Result<Composition, Refusal>, values: &mut [u64]) -> u8
    ensures { Gives (told_composed answer) values.old result values.new }
{
    match answer {
        Ok(Composition::Single(s)) => tell(&[0, number_of(s)], values),
        Ok(Composition::Zero) => tell(&[1], values),
        Ok(Composition::Pair) => tell(&[2], values),
        Err(refusal) => refusal.number(),
    }
}

pub fn pushed(answer: Result<PushInner, Refusal>, values: &mut [u64]) -> u8
    ensures { Gives (told_pushed answer) values.old result values.new }
{
    match answer {
        Ok(PushInner::Seq(a, b)) => tell(&[0, number_of(a), number_of(b)], values),
        Ok(PushInner::Zero) => tell(&[1], values),
        Ok(PushInner::OverBudget) => tell(&[2], values),
        Err(refusal) => refusal.number(),
    }
}

pub fn read(answer: Result<FileRead, FileFault>, values: &mut [u64]) -> u8
    ensures { GivesRead answer values.old result values.new }
{
    match answer {
        Ok(FileRead { sizes, terms }) => {
            let answer = [
                sizes.wires as u64,
                sizes.ands as u64,
                sizes.imuls as u64,
                sizes.bmuls as u64,
                sizes.zeros as u64,
                sizes.linears as u64,
                terms as u64,
            ];
            tell(&answer, values)
        }
        Err(FileFault { refusal, at }) => {
            lay(&[at as u64], values);
            refusal.number()
        }
    }
}

#[tactic(auto, unfolding(fusion::specs::Answer::told_fused))]
pub fn fused(answer: Result<Counts, Refusal>, values: &mut [u64]) -> u8
    ensures { Gives (told_fused answer) values.old result values.new }
{
    match answer {
        Ok(k) => {
            let answer = [
                k.gone as u64,
                k.stranded as u64,
                k.committed as u64,
                k.written as u64,
                k.kept as u64,
            ];
            tell(&answer, values)
        }
        Err(refusal) => refusal.number(),
    }
}

pub fn written(answer: Result<usize, Refusal>, values: &mut [u64]) -> u8
    ensures { Gives (told_written answer) values.old result values.new }
{
    match answer {
        Ok(length) => tell(&[length as u64], values),
        Err(refusal) => refusal.number(),
    }
}

pub fn evaluated(answer: Result<usize, Refusal>, values: &mut [u64]) -> u8
    ensures { Gives (told_evaluated answer) values.old result values.new }
{
    match answer {
        Ok(count) => tell(&[count as u64], values),
        Err(refusal) => refusal.number(),
    }
}
