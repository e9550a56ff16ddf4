// What an operand is worth under an assignment: the xor of its terms' words, each shifted by inner, then outer.
ghost use Rattle.std.specs.Prelude.{◌≡◌};
ghost use Rattle.operand.specs.Numbers.{term_of, operand_of};
ghost use Rattle.lower.specs.Lists.{All};
ghost use Rattle.lower.specs.Accepted.{ShiftsOf};
ghost use Rattle.lower.specs.Stores.{Stands};
ghost use Rattle.lower.specs.Values.{word_of, term_value, value};

use operand::TermStores;

// The word of a wire. Past the end it is 0, as the model has it.
fn word_of(words: &[u64], i: usize) -> u64
    ensures { result ≡ word_of words.now i }
{
    words.get(i).copied().unwrap_or(0)
}

fn term_value(t: u64, words: &[u64]) -> u64
    requires { ShiftsOf (term_of t) }
    ensures { result ≡ term_value (word_of words.now) (term_of t) }
{
    let wire = operand::term::wire(t);
    let inner = shift::valid::from_index(operand::term::inner(t));
    let outer = shift::valid::from_index(operand::term::outer(t));
    let word = word_of(words, wire.0 as usize);
    let moved = shift::valid::apply(inner, word);
    shift::valid::apply(outer, moved)
}

// The value of the operand of number `h`: its terms from the last one on, as the model sums them.
pub fn operand_value(stores: &TermStores<'_>, h: u64, words: &[u64]) -> u64
    requires stands { Stands stores.now.old.now stores.now.new.now h }
    requires shifted { All ShiftsOf (operand_of stores.now.old.now stores.now.new.now h) }
    ensures { result ≡ value (word_of words.now) (operand_of stores.now.old.now stores.now.new.now h) }
{
    let ts = stores.terms(h);
    let mut sum: u64 = 0;
    for i in (0..ts.len()).rev() {
        sum = term_value(ts[i], words) ^ sum;
    }
    sum
}
