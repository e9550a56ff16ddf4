// Assignments: made, and overwritten where filling back has to make them good.
ghost use Rattle.std.specs.Prelude.{◌≡◌, length};
ghost use Rattle.replay_undo.specs.Words.{random_of, word_at, made_words, disturbed, overwritten, laid_flags};

use crate::places;

#[tactic(auto, unfolding(crate::specs::Words::random_of))]
fn random(seed: u64, i: u64) -> u64
    ensures { result ≡ random_of seed i }
{
    let a = places::mix(places::mix(seed, i), 738274635291);
    let b = places::mix(a, i);
    let c = places::mix(b, i);
    c * 17179869184 ^ b * 131072 ^ a
}

// All zeros, all ones, or anything.
fn word(kind: usize, seed: u64, i: usize) -> u64
    ensures { result ≡ word_at kind seed i }
{
    match kind {
        0 => 0,
        1 => u64::MAX,
        _ => random(places::mix(seed, kind as u64), i as u64),
    }
}

pub fn make(words: &mut [u64], kind: usize, seed: u64)
    ensures { words.new ≡ made_words kind seed (length words.old) words.old }
{
    for i in 0..words.len() {
        words[i] = word(kind, seed, i);
    }
}

// The word becomes another one, unless its wire is committed.
#[tactic(auto, unfolding(crate::specs::Words::disturbed))]
fn disturb(words: &mut [u64], w: usize, flag: u8)
    ensures { words.new ≡ disturbed w flag words.old }
{
    if flag != 0 {
        return;
    }
    let x = places::get(words, w, 0).wrapping_add(11400714819323198485);
    places::put(words, w, x);
}

// The words of all uncommitted defined wires.
pub fn overwrite(words: &mut [u64], dsts: &[u16], n: usize, flags: &[u8])
    ensures { words.new ≡ overwritten dsts.now flags.now n words.old }
{
    for i in 0..n {
        let w = usize::from(places::get(dsts, i, 0));
        disturb(words, w, places::get(flags, w, 0));
    }
}

// The flags of defined wires; all others stay.
pub fn lay_flags(to: &mut [u8], dsts: &[u16], n: usize, flags: &[u8])
    ensures { to.new ≡ laid_flags dsts.now flags.now n to.old }
{
    for i in 0..n {
        let w = usize::from(places::get(dsts, i, 0));
        places::put(to, w, places::get(flags, w, 0));
    }
}
