// What the words behind the program's name ask for.
ghost use Rattle.std.specs.Prelude.{◌≡◌};
ghost use Rattle.fuse.specs.Asked.{slots_of, asked_by};

// The fused file or the committed wires, with so many slots.
#[derive(Clone, Copy, Debug, PartialEq, Eq)]
pub struct Asked {
    pub slots: u64,
    pub is_committed: bool,
}

fn slots_of(word: &str) -> Option<u64>
    ensures { result ≡ slots_of word.now }
{
    match word {
        "1" => Some(1),
        "2" => Some(2),
        _ => None,
    }
}

// Of so many words with the program's name, by the first two behind it; `None` where they ask for nothing that there is.
pub fn of_words(count: usize, first: &str, second: &str) -> Option<Asked>
    ensures { result ≡ asked_by count first.now second.now }
{
    match (count, first, second) {
        (0 | 1, _, _) => Some(Asked {
            slots: 2,
            is_committed: false,
        }),
        (2, "committed", _) => Some(Asked {
            slots: 2,
            is_committed: true,
        }),
        (2, word, _) => Some(Asked {
            slots: slots_of(word)?,
            is_committed: false,
        }),
        (3, word, "committed") => Some(Asked {
            slots: slots_of(word)?,
            is_committed: true,
        }),
        _ => None,
    }
}
