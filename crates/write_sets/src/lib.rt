// Write sets: which of 256 variables can be written, a bit for each, in four 64-bit words, which of 64 declared words, in a fifth, and
// which of 32 arrays, in one 32-bit word.
#![tactic(auto)]

pub mod arrays; // arrays.rt: the word of the arrays

ghost use Rattle.std.specs.Prelude.{◌≡◌, ◌+◌, ◌<◌, ◌^◌, eqb};
ghost use Rattle.words.specs.Word.{pick};
ghost use Rattle.write_sets.specs.Sets.{bit_of, word_of, member, bit_at, variable_bits, declared_bits, variable_bit, declared_bit, nothing as nothing_of, single as single_of, join as join_of};
ghost use Rattle.write_sets.specs.Counts.{count_below};

// Where a bit stands: its word, and its place in the word.
#[derive(Clone, Copy)]
pub struct Bit {
    pub word: usize,
    pub place: usize,
}

// The variables, and in the fifth word the declared words, a bit each; `bit_of` says which.
#[derive(Clone, Copy)]
pub struct WriteSet {
    pub words: [u64; 5],
}

// Where the bit of the word i stands; the declared words begin at `store`. Every set is made by this.
pub fn bit_of(store: usize, i: usize) -> Bit
    ensures { result ≡ bit_of store i }
{
    if i < store {
        return Bit {
            word: i / 64,
            place: i % 64,
        };
    }
    let declared = i - store;
    Bit {
        word: 4 + declared / 64,
        place: declared % 64,
    }
}

// The bit, where the word k is the word n; else 0.
fn bit_in(k: usize, n: usize, bit: u64) -> u64
    ensures { result ≡ pick (eqb k n) bit 0 }
{
    if k == n {
        return bit;
    }
    0
}

impl WriteSet {
    // The empty set.
    pub fn nothing() -> WriteSet
        ensures { result ≡ nothing_of }
    {
        WriteSet { words: [0; 5] }
    }

    // The word i alone.
    pub fn single(store: usize, i: usize) -> WriteSet
        ensures { result ≡ single_of store i }
    {
        let at = bit_of(store, i);
        let bit = 1 << at.place;
        WriteSet {
            words: [
                bit_in(at.word, 0, bit),
                bit_in(at.word, 1, bit),
                bit_in(at.word, 2, bit),
                bit_in(at.word, 3, bit),
                bit_in(at.word, 4, bit),
            ],
        }
    }

    // What is in either set.
    pub fn join(self, other: WriteSet) -> WriteSet
        ensures { result ≡ join_of self other }
    {
        WriteSet {
            words: [
                self.words[0] | other.words[0],
                self.words[1] | other.words[1],
                self.words[2] | other.words[2],
                self.words[3] | other.words[3],
                self.words[4] | other.words[4],
            ],
        }
    }

    // The word k; there are five, and behind them all are 0.
    fn word(self, k: usize) -> u64
        ensures { result ≡ word_of self k }
    {
        self.words.get(k).copied().unwrap_or(0)
    }

    fn has_bit(self, at: Bit) -> bool
        requires { at.place < 64 }
        ensures { result ≡ bit_at self at }
    {
        (self.word(at.word) >> at.place) % 2 == 1
    }

    // Whether the word i, which a name means, is in the set.
    pub fn has(self, store: usize, i: usize) -> bool
        ensures { result ≡ member store self i }
    {
        self.has_bit(bit_of(store, i))
    }

    // Whether the variable i is in the set.
    pub fn has_variable(self, i: usize) -> bool
        ensures { result ≡ variable_bit self i }
    {
        self.has_bit(Bit {
            word: i / 64,
            place: i % 64,
        })
    }

    // Whether the declared word i, from 0, is in the set.
    pub fn has_declared(self, i: usize) -> bool
        requires { i < declared_bits }
        ensures { result ≡ declared_bit self i }
    {
        self.has_bit(Bit { word: 4, place: i })
    }

    // How many variables and declared words are in the set: the ones in its words.
    pub fn count(self) -> u32
        ensures { result ≡ count_below variable_bits (variable_bit self) + count_below declared_bits (declared_bit self) }
    {
        self.words[0].count_ones()
            + self.words[1].count_ones()
            + self.words[2].count_ones()
            + self.words[3].count_ones()
            + self.words[4].count_ones()
    }
}
