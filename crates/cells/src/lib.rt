// Words in runs of cells. A run is lent as words or as bytes, of which two are a word of 16 bits and four one of 32, the low byte
// first. What is written here over `Cell` holds of both.
#![tactic(auto)]

ghost use Rattle.std.specs.Prelude.{◌≡◌, ℕ, List, [], ◌+◌, ◌≤◌, ◌<◌, ◌==◌, ◌&&◌, length, drop, slice_index, slice_set, slice_range};
ghost use Rattle.std.proofs.Common.{arith};
ghost use Rattle.std.specs.List.{list_all};
ghost use Rattle.base.specs.Words.{laid, blanks, Below};
ghost use Rattle.bytewise.specs.Bytes.{words_of};
ghost use Rattle.cells.specs.Runs.{rest_of, two_bytes, four_bytes};

/// A word, as the number that it is.
pub trait Word: Copy {
    ghost number: { Self → ℕ };

    // Each is below this.
    ghost size: { ℕ };
}

impl Word for u16 {
    ghost number = { λ word. word };

    ghost size = { 0x10000 };
}

impl Word for u32 {
    ghost number = { λ word. word };

    ghost size = { 0x100000000 };
}

/// A cell of runs in which words of the kind `W` stand.
pub trait Cell<W: Word>: Copy {
    // The words of a run, and what stands behind the last whole one.
    ghost words: { List Self → List ℕ };

    ghost rest: { List Self → List Self };

    /// How many words a run has.
    fn count(run: &[Self]) -> usize
        ensures { result ≡ length (words run.now) };

    /// The word at a place.
    fn get(run: &[Self], i: usize) -> W
        requires { i < length (words run.now) }
        ensures { W.number result ≡ slice_index (words run.now) i };

    /// Puts a word at a place; what stands behind the last whole word stays.
    fn put(run: &mut [Self], i: usize, word: W)
        requires { i < length (words run.old) }
        ensures words { words run.new ≡ slice_set (words run.old) i (W.number word) }
        ensures rest { rest run.new ≡ rest run.old };

    /// The words from one on up to another.
    fn part(run: &[Self], from: usize, to: usize) -> &[Self]
        requires ordered { from ≤ to }
        requires inside { to ≤ length (words run.now) }
        ensures { words result.now ≡ slice_range (words run.now) from to };

    /// Nothing at all: a step of a proof that needs each word of a run to be one.
    fn are_words(run: &[Self])
        ensures { Below W.size (words run.now) };

    // A run has no more words than cells.
    ghost within: { (run : List Self) → length (words run) ≤ length run };
}

impl Cell<u16> for u16 {
    ghost words = { λ run. run };

    ghost rest = { λ _. [] };

    ghost within = { λ run. Prim.omega arith };

    fn count(run: &[u16]) -> usize {
        run.len()
    }

    fn get(run: &[u16], i: usize) -> u16 {
        run[i]
    }

    fn put(run: &mut [u16], i: usize, word: u16) {
        run[i] = word;
    }

    fn part(run: &[u16], from: usize, to: usize) -> &[u16] {
        &run[from..to]
    }

    fn are_words(_run: &[u16]) {}
}

impl Cell<u32> for u32 {
    ghost words = { λ run. run };

    ghost rest = { λ _. [] };

    ghost within = { λ run. Prim.omega arith };

    fn count(run: &[u32]) -> usize {
        run.len()
    }

    fn get(run: &[u32], i: usize) -> u32 {
        run[i]
    }

    fn put(run: &mut [u32], i: usize, word: u32) {
        run[i] = word;
    }

    fn part(run: &[u32], from: usize, to: usize) -> &[u32] {
        &run[from..to]
    }

    fn are_words(_run: &[u32]) {}
}

#[tactic(auto, using(crate::proofs::Bytes::words_in_bytes))]
impl Cell<u16> for u8 {
    ghost words = { words_of 2 };

    ghost rest = { rest_of 2 };

    ghost within = { λ run. Prim.omega (arith, two_bytes run) };

    fn count(run: &[u8]) -> usize {
        run.len() / 2
    }

    fn get(run: &[u8], i: usize) -> u16 {
        bytewise::word16(run, i * 2)
    }

    fn put(run: &mut [u8], i: usize, word: u16) {
        bytewise::put16(run, i * 2, u64::from(word));
    }

    fn part(run: &[u8], from: usize, to: usize) -> &[u8] {
        &run[from * 2..to * 2]
    }

    fn are_words(_run: &[u8]) {}
}

#[tactic(auto, using(crate::proofs::Bytes::words_in_bytes))]
impl Cell<u32> for u8 {
    ghost words = { words_of 4 };

    ghost rest = { rest_of 4 };

    ghost within = { λ run. Prim.omega (arith, four_bytes run) };

    fn count(run: &[u8]) -> usize {
        run.len() / 4
    }

    fn get(run: &[u8], i: usize) -> u32 {
        bytewise::word32(run, i * 4)
    }

    fn put(run: &mut [u8], i: usize, word: u32) {
        bytewise::put32(run, i * 4, u64::from(word));
    }

    fn part(run: &[u8], from: usize, to: usize) -> &[u8] {
        &run[from * 4..to * 4]
    }

    fn are_words(_run: &[u8]) {}
}

/// Words laid into a run from a place on, where they fit; the rest of it stays.
#[tactic(auto, using(crate::proofs::Laid::laid_lemmas))]
pub fn copy<W: Word, T: Cell<W>, F: Cell<W>>(to: &mut [T], at: usize, from: &[F])
    requires { at + length (F.words from.now) ≤ length (T.words to.old) }
    ensures words { T.words to.new ≡ laid (T.words to.old) at (F.words from.now) }
    ensures rest { T.rest to.new ≡ T.rest to.old }
{
    for i in 0..F::count(from) {
        T::put(to, at + i, F::get(from, i));
    }
}

/// Sets n words to FFFF, from a place on.
#[tactic(auto, using(crate::proofs::Blanks::blanks_lemmas))]
pub fn blank<C: Cell<u16>>(run: &mut [C], at: usize, n: usize)
    requires { at + n ≤ length (C.words run.old) }
    ensures words { C.words run.new ≡ laid (C.words run.old) at (blanks n) }
    ensures rest { C.rest run.new ≡ C.rest run.old }
{
    for i in 0..n {
        C::put(run, at + i, 0xFFFF);
    }
}

// Whether the words from one on up to another are FFFF. Each is looked at: with no early end a processor takes many at once.
#[tactic(auto, using(crate::proofs::Blanks::all_turn))]
fn are_ones<C: Cell<u16>>(run: &[C], from: usize, to: usize) -> bool
    requires ordered { from ≤ to }
    requires inside { to ≤ length (C.words run.now) }
    ensures { (result && list_all (λ w. w == 0xFFFF) (drop to (C.words run.now))) ≡ list_all (λ w. w == 0xFFFF) (drop from (C.words run.now)) }
{
    let mut ones = true;
    for i in from..to {
        ones &= C::get(run, i) == 0xFFFF;
    }
    ones
}

/// Whether all words are FFFF: block by block, up to the first one with another word.
#[tactic(auto, using(crate::proofs::Blanks::all_end))]
pub fn is_blank<C: Cell<u16>>(run: &[C]) -> bool
    ensures { result ≡ list_all (λ w. w == 0xFFFF) (C.words run.now) }
{
    let n = C::count(run);
    for block in 0..n / 64 {
        if !are_ones(run, block * 64, block * 64 + 64) {
            return false;
        }
    }
    are_ones(run, n / 64 * 64, n)
}
