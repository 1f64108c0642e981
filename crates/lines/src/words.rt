// The words of a line, and the numbers that they spell.
ghost use Rattle.std.specs.Prelude.{◌≡◌, ◌≢◌, ◌∷◌, ◌↔◌, [], MatchOption, MatchResult, OnOk, IsTrue, drop};
ghost use Rattle.lines.specs.Words.{texts, words_in, words_left, usage_of, FaultSays, OkOrExpected, OkOrFault, Spells, SpellsNone, FirstSpells, NoNumber, SpellEach, OneSpellsNone, SpellsToSlash, NoListToSlash, slash};

use crate::fault::Fault;
use std::alloc::Global;
use std::str::{FromStr, SplitAsciiWhitespace};

pub const ROW: &str = "ROW from 0 to 18446744073709551615";

pub const COUNT: &str = "N from 0 to 18446744073709551615";

pub const WORD: &str = "words from 0 to 65535";

// The words of a line that are left to take, and what the line should be. A line may be long, so the words of a text are
// cut one at a time, as they are taken, and need no memory.
#[derive(Drop)]
pub struct Words<'a> {
    heap: Global,
    left: &'a [&'a str],
    behind: SplitAsciiWhitespace<'a>,
    usage: &'static str,
}

impl<'a> Words<'a> {
    pub fn of(heap: Global, words: &'a [&'a str], usage: &'static str) -> Words<'a>
        ensures left { words_left result ≡ texts words.entry.now }
        ensures usage { usage_of result ≡ usage.entry.now }
    {
        Words {
            heap,
            left: words,
            behind: "".split_ascii_whitespace(),
            usage,
        }
    }

    // The words of a text, which blanks part.
    pub fn of_text(heap: Global, text: &'a str, usage: &'static str) -> Words<'a>
        ensures left { words_left result ≡ words_in text.entry.now }
        ensures usage { usage_of result ≡ usage.entry.now }
    {
        Words {
            heap,
            left: &[],
            behind: text.split_ascii_whitespace(),
            usage,
        }
    }

    // What the line should be is known once its command is.
    pub fn should_be(&mut self, usage: &'static str)
        ensures left { words_left self.new ≡ words_left self.old }
        ensures usage { usage_of self.new ≡ usage.entry.now }
    {
        self.usage = usage;
    }

    // The line is not what it should be.
    pub fn unexpected(&self) -> Fault
        ensures { FaultSays ⊥ result (λ text. text ≡ usage_of self.now) }
    {
        Fault::Expected(self.usage)
    }

    #[tactic(auto, using(crate::proofs::Cutting::cut_behind))]
    pub fn next(&mut self) -> Option<&'a str>
        ensures word { MatchOption result ((words_left self.old ≡ []) × (words_left self.new ≡ [])) (λ word. words_left self.old ≡ word.now ∷ words_left self.new) }
        ensures usage { usage_of self.new ≡ usage_of self.old }
    {
        let [word, left @ ..] = self.left else {
            return self.behind.next();
        };
        self.left = left;
        Some(word)
    }

    // The number that the next word spells. `expected` says what the word should be.
    pub fn number<T: FromStr>(&mut self, expected: &'static str) -> Result<T, Fault>
    where
        T::Err: Drop,
        ensures cases { OkOrExpected result (FirstSpells T.from_str_gives (words_left self.old) (words_left self.new)) (NoNumber T.from_str_gives (usage_of self.old) expected.entry.now (words_left self.old)) }
        ensures usage { usage_of self.new ≡ usage_of self.old }
        ensures left { words_left self.new ≡ drop 1 (words_left self.old) }
    {
        let word = self.next().ok_or(self.unexpected())?;
        spelled(word, expected)
    }

    // The numbers that the rest of the line spells.
    pub fn numbers<T: FromStr + Drop>(&mut self, expected: &'static str) -> Result<Vec<T>, Fault>
    where
        T::Err: Drop,
        ensures cases { OkOrFault result (λ list. SpellEach T.from_str_gives (words_left self.old) list.items) (λ text. OneSpellsNone T.from_str_gives (words_left self.old) × (text ≡ expected.entry.now)) }
        ensures all { OnOk result (words_left self.new ≡ []) }
        ensures usage { usage_of self.new ≡ usage_of self.old }
    {
        let mut numbers = Vec::new(self.heap);
        while let Some(word) = self.next() {
            numbers.push(spelled(word, expected)?)?;
        }
        Ok(numbers)
    }

    // The numbers that the words before a `/` spell.
    pub fn numbers_before_slash<T: FromStr + Drop>(
        &mut self,
        expected: &'static str,
    ) -> Result<Vec<T>, Fault>
    where
        T::Err: Drop,
        ensures cases { OkOrFault result (λ list. SpellsToSlash T.from_str_gives (words_left self.old) (words_left self.new) list.items) (NoListToSlash T.from_str_gives (usage_of self.old) expected.entry.now (words_left self.old)) }
        ensures usage { usage_of self.new ≡ usage_of self.old }
    {
        let mut list = Vec::new(self.heap);
        while let Some(word) = self.next() {
            if is_slash(word) {
                return Ok(list);
            }
            list.push(spelled(word, expected)?)?;
        }
        Err(self.unexpected())
    }

    // Nothing may be left on the line.
    pub fn end(&self) -> Result<(), Fault>
        ensures cases { OkOrExpected result (λ unit. words_left self.now ≡ []) (λ text. (words_left self.now ≢ []) × (text ≡ usage_of self.now)) }
    {
        let mut words = self.copied()?;
        match words.next() {
            Some(_) => Err(self.unexpected()),
            None => Ok(()),
        }
    }

    // The same words, to be taken while they stay left here. It needs no memory.
    fn copied(&self) -> Result<Words<'a>, Fault>
        ensures { MatchResult result (λ words. words_left words ≡ words_left self.now) (λ fault. ⊥) }
    {
        let behind = self.behind.clone()?;
        Ok(Words {
            heap: self.heap,
            left: self.left,
            behind,
            usage: self.usage,
        })
    }
}

// Whether a word is the slash between two lists.
fn is_slash(word: &str) -> bool
    ensures { IsTrue result ↔ (word.now ≡ slash) }
{
    word == "/"
}

// The number that a word spells.
fn spelled<T: FromStr>(word: &str, expected: &'static str) -> Result<T, Fault>
where
    T::Err: Drop,
    ensures { OkOrExpected result (Spells T.from_str_gives word.now) (λ text. SpellsNone T.from_str_gives word.now × (text ≡ expected.entry.now)) }
{
    word.parse().map_err(|_| Fault::Expected(expected))
}
