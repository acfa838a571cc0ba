// A function of each element and an operator, for phases. Both may be told to fail. What they are said to mean allows every
// outcome, so that it is the tests which tell what comes.
ghost use Rattle.std.specs.Prelude.{◌≡◌, ◌<◌, ◌≤◌, ◌∷◌, [], IfOk, length};

use fut_scalar::{FailKind, NoMemory, Place, Report};
use std::alloc::Global;
use worker_runtime::{Applied, Chunk, Made, OperatorCode, RangeCode, Rows, StageFault};

/// Rows of one word.
#[derive(Drop)]
pub struct Words {
    pub words: Vec<u64>,
}

fn one(alloc: Global, word: u64) -> Result<Words, NoMemory>
    ensures { IfOk result (λ w. w.words.items ≡ word ∷ []) }
{
    let mut words = Vec::with_capacity(alloc, 1)?;
    words.push(word)?;
    Ok(Words { words })
}

impl Rows<u64> for Words {
    ghost rows = { λ w. w.words.items };

    fn append(&mut self, more: &Words) -> Result<(), NoMemory> {
        self.words.extend_from_slice(more.words.as_slice())?;
        Ok(())
    }

    fn last(&self, alloc: Global) -> Result<Words, NoMemory> {
        one(alloc, self.words[self.words.len() - 1])
    }
}

/// So many steps of a generator for each element, from its number on; with none it is the number. There are two stages. The
/// element `first` fails in the first and `second` in the second, where they are in the range.
#[derive(Drop)]
pub struct Generator {
    pub rounds: u64,
    pub first: u64,
    pub second: u64,
}

fn generated(element: u64, rounds: u64) -> u64 {
    let mut word = element;
    for _round in 0..rounds {
        word = word
            .wrapping_mul(6364136223846793005)
            .wrapping_add(1442695040888963407)
            ^ (word >> 29);
    }
    word
}

fn report() -> Report {
    let place = Place {
        file: 0,
        line: 1,
        column: 1,
    };
    Report {
        kind: FailKind::Assert,
        place,
    }
}

fn fault(stage: u32, element: u64) -> StageFault
    ensures { (result.stage ≡ stage) × (result.element ≡ element) }
{
    StageFault {
        stage,
        element,
        report: report(),
    }
}

impl RangeCode<u64, Words> for Generator {
    ghost function = { λ _. record { count = 33554432; row = λ n. n; stages = 2; means = λ k x o f. Unit {0} } };

    fn stage_count(&self) -> u32 {
        2
    }

    fn none(&self, alloc: Global, room: u64) -> Result<Words, NoMemory> {
        let words = Vec::with_capacity(alloc, room as usize)?;
        Ok(Words { words })
    }

    fn run_range(&self, alloc: Global, lo: u64, hi: u64) -> Result<Chunk<Words>, NoMemory> {
        if lo <= self.first && self.first < hi {
            return Ok(Chunk::Failed(fault(0, self.first)));
        }
        if lo <= self.second && self.second < hi {
            return Ok(Chunk::Failed(fault(1, self.second)));
        }
        let mut words = Vec::with_capacity(alloc, (hi - lo) as usize)?;
        for element in lo..hi {
            words.push(generated(element, self.rounds))?;
        }
        Ok(Chunk::Came(Made {
            words: Words { words },
            handed: hi - lo,
        }))
    }
}

/// Addition, which fails where the sum is greater than `most`.
#[derive(Drop)]
pub struct Sum {
    pub most: u64,
}

impl Sum {
    fn of(&self, a: u64, b: u64) -> Option<u64> {
        let sum = a.wrapping_add(b);
        if sum > self.most { None } else { Some(sum) }
    }
}

impl OperatorCode<u64, Words> for Sum {
    ghost monoid = { λ _. record { op = λ a b o f. Unit {0}; neutral = 0 } };

    fn neutral(&self, alloc: Global) -> Result<Words, NoMemory> {
        one(alloc, 0)
    }

    fn apply(&self, alloc: Global, x: &Words, y: &Words) -> Result<Applied<Words>, NoMemory> {
        let (Some(a), Some(b)) = (x.words.first(), y.words.first()) else {
            return Ok(Applied::Broke(report()));
        };
        match self.of(*a, *b) {
            Some(sum) => {
                let words = one(alloc, sum)?;
                Ok(Applied::Gave(Made { words, handed: 0 }))
            }
            None => Ok(Applied::Broke(report())),
        }
    }

    fn fold(&self, alloc: Global, words: &Words) -> Result<Applied<Words>, NoMemory> {
        let mut sum: u64 = 0;
        for word in words.words.as_slice() {
            let Some(next) = self.of(sum, *word) else {
                return Ok(Applied::Broke(report()));
            };
            sum = next;
        }
        let words = one(alloc, sum)?;
        Ok(Applied::Gave(Made { words, handed: 0 }))
    }

    fn scan(&self, alloc: Global, words: &Words) -> Result<Applied<Words>, NoMemory> {
        let mut all = Vec::with_capacity(alloc, words.words.len())?;
        let mut sum: u64 = 0;
        for k in 0..words.words.len() {
            let Some(next) = self.of(sum, words.words[k]) else {
                return Ok(Applied::Broke(report()));
            };
            sum = next;
            all.push(sum)?;
        }
        Ok(Applied::Gave(Made {
            words: Words { words: all },
            handed: 0,
        }))
    }

    fn carry(
        &self,
        alloc: Global,
        carry: &Words,
        words: &Words,
    ) -> Result<Applied<Words>, NoMemory> {
        let before = match carry.words.as_slice() {
            [word, ..] => *word,
            [] => 0,
        };
        let mut all = Vec::with_capacity(alloc, words.words.len())?;
        for k in 0..words.words.len() {
            let Some(next) = self.of(before, words.words[k]) else {
                return Ok(Applied::Broke(report()));
            };
            all.push(next)?;
        }
        Ok(Applied::Gave(Made {
            words: Words { words: all },
            handed: 0,
        }))
    }
}
