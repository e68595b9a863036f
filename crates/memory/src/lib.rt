// A session in lent words: the numbers that go from line to line beside them, and what a line answers. What they stand for is in specs/.
#![tactic(auto)]

ghost use Rattle.std.specs.Prelude.{◌≡◌, ◌++◌, ◌≤◌, length, drop};
ghost use Rattle.memory.specs.Inner.{with_state};
ghost use Rattle.memory.specs.Memory.{opening_numbers};
ghost use Rattle.memory.specs.Saving.{number_words, part_word, part_of, flag_word, saved_words, numbers_at, lines_at, met_at};

use answers::Answer;
use declare::Counts;
use facts::Live;
use model::Head;
use planner::RunNumbers;
use session::Part;

// A session's numbers: the part of the text, which single forms were accepted, and how much of each lent table counts.
#[derive(Clone, Copy)]
pub struct Numbers {
    pub part: Part,
    pub total: bool,
    pub discount: bool,
    pub reward: bool,
    pub counts: Counts,
    pub head: Head,
    pub live: Live,
    pub held: RunNumbers,
}

// The numbers behind a line, and what the line is answered.
#[derive(Clone, Copy)]
pub struct Said {
    pub numbers: Numbers,
    pub answer: Answer,
}

// W where no (total) line is accepted.
const TOTAL: u64 = 100;

// G and D where no (discount) line is accepted.
const NUMERATOR: u64 = 19;

const DENOMINATOR: u64 = 20;

// Before the first line.
pub fn opening() -> Numbers
    ensures { result ≡ opening_numbers }
{
    Numbers {
        part: Part::Model,
        total: false,
        discount: false,
        reward: false,
        counts: Counts {
            constants: 0,
            predicates: 0,
            actions: 0,
            parameters: 0,
            variants: 0,
            earlier: 0,
        },
        head: Head {
            total: TOTAL,
            numerator: NUMERATOR,
            denominator: DENOMINATOR,
            reward_start: 0,
            reward_words: 0,
            actions: 0,
            words: 0,
        },
        live: Live {
            objects: 0,
            facts: 0,
            count: 0,
            total: 0,
        },
        held: RunNumbers {
            rows: 0,
            steps: 0,
            power: 1,
        },
    }
}

// The numbers with another state.
pub fn with_state(n: Numbers, live: Live) -> Numbers
    ensures { result ≡ with_state n live }
{
    Numbers { live, ..n }
}

// The words that a session's numbers, its answered lines and whether one of them had bytes take.
pub const NUMBER_WORDS: usize = 26;

// The part of the text as a word: 0 for the model, 1 for the run.
fn part_word(part: Part) -> u64
    ensures { result ≡ part_word part }
{
    match part {
        Part::Model => 0,
        Part::Run => 1,
    }
}

// The part that a word says.
fn part_of(word: u64) -> Part
    ensures { result ≡ part_of word }
{
    if word == 0 {
        return Part::Model;
    }
    Part::Run
}

// A flag as a word.
fn flag_word(flag: bool) -> u64
    ensures { result ≡ flag_word flag }
{
    u64::from(flag)
}

// Writes all words of a list in front of others.
fn put_front(words: &mut [u64], list: &[u64])
    requires { length list.now ≤ length words.old }
    ensures { words.new ≡ list.now ++ drop (length list.now) words.old }
{
    words[..list.len()].copy_from_slice(list);
}

// Stores a session's numbers, how many lines were answered, and whether one of them had bytes; the words behind stay.
pub fn store(words: &mut [u64], n: Numbers, lines: u64, met: bool)
    requires { number_words ≤ length words.old }
    ensures { words.new ≡ saved_words n lines met ++ drop number_words words.old }
{
    let counts = n.counts;
    let head = n.head;
    let live = n.live;
    let held = n.held;
    let list = [
        part_word(n.part),
        flag_word(n.total),
        flag_word(n.discount),
        flag_word(n.reward),
        counts.constants as u64,
        counts.predicates as u64,
        counts.actions as u64,
        counts.parameters as u64,
        counts.variants as u64,
        counts.earlier as u64,
        head.total,
        head.numerator,
        head.denominator,
        head.reward_start as u64,
        head.reward_words as u64,
        head.actions as u64,
        head.words as u64,
        live.objects,
        live.facts as u64,
        live.count,
        live.total,
        held.rows as u64,
        held.steps,
        held.power,
        lines,
        flag_word(met),
    ];
    put_front(words, &list);
}

// The numbers that were stored.
pub fn load(words: &[u64]) -> Numbers
    requires { number_words ≤ length words.now }
    ensures { result ≡ numbers_at words.now }
{
    Numbers {
        part: part_of(words[0]),
        total: words[1] == 1,
        discount: words[2] == 1,
        reward: words[3] == 1,
        counts: Counts {
            constants: words[4] as usize,
            predicates: words[5] as usize,
            actions: words[6] as usize,
            parameters: words[7] as usize,
            variants: words[8] as usize,
            earlier: words[9] as usize,
        },
        head: Head {
            total: words[10],
            numerator: words[11],
            denominator: words[12],
            reward_start: words[13] as usize,
            reward_words: words[14] as usize,
            actions: words[15] as usize,
            words: words[16] as usize,
        },
        live: Live {
            objects: words[17],
            facts: words[18] as usize,
            count: words[19],
            total: words[20],
        },
        held: RunNumbers {
            rows: words[21] as usize,
            steps: words[22],
            power: words[23],
        },
    }
}

// The lines answered, as they were stored.
pub fn lines_of(words: &[u64]) -> u64
    requires { number_words ≤ length words.now }
    ensures { result ≡ lines_at words.now }
{
    words[24]
}

// Whether a line with bytes was met, as it was stored.
pub fn met_of(words: &[u64]) -> bool
    requires { number_words ≤ length words.now }
    ensures { result ≡ met_at words.now }
{
    words[25] == 1
}
