// What accepted lines add to a model in lent words.
#![tactic(auto)]

ghost use Rattle.std.specs.Prelude.{◌≡◌, ◌+◌, ◌*◌, ◌<◌, ◌≤◌, length};
ghost use Rattle.std.proofs.Math.Seq.{paste};
ghost use Rattle.mdp.specs.Model.{most_variants};
ghost use Rattle.model.specs.Layout.{span_words, action_words, variants_of};
ghost use Rattle.model_entry.specs.Inner.{FewVariants};
ghost use Rattle.model_entry.specs.Building.{variants_before};
ghost use Rattle.model_entry.specs.Adding.{ActionRoom, ActionAdded, RowsRoom, RewardAdded, Cleared, Opened, VariantRoom, VariantAdded, TruthRoom, TruthPlaced, HasTruth, TruthAdded};

use model::Head;

// Words of a variant in the table for its truth diagrams: two for each predicate.
const SPAN_WORDS: usize = 64;

// Copies the first rows of the result buffer into the listings, from the word `start` on.
fn append(listings: &mut [u64], start: usize, out: &[u64], rows: usize)
    requires rows_in_bounds { start + rows * 3 ≤ length listings.old }
    requires rows_in_bounds_2 { rows * 3 ≤ length out.now }
    ensures { listings.new ≡ paste listings.old start out.now (rows * 3) }
{
    let n = rows * 3;
    listings[start..start + n].copy_from_slice(&out[..n]);
}

// The variants of the first a actions.
pub fn variants_before(table: &[u64], a: usize) -> usize
    requires { FewVariants table.now a }
    ensures { result ≡ variants_before table.now a }
{
    let mut n = 0;
    for i in 0..a {
        n += table[i * model::ACTION_WORDS + 1] as usize;
    }
    n
}

// (action n !p ..): one action more, of `count` parameters and with no variant.
pub fn add_action(table: &mut [u64], head: Head, count: u64) -> Head
    requires { ActionRoom table.old head }
    ensures { ActionAdded table.old head count table.new result }
{
    let a = head.actions;
    table[a * model::ACTION_WORDS] = count;
    table[a * model::ACTION_WORDS + 1] = 0;
    Head {
        actions: a + 1,
        ..head
    }
}

// (reward DIAGRAM): the result buffer's first rows are the reward.
pub fn add_reward(listings: &mut [u64], head: Head, out: &[u64], rows: usize) -> Head
    requires { RowsRoom listings.old head out.now rows }
    ensures { RewardAdded listings.old head out.now rows listings.new result }
{
    let start = head.words;
    append(listings, start, out, rows);
    let n = rows * 3;
    Head {
        reward_start: start,
        reward_words: n,
        words: start + n,
        ..head
    }
}

// No words: 64 words of the table from the word `first` on become 0.
fn clear(table: &mut [u64], first: usize)
    requires { first + span_words ≤ length table.old }
    ensures { Cleared table.old first span_words table.new }
{
    table[first..first + SPAN_WORDS].fill(0);
}

// One variant more of the action a: its weight has n words from the word `start` of the listings on, and it has no truth diagram.
fn open_variant(table: &mut [u64], a: usize, start: usize, n: usize)
    requires action_words_in_bounds { a * action_words + action_words ≤ length table.old }
    requires a_bound { variants_of table.old a < most_variants }
    ensures { Opened table.old a start n table.new }
{
    let v = table[a * model::ACTION_WORDS + 1] as usize;
    let place = a * model::ACTION_WORDS + 2 + v * model::VARIANT_WORDS;
    clear(table, place + 2);
    table[place] = start as u64;
    table[place + 1] = n as u64;
    table[a * model::ACTION_WORDS + 1] = (v + 1) as u64;
}

// (variant n WEIGHT): one variant more of the last action, the result buffer's first rows are its weight.
pub fn add_variant(
    listings: &mut [u64],
    table: &mut [u64],
    head: Head,
    out: &[u64],
    rows: usize,
) -> Head
    requires rows_room { RowsRoom listings.old head out.now rows }
    requires variant_room { VariantRoom table.old head }
    ensures { VariantAdded listings.old table.old head out.now rows listings.new table.new result }
{
    let start = head.words;
    append(listings, start, out, rows);
    let n = rows * 3;
    open_variant(table, head.actions - 1, start, n);
    Head {
        words: start + n,
        ..head
    }
}

// Where the two words for the truth diagram of the predicate p stand in the table, for the last variant of the last action.
fn truth_place(table: &[u64], head: Head, p: usize) -> usize
    requires { TruthRoom table.now head p }
    ensures { TruthPlaced table.now head p result }
{
    let a = head.actions - 1;
    let v = (table[a * model::ACTION_WORDS + 1] as usize) - 1;
    a * model::ACTION_WORDS + 2 + v * model::VARIANT_WORDS + 2 + p * 2
}

// Whether the last variant of the last action has a truth diagram of the predicate p.
pub fn has_truth(table: &[u64], head: Head, p: usize) -> bool
    requires { TruthRoom table.now head p }
    ensures { HasTruth table.now head p result }
{
    table[truth_place(table, head, p) + 1] != 0
}

// (becomes (p ?a ..) DIAGRAM): the result buffer's first rows are the truth diagram of the predicate p, of the last variant of the last action.
pub fn add_truth(
    listings: &mut [u64],
    table: &mut [u64],
    head: Head,
    p: usize,
    out: &[u64],
    rows: usize,
) -> Head
    requires rows_room { RowsRoom listings.old head out.now rows }
    requires rows_nonzero { 0 < rows }
    requires truth_room { TruthRoom table.old head p }
    ensures { TruthAdded listings.old table.old head p out.now rows listings.new table.new result }
{
    let start = head.words;
    append(listings, start, out, rows);
    let n = rows * 3;
    let at = truth_place(table, head, p);
    table[at] = start as u64;
    table[at + 1] = n as u64;
    Head {
        words: start + n,
        ..head
    }
}
