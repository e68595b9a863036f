// Freeing of parameters: the call, and what it is made of. What freeing is stands in regression.
#![tactic(auto)]

ghost use Rattle.std.specs.Prelude.{◌≡◌, ◌+◌, ◌≤◌, length};
ghost use Rattle.diagram.specs.Listing.{diagram_of};
ghost use Rattle.rename.specs.Inner.{Freeable};
ghost use Rattle.rename.specs.Freeing.{freed};
ghost use Rattle.refusal.specs.Outcome.{ok};
ghost use Rattle.regression.specs.RegressCall.{written_as, free_answer, free_result, free_own};
ghost use Rattle.freeing.specs.FreeTasks.{any_set, FreeTask, FreedWith};

use label::Term;
use refusal::Refusal;

// Whether one of the n marks from `first` on is set.
pub fn any_set(marks: &[u64], first: usize, n: usize) -> bool
    requires { first + n ≤ length marks.now }
    ensures { result ≡ any_set marks.now first n }
{
    marks[first..first + n].iter().any(|m| *m != 0)
}

// Writes a listing with its parameters freed.
fn write_freed(arities: &[u64], words: &[u64], count: u64, out: &mut [u64])
    requires free_task { FreeTask arities.now words.now count out.old }
    requires freeable { Freeable arities.now count (diagram_of words.now) }
    ensures { out.new ≡ written_as (ok (freed arities.now count (diagram_of words.now))) out.old }
{
    let mut map = [0u64; Term::END as usize];
    rename::free_map(count, &mut map);
    rename::relabel_rows(arities, words, &map, out);
}

// Frees a listing: no parameter past the count (6), no variable that would pass the last (8); minimum variables stay.
pub fn free_checked(
    arities: &[u64],
    words: &[u64],
    count: u64,
    out: &mut [u64],
) -> Result<usize, Refusal>
    requires { FreeTask arities.now words.now count out.old }
    ensures { FreedWith (free_own arities.now words.now count) result out.old out.new }
{
    let mut marks = [0u64; Term::END as usize];
    listing::used(arities, words, &mut marks);
    let n = count as usize;
    let parameters = (Term::PARAMETERS as usize) - n;
    if any_set(&marks, (Term::FIRST_PARAMETER as usize) + n, parameters) {
        return Err(Refusal::Unbound);
    }
    if any_set(&marks, (Term::FIRST_MINIMUM as usize) - n, n) {
        return Err(Refusal::Variables);
    }
    write_freed(arities, words, count, out);
    Ok(words.len() / 3)
}

// Frees the parameters of an action that has `count` of them.
pub fn free(
    arities: &[u64],
    words: &[u64],
    count: u64,
    out: &mut [u64],
    work: &[u64],
) -> Result<usize, Refusal>
    ensures value { result ≡ free_answer arities.now words.now count (length out.old) (length work.now) }
    ensures out_after { out.new ≡ free_result arities.now words.now count (length work.now) out.old }
{
    if !listing::check(arities, words) {
        return Err(Refusal::Listing);
    }
    if out.len() < diagram::RESULT_WORDS {
        return Err(Refusal::Buffer);
    }
    if work.len() < diagram::SPACE_WORDS {
        return Err(Refusal::Buffer);
    }
    if count > Term::PARAMETERS {
        return Err(Refusal::Range);
    }
    free_checked(arities, words, count, out)
}
