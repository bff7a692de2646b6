// Whether clauses have a model, and which is the first: calls on lent memory. The literal 2x is the
// variable x, and 2x + 1 its negation; the literals of a clause stand among the words, from the first of
// its two spans up to the second.
#![tactic(auto)]

ghost use Rattle.std.specs.Prelude.{◌≡◌, ℕ, ◌+◌, ◌*◌, ◌^◌, ◌<◌, ◌≤◌, min, length, slice_index, EachIndex};
ghost use Rattle.sat.specs.Promise.{floor_of, code, AnswerPost, CodePost};
ghost use Rattle.sat.specs.Under.{UnderPost, UnderCodePost, FirstPost, FirstOf, FirstCodePost};

use clauses::{Clauses, Store, all_known};
use conflicts::Counters;

// Questions on lent work.
mod solving;

pub use solving::{ask_stored, first_stored};

// Why a question is refused: these are no clauses, or no assumptions; or too little memory is lent.
#[derive(Clone, Copy, PartialEq, Eq, Debug)]
pub enum Refusal {
    Bad,
    Few,
}

// The words that have to be lent for so many variables and clauses.
pub fn floor(variables: usize, clauses: usize) -> usize
    requires { (variables < 2147483647) × (clauses < 2 ^ 60) }
    ensures { result ≡ floor_of variables clauses }
{
    15 * variables + 4 * clauses
}

// Writes what was counted, as far as there is room: conflicts, decisions, fresh starts, times that
// clauses were forgotten, times that analysis found no clause, clauses that found no room.
fn write_counters(counters: &Counters, counts: &mut [u64]) {
    let all = [
        counters.conflicts,
        counters.decisions,
        counters.restarts,
        counters.reductions,
        counters.refusals,
        counters.unkept,
    ];
    for (count, counter) in counts.iter_mut().zip(all) {
        *count = counter;
    }
}

// Whether clauses have a model. The literals of a clause stand among the words, from the first of its
// two spans up to the second; the literal 2x is the variable x, and 2x + 1 its negation; there are as
// many variables as values. The first so many of them are decided first. Where there is a model, the
// values become 1 for true and 2 for false.
pub fn ask(
    spans: &mut [u32],
    words: &mut [u32],
    values: &mut [u32],
    decided: usize,
    work: &mut [u32],
) -> Result<bool, Refusal>
    ensures spans { spans.new ≡ spans.old }
    ensures words { words.new ≡ words.old }
    ensures answer { AnswerPost spans.old words.old values.old values.new (length work.old) result }
{
    ask_under(spans, words, values, decided, &[], &mut [], work)
}

// An answer as a number: 0 where there is none, 1 a model, 2 bad clauses or assumptions, 3 few words.
fn code_of(answer: Result<bool, Refusal>) -> u32
    ensures { result ≡ code answer }
{
    match answer {
        Ok(false) => 0,
        Ok(true) => 1,
        Err(Refusal::Bad) => 2,
        Err(Refusal::Few) => 3,
    }
}

pub fn sat_ask(
    spans: &mut [u32],
    words: &mut [u32],
    values: &mut [u32],
    decided: usize,
    work: &mut [u32],
) -> u32
    ensures spans { spans.new ≡ spans.old }
    ensures words { words.new ≡ words.old }
    ensures code { CodePost spans.old words.old values.old values.new (length work.old) result }
{
    code_of(ask(spans, words, values, decided, work))
}

// Whether clauses have a model in which the assumptions are true. There are as many variables as
// values, of which the first so many are decided first. Where there is a model, the values become 1 for
// true and 2 for false.
pub fn ask_under(
    spans: &mut [u32],
    words: &mut [u32],
    values: &mut [u32],
    decided: usize,
    assumptions: &[u32],
    counts: &mut [u64],
    work: &mut [u32],
) -> Result<bool, Refusal>
    ensures spans { spans.new ≡ spans.old }
    ensures words { words.new ≡ words.old }
    ensures answer { UnderPost spans.old words.old assumptions.now values.old values.new (length work.old) result }
{
    let variables = values.len();
    if variables >= 0x7fff_ffff {
        return Err(Refusal::Bad);
    }
    let problem = Clauses::parse(variables, spans, words).ok_or(Refusal::Bad)?;
    if !all_known(assumptions, variables) {
        return Err(Refusal::Bad);
    }
    if work.len() < floor(variables, problem.len()) {
        return Err(Refusal::Few);
    }
    let mut counters = Counters::default();
    let found = ask_stored(problem, values, decided, assumptions, work, &mut counters);
    write_counters(&counters, counts);
    Ok(found)
}

pub fn sat_ask_under(
    spans: &mut [u32],
    words: &mut [u32],
    values: &mut [u32],
    decided: usize,
    assumptions: &[u32],
    counts: &mut [u64],
    work: &mut [u32],
) -> u32
    ensures spans { spans.new ≡ spans.old }
    ensures words { words.new ≡ words.old }
    ensures code { UnderCodePost spans.old words.old assumptions.now values.old values.new (length work.old) result }
{
    code_of(ask_under(spans, words, values, decided, assumptions, counts, work))
}

// Has spans count from other words, which begin so many earlier.
fn count_from(spans: &mut [u32], earlier: u32)
    ensures { EachIndex spans.new (λ k. slice_index spans.new k ≡ min (slice_index spans.old k + earlier) 4294967295) }
{
    for span in spans.iter_mut() {
        *span = span.saturating_add(earlier);
    }
}

// The first model of clauses that stand in memory of their own; the units that come get the memory behind
// it, and their spans count from where the clauses' words begin.
fn first_of(
    spans: &[u32],
    words: &[u32],
    spare_spans: &mut [u32],
    spare_words: &mut [u32],
    values: &mut [u32],
    decided: usize,
    low: usize,
    high: usize,
    counts: &mut [u64],
    work: &mut [u32],
) -> Result<Option<usize>, Refusal>
    requires few { length values.old < 2147483647 }
    requires range { high ≤ length values.old }
    ensures { FirstOf spans.now words.now (length spare_spans.old) (length spare_words.old) low high values.old values.new (length work.old) result }
{
    let variables = values.len();
    let problem = Clauses::parse(variables, spans, words).ok_or(Refusal::Bad)?;
    let more = high.saturating_sub(low);
    if more > spare_spans.len() / 2
        || more > spare_words.len()
        || more > 0xffff_ffff - words.len()
    {
        return Err(Refusal::Few);
    }
    if work.len() < floor(variables, problem.len()) {
        return Err(Refusal::Few);
    }
    let units = Store::new(variables, spare_spans, spare_words);
    let mut counters = Counters::default();
    let found = first_stored(
        problem,
        units,
        values,
        decided,
        low,
        high,
        work,
        &mut counters,
    );
    write_counters(&counters, counts);
    if found.is_some() {
        count_from(&mut spare_spans[..2 * more], words.len() as u32);
    }
    Ok(found)
}

// The first model of clauses by the variables of a range, in their sequence, false first. The first so
// many spans and words are the clauses, which stay as they are; there must be room behind them for a
// clause of one literal more for each variable of the range, which is written there. How many questions
// that took; nothing where there is no model.
pub fn first(
    spans: &mut [u32],
    words: &mut [u32],
    count: usize,
    used: usize,
    values: &mut [u32],
    decided: usize,
    low: usize,
    high: usize,
    counts: &mut [u64],
    work: &mut [u32],
) -> Result<Option<usize>, Refusal>
    ensures says { FirstPost spans.old words.old count used low high values.old values.new (length work.old) result }
    ensures spans { (p : ℕ) → p < 2 * count → slice_index spans.new p ≡ slice_index spans.old p }
    ensures words { (p : ℕ) → p < used → slice_index words.new p ≡ slice_index words.old p }
{
    let variables = values.len();
    if variables >= 0x7fff_ffff || high > variables {
        return Err(Refusal::Bad);
    }
    if count > spans.len() / 2 || used > words.len() {
        return Err(Refusal::Bad);
    }
    let (spans, spare_spans) = spans.split_at_mut(2 * count);
    let (words, spare_words) = words.split_at_mut(used);
    first_of(
        spans,
        words,
        spare_spans,
        spare_words,
        values,
        decided,
        low,
        high,
        counts,
        work,
    )
}

// The answer as a number: 0 where there is none, 1 bad clauses, 2 few words, and else how many
// questions found the first model, plus 2.
pub fn sat_first(
    spans: &mut [u32],
    words: &mut [u32],
    count: usize,
    used: usize,
    values: &mut [u32],
    decided: usize,
    low: usize,
    high: usize,
    counts: &mut [u64],
    work: &mut [u32],
) -> u64
    ensures code { FirstCodePost spans.old words.old count used low high values.old values.new (length work.old) result }
    ensures spans { (p : ℕ) → p < 2 * count → slice_index spans.new p ≡ slice_index spans.old p }
    ensures words { (p : ℕ) → p < used → slice_index words.new p ≡ slice_index words.old p }
{
    match first(
        spans, words, count, used, values, decided, low, high, counts, work,
    ) {
        Ok(None) => 0,
        Err(Refusal::Bad) => 1,
        Err(Refusal::Few) => 2,
        Ok(Some(questions)) => (questions as u64).saturating_add(2),
    }
}
