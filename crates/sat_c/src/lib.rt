// The calls for other languages, as a static library.
#![tactic(auto)]

ghost use Rattle.std.specs.Prelude.{◌≡◌, ℕ, ◌*◌, ◌<◌, length, slice_index};
ghost use Rattle.sat.specs.Promise.{CodePost};
ghost use Rattle.sat.specs.Under.{UnderCodePost, FirstCodePost};

// 0 where the clauses have no model, 1 where the values are one, 2 where these are no clauses, 3 where
// too few words are lent.
#[unsafe(no_mangle)]
pub extern "C" fn sat_ask(
    spans: &mut [u32],
    words: &mut [u32],
    values: &mut [u32],
    decided: usize,
    work: &mut [u32],
) -> u32
    ensures spans { spans.new ≡ spans.old }
    ensures words { words.new ≡ words.old }
    ensures code { CodePost spans.old words.old values.old values.new (length work.old) result }
{
    sat::sat_ask(spans, words, values, decided, work)
}

// The same under assumptions: 2 also where these are no literals. What was counted is written into
// counts, as far as there is room: conflicts, decisions, fresh starts, times that clauses were
// forgotten, times that analysis found no clause, clauses that found no room.
#[unsafe(no_mangle)]
pub extern "C" fn sat_ask_under(
    spans: &mut [u32],
    words: &mut [u32],
    values: &mut [u32],
    decided: usize,
    assumptions: &[u32],
    counts: &mut [u64],
    work: &mut [u32],
) -> u32
    ensures spans { spans.new ≡ spans.old }
    ensures words { words.new ≡ words.old }
    ensures code { UnderCodePost spans.old words.old assumptions.now values.old values.new (length work.old) result }
{
    sat::sat_ask_under(spans, words, values, decided, assumptions, counts, work)
}

// The first model by the variables of a range, false first: 0 where there is none, 1 bad clauses, 2 few
// words or no room for a clause more for each variable of the range, and else how many questions found
// it, plus 2.
#[unsafe(no_mangle)]
pub extern "C" fn sat_first(
    spans: &mut [u32],
    words: &mut [u32],
    count: usize,
    used: usize,
    values: &mut [u32],
    decided: usize,
    low: usize,
    high: usize,
    counts: &mut [u64],
    work: &mut [u32],
) -> u64
    ensures code { FirstCodePost spans.old words.old count used low high values.old values.new (length work.old) result }
    ensures spans { (p : ℕ) → p < 2 * count → slice_index spans.new p ≡ slice_index spans.old p }
    ensures words { (p : ℕ) → p < used → slice_index words.new p ≡ slice_index words.old p }
{
    sat::sat_first(
        spans, words, count, used, values, decided, low, high, counts, work,
    )
}
