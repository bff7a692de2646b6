// A binary heap of variables with the most active on top. Each variable knows its place in the heap,
// so that it can be moved when its activity grows. Below place k stand the places 2 k + 1 and 2 k + 2.
// That heap and places agree is not proved: where a place is taken for an index, it is compared first.
ghost use Rattle.std.specs.Prelude.{◌≡◌, ℕ, ◌+◌, ◌^◌, ◌<◌, ◌≤◌, length, slice_index};
ghost use Rattle.order.specs.Scores.{Score};
ghost use Rattle.order.specs.Queues.{Kept, Popped};

use super::score::{grown, shrunk, sum};
use std::marker::Model;

// What the first conflict adds to an activity.
const FIRST_STEP: u32 = 0x0080_0000;
// From here on all activities are shrunk, long before sums would stop at the largest.
const HIGH: u32 = 0xf000_0000;
// By which part of itself the step grows: activities fade to 19/20 with each conflict.
const PART: u32 = 19;

#[derive(Drop)]
pub struct Order<'a> {
    // The activity of each variable.
    scores: &'a mut [u32],
    // Variables, of which the first are in the heap, as many as the count says.
    heap: &'a mut [u32],
    // For each variable its place in the heap plus one, and 0 where it is not there.
    places: &'a mut [u32],
    count: usize,
    // What is added to an activity now.
    step: u32,
}

impl<'a> Model for Order<'a> {
    ghost use Rattle.order.specs.Queues.{Queue};

    ghost Value = { Queue };

    ghost use Rattle.order.specs.Orders.{queue_of, Ordered};

    ghost view = { queue_of };

    ghost invariant = { Ordered };
}

// Writes the numbers from the given one on into words.
fn count_up(words: &mut [u32], from: u32)
    requires { (length words.old < 2 ^ 31) × (from ≤ 1) }
    ensures { (k : ℕ) → k < length words.old → slice_index words.new k ≡ k + from }
{
    for (at, word) in words.iter_mut().enumerate() {
        *word = at as u32 + from;
    }
}

// Makes all activities lower by the same factor.
fn shrink(scores: &mut [u32])
    requires { (k : ℕ) → Score (slice_index scores.old k) }
    ensures { (k : ℕ) → Score (slice_index scores.new k) }
{
    for score in scores {
        *score = shrunk(*score);
    }
}

impl<'a> Order<'a> {
    // No variable is active, and the first of them, which are to be decided, are in the heap, with
    // variable 0 on top.
    pub fn new(
        scores: &'a mut [u32],
        heap: &'a mut [u32],
        places: &'a mut [u32],
        decided: usize,
    ) -> Order<'a>
        requires few { length scores.old < 2 ^ 31 }
        requires heap_long { length heap.old ≡ length scores.old }
        requires places_long { length places.old ≡ length scores.old }
        requires within { decided ≤ length scores.old }
        ensures variables { result.variables ≡ length scores.old }
        ensures count { result.count ≡ decided }
        ensures top { 0 < decided → result.top ≡ 0 }
    {
        scores.fill(0);
        places.fill(0);
        count_up(&mut heap[..decided], 0);
        count_up(&mut places[..decided], 1);
        Order {
            scores,
            heap,
            places,
            count: decided,
            step: FIRST_STEP,
        }
    }

    // Activities, a heap of so many variables and their places that stand in the memory already, and what
    // is added to an activity now: one who kept an order's memory takes it up again. Nothing is written.
    pub fn over(
        scores: &'a mut [u32],
        heap: &'a mut [u32],
        places: &'a mut [u32],
        count: usize,
        step: u32,
    ) -> Order<'a>
        requires few { length scores.old < 2 ^ 31 }
        requires heap_long { length heap.old ≡ length scores.old }
        requires places_long { length places.old ≡ length scores.old }
        requires counted { count ≤ length scores.old }
        requires known { (k : ℕ) → k < count → slice_index heap.old k < length scores.old }
        requires placed { (v : ℕ) → slice_index places.old v ≤ length scores.old }
        requires scored { (v : ℕ) → Score (slice_index scores.old v) }
        requires stepped { Score step }
        ensures variables { result.variables ≡ length scores.old }
        ensures count { result.count ≡ count }
        ensures top { result.top ≡ slice_index heap.old 0 }
        ensures scores_named { result.scores_name ≡ scores.entry.ghost_name }
        ensures heap_named { result.heap_name ≡ heap.entry.ghost_name }
        ensures places_named { result.places_name ≡ places.entry.ghost_name }
    {
        Order {
            scores,
            heap,
            places,
            count,
            step,
        }
    }
}

impl Order<'_> {
    // How many variables there are.
    pub fn variables(&self) -> usize
        ensures is { result ≡ self.now.variables }
        ensures few { result < 2 ^ 31 }
    {
        self.scores.len()
    }

    // Puts a variable at a place of the heap.
    fn put(&mut self, at: usize, variable: u32)
        requires within { at < self.old.count }
        requires known { variable < self.old.variables }
        ensures kept { Kept self.old self.new }
        ensures counted { self.new.count ≡ self.old.count }
    {
        // This opens the order, whose count bounds the place.
        prove!(at < self.count);
        self.heap[at] = variable;
        self.places[variable as usize] = at as u32 + 1;
    }

    // Moves the variable at a place up past all that are less active.
    fn rise(&mut self, from: usize)
        requires within { from < self.old.count }
        ensures kept { Kept self.old self.new }
        ensures counted { self.new.count ≡ self.old.count }
    {
        prove!(from < self.count);
        let variable = self.heap[from];
        let score = self.scores[variable as usize];
        let mut at = from;
        // the place halves, as in any heap
        while at > 0 {
            let above = (at - 1) / 2;
            let other = self.heap[above];
            if self.scores[other as usize] >= score {
                break;
            }
            self.put(at, other);
            at = above;
        }
        self.put(at, variable);
    }

    // Of a place and the next one, that of the more active variable.
    fn more_active(&self, at: usize) -> usize
        requires within { at < self.now.count }
        ensures { (at ≤ result) × (result < self.now.count) }
    {
        prove!(at < self.count);
        let next = at + 1;
        if next == self.count {
            return at;
        }
        let one = self.scores[self.heap[at] as usize];
        let other = self.scores[self.heap[next] as usize];
        if one < other { next } else { at }
    }

    // Moves the variable on top down past all that are more active.
    fn sink(&mut self)
        requires within { 0 < self.old.count }
        ensures kept { Kept self.old self.new }
        ensures counted { self.new.count ≡ self.old.count }
    {
        let variable = self.heap[0];
        let score = self.scores[variable as usize];
        let mut at = 0;
        // and doubles here
        while 2 * at + 1 < self.count {
            let below = self.more_active(2 * at + 1);
            let other = self.heap[below];
            if self.scores[other as usize] <= score {
                break;
            }
            self.put(at, other);
            at = below;
        }
        self.put(at, variable);
    }

    // Takes a variable in, unless it is there. The heap has room for all, and is compared with its
    // length in place of a proof that no variable stands in it twice.
    pub fn insert(&mut self, variable: u32)
        requires known { variable < self.old.variables }
        ensures kept { Kept self.old self.new }
        ensures counted { (self.old.count ≤ self.new.count) × (self.new.count ≤ self.old.count + 1) }
    {
        let at = self.count;
        if self.places[variable as usize] == 0 && at < self.heap.len() {
            self.heap[at] = variable;
            self.count += 1;
            self.rise(at);
        }
    }

    // Takes the variable on top out, which is the most active.
    pub fn pop(&mut self) -> Option<u32>
        ensures kept { Kept self.old self.new }
        ensures popped { Popped self.old self.new result }
    {
        if self.count == 0 {
            return None;
        }
        let top = self.heap[0];
        self.places[top as usize] = 0;
        self.count -= 1;
        self.heap[0] = self.heap[self.count];
        if self.count > 0 {
            self.sink();
        }
        Some(top)
    }

    // Divides all activities and the step by the same number, which leaves their order as it is.
    fn rescale(&mut self)
        ensures kept { Kept self.old self.new }
        ensures counted { self.new.count ≡ self.old.count }
    {
        shrink(self.scores);
        self.step = shrunk(self.step);
    }

    // Makes a variable more active by the step.
    pub fn bump(&mut self, variable: u32)
        requires known { variable < self.old.variables }
        ensures kept { Kept self.old self.new }
        ensures counted { self.new.count ≡ self.old.count }
    {
        let score = sum(self.scores[variable as usize], self.step);
        self.scores[variable as usize] = score;
        if score >= HIGH {
            self.rescale();
        }
        let place = self.places[variable as usize] as usize;
        if place > 0 && place <= self.count {
            self.rise(place - 1);
        }
    }

    // Makes what is bumped from now on count for more, which is to let all activities fade.
    pub fn decay(&mut self)
        ensures kept { Kept self.old self.new }
        ensures counted { self.new.count ≡ self.old.count }
    {
        self.step = grown(self.step, PART);
        if self.step >= HIGH {
            self.rescale();
        }
    }
}
