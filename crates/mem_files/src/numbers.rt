//! Sets of numbers in use.

ghost use Rattle.std.specs.Prelude.{◌≡◌, ◌+◌, ◌*◌, ◌^◌, ◌<◌, ◌≤◌, ℕ, IfOk, true, false, length, set, drop, replicate, slice_index_or};
ghost use Rattle.mem_files.specs.Inside.Numbers.{mark, IsRightBut};

use std::alloc::{AllocError, Global};
use std::marker::Model;

/// The numbers below a power of two, and which of them are in use.
///
/// Contracts see a list with one truth value per number. Each change and each search takes time logarithmic in the
/// list's length. Only `new` allocates.
#[derive(Drop)]
pub struct Numbers {
    /// A tree in a list: node 1 is the root, the children of node i are 2i and 2i + 1, and the nodes from `leaves` on
    /// are the numbers. A node is set if all numbers below it are in use.
    full: Vec<bool>,
    leaves: usize,
    height: u32,
}

impl Model for Numbers {
    ghost use Rattle.std.specs.Prelude.{Bool, List, drop};
    ghost use Rattle.std.specs.Coded.{coded_list, coded_bool};
    ghost use Rattle.mem_files.specs.Inside.Numbers.{IsTree};

    ghost Value = { List Bool };

    ghost coded = { coded_list coded_bool };

    ghost view = { λ numbers. drop numbers.leaves numbers.full.items };

    ghost invariant = { λ numbers. IsTree numbers.full.items numbers.leaves numbers.height };
}

impl Numbers {
    /// The numbers below 2^`height`, all unused.
    pub fn new(alloc: Global, height: u32) -> Result<Numbers, AllocError>
        requires { height < 32 }
        ensures { IfOk result (λ numbers. numbers ≡ replicate (2 ^ height) false) }
    {
        let leaves = 1usize << height;
        let full = vec![in alloc; false; 2 * leaves]?;
        Ok(Numbers {
            full,
            leaves,
            height,
        })
    }

    /// Marks a number as used.
    pub fn insert(&mut self, number: u32)
        requires { number < length self.old }
        ensures { self.new ≡ set self.old number true }
    {
        self.mark(number, true);
    }

    /// Marks a number as unused.
    pub fn remove(&mut self, number: u32)
        requires { number < length self.old }
        ensures { self.new ≡ set self.old number false }
    {
        self.mark(number, false);
    }

    /// The lowest unused number; the count of numbers if all are used.
    pub fn lowest_unused(&self) -> usize
        ensures unused { slice_index_or self.now result false ≡ false }
        ensures used { (number : ℕ) → number < result → slice_index_or self.now number false ≡ true }
    {
        if self.full[1] {
            return self.leaves;
        }
        leftmost(&self.full, self.height) - self.leaves
    }

    fn mark(&mut self, number: u32, used: bool)
        requires { number < length self.old }
        ensures { self.new ≡ set self.old number used }
    {
        let node = self.leaves + number as usize;
        self.full[node] = used;
        settle(&mut self.full, node / 2);
    }
}

/// Updates a node and those above it after one of its children changed.
fn settle(full: &mut [bool], from: usize)
    requires inside { 2 * from + 1 < length full.old }
    requires right { IsRightBut from full.old }
    ensures right { IsRightBut 0 full.new }
    ensures leaves { (count : ℕ) → from < count → drop count full.new ≡ drop count full.old }
{
    let mut node = from;
    while node > 0 {
        full[node] = full[2 * node] && full[2 * node + 1];
        node /= 2;
    }
}

/// The leftmost unset leaf below an unset root.
fn leftmost(full: &[bool], height: u32) -> usize
    requires sized { length full.now ≡ 2 * 2 ^ height }
    requires right { IsRightBut 0 full.now }
    requires capacity { mark full.now 1 ≡ false }
    ensures leaf { 2 ^ height ≤ result }
    ensures within { result < 2 * 2 ^ height }
    ensures unused { mark full.now result ≡ false }
    ensures used { (leaf : ℕ) → 2 ^ height ≤ leaf → leaf < result → mark full.now leaf ≡ true }
{
    let mut node = 1;
    for depth in 0..height {
        node *= 2;
        if full[node] {
            node += 1;
        }
    }
    node
}
