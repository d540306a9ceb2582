//! A balanced tree of blocks, in which moves stand in the order of ranks.

ghost use Rattle.std.specs.Prelude.{◌≡◌, ◌⊎◌, ℕ, ◌+◌, ◌-◌, ◌*◌, ◌^◌, ◌<◌, ◌≤◌, min, max, true, false, [], ◌∷◌, ◌++◌, length, IfOk, OnOk, OnErr, slice_index_or};
ghost use Rattle.std.specs.List.{sum_by};
ghost use Rattle.lg_types.specs.declared.moves.Move.{Move};
ghost use Rattle.lg_moves.specs.declared.tree.Node.TheVariants.{Fork};
ghost use Rattle.lg_moves.specs.Sums.{AreSums, IsBounded};
ghost use Rattle.lg_moves.specs.Ranks.{IsUpToMove, Each, IsRising};
ghost use Rattle.lg_types.specs.Tally.{if_passing};
ghost use Rattle.lg_moves.specs.Bounds.{is_by_rank, passes};
ghost use Rattle.lg_moves.specs.Seen.{fresh};
ghost use Rattle.lg_moves.specs.Tree.{seen, whole, trunk_of, IsThick, AreInOrder, IsBalanced, IsNearlyBalanced, Joins, SettlesAt, RebalancesTo, Puts, Grows};

use crate::block::{Block, CAPACITY, halve_and_insert};
use crate::bounds::{Bound, Key, is_before, is_up_to};
use crate::sums::Sums;
use lg_base::NoMemory;
use lg_runs::Steps;
use lg_types::Move;
use std::alloc::Global;
use std::marker::Model;
use std::mem;
use std::sync::ledger::Ledger;

/// What a node stores of its subtree.
#[derive(Clone, Copy)]
pub(crate) struct Trunk {
    pub total: Sums,
    pub height: u64,
}

#[cycle(tree)]
#[derive(Drop)]
pub(crate) struct Tree {
    node: Node,
}

#[cycle(tree)]
#[derive(Drop)]
pub(crate) enum Node {
    Empty,
    // The left side, a block, what is stored of all three, and the right side.
    Fork(Box<Tree>, Block, Trunk, Box<Tree>),
}

impl Model for Tree {
    ghost use Rattle.lg_moves.specs.Seen.{Grown};

    ghost Value = { Grown };

    ghost use Rattle.lg_moves.specs.Seen.{fresh};
    ghost use Rattle.lg_moves.specs.Tree.{seen, IsBalanced};

    ghost view = { λ t. seen t.node };

    ghost invariant = { λ t. IsBalanced t.node };

    ghost size = { λ g. g.blocks };

    ghost use Rattle.std.proofs.Common.{arith};

    ghost size_decreases = { λ t h. Prim.grind arith };
}

impl Tree {
    pub(crate) fn new() -> Tree
        ensures { result ≡ record { items = []; height = 0; blocks = 0; extra = 0 } }
    {
        Tree { node: Node::Empty }
    }

    /// The number of levels.
    pub(crate) fn height(&self) -> u64
        ensures { result ≡ self.now.height }
    {
        match &self.node {
            Node::Empty => 0,
            Node::Fork(_, _, trunk, _) => trunk.height,
        }
    }

    /// The sums of all its moves.
    pub(crate) fn total(&self) -> Sums
        ensures { AreSums result (λ part. sum_by part self.now.items) }
    {
        match &self.node {
            Node::Empty => Sums::zero(),
            Node::Fork(_, _, trunk, _) => trunk.total,
        }
    }

    /// Whether it has no block.
    pub(crate) fn is_empty(&self) -> bool
        ensures empty { result ≡ true → self.now.items ≡ [] }
        ensures some { result ≡ false → 0 < self.now.blocks }
    {
        match &self.node {
            Node::Empty => true,
            Node::Fork(_, _, _, _) => false,
        }
    }

    fn open<L: Ledger>(self, steps: &mut Steps<L>) -> Node
        ensures same_view { seen result ≡ self }
        ensures balanced { IsBalanced result }
        ensures cost { steps.new ≡ steps.old + 1 }
    {
        steps.tick();
        self.node
    }

    /// A tree of one move.
    pub(crate) fn of<L: Ledger>(item: &Move, spare: Spare, steps: &mut Steps<L>) -> Tree
        requires fresh { spare ≡ fresh }
        requires bounded { IsBounded (λ part. part item.now) }
        ensures seen { result ≡ record { items = item.now ∷ []; height = 1; blocks = 1; extra = 0 } }
        ensures cost { steps.new ≤ steps.old + 3 }
    {
        let mut spare = spare;
        spare.block.insert(item, steps);
        Tree::close(spare.into_node(steps))
    }

    /// Puts a block before all others.
    fn push_front<L: Ledger>(&mut self, spare: Spare, steps: &mut Steps<L>)
        requires rising { IsRising (spare.items ++ self.old.items) }
        requires bounded { IsBounded (λ part. sum_by part (spare.items ++ self.old.items)) }
        requires some { 0 < length spare.items }
        requires room { length spare.items + spare.spare ≡ 32 }
        requires height { self.old.height < 2 ^ 62 }
        ensures items { self.new.items ≡ spare.items ++ self.old.items }
        ensures blocks { self.new.blocks ≡ self.old.blocks + 1 }
        ensures extra { self.new.extra ≡ self.old.extra + (length spare.items - 16) }
        ensures thick { IsThick self.new }
        ensures not_lower { self.old.height ≤ self.new.height }
        ensures at_most_one_higher { self.new.height ≤ self.old.height + 1 }
        ensures cost { steps.new ≤ steps.old + (6 * self.old.height + 2) }
    {
        steps.tick();
        match &mut self.node {
            Node::Empty => {
                self.node = spare.into_node(steps);
            }
            Node::Fork(l, _, _, _) => {
                l.push_front(spare, steps);
                rebalance(&mut self.node, steps);
            }
        }
    }

    /// Puts a move into a tree of some blocks, at a place of its rank.
    pub(crate) fn insert<L: Ledger>(&mut self, item: &Move, pool: &mut Pool, steps: &mut Steps<L>)
        requires some { 0 < self.old.blocks }
        requires bounded { IsBounded (λ part. sum_by part self.old.items + part item.now) }
        requires height { self.old.height < 2 ^ 62 }
        requires pool { 16 ≤ self.old.extra → 0 < pool.old }
        ensures grows { Grows item.now self.old self.new pool.old pool.new }
        ensures cost { steps.new ≤ steps.old + (6 * self.old.height + 54) }
    {
        steps.tick();
        match &mut self.node {
            Node::Empty => {}
            Node::Fork(l, block, _, r) => {
                if goes_left(l, block, item) {
                    l.insert(item, pool, steps);
                    rebalance(&mut self.node, steps);
                } else if goes_right(block, r, item) {
                    r.insert(item, pool, steps);
                    rebalance(&mut self.node, steps);
                } else {
                    put(block, r, item, pool, steps);
                    rebalance(&mut self.node, steps);
                }
            }
        }
    }

    /// The sums of its moves that pass a bound of ranks.
    pub(crate) fn sum<L: Ledger>(&self, bound: &Bound, steps: &mut Steps<L>) -> Sums
        requires { is_by_rank bound.now ≡ true }
        ensures value { AreSums result (λ part. sum_by (if_passing (passes bound.now) part) self.now.items) }
        ensures cost { steps.new ≤ steps.old + (self.now.height + 32) }
    {
        match &self.node {
            Node::Empty => Sums::zero(),
            Node::Fork(l, block, _, r) => {
                steps.tick();
                if !bound.is_near(&block.first()) {
                    l.sum(bound, steps)
                } else if bound.is_near(&block.last()) {
                    let rest = r.sum(bound, steps);
                    l.total().plus(block.sums().plus(rest))
                } else {
                    let part = block.sum(bound, steps);
                    l.total().plus(part)
                }
            }
        }
    }

    fn close(node: Node) -> Tree
        requires { IsBalanced node }
        ensures same_view { result ≡ seen node }
    {
        Tree { node }
    }
}

/// A block and two empty trees, from which a node is made without memory: seen as its block.
#[derive(Drop)]
pub(crate) struct Spare {
    block: Block,
    left: Box<Tree>,
    right: Box<Tree>,
}

impl Model for Spare {
    ghost use Rattle.std.specs.Prelude.{◌≡◌, []};
    ghost use Rattle.lg_runs.specs.Runs.{Kept};
    ghost use Rattle.lg_types.specs.declared.moves.Move.{Move};

    ghost Value = { Kept Move };

    ghost view = { λ s. s.block };

    ghost invariant = { λ s. (s.left.value ≡ record { items = []; height = 0; blocks = 0; extra = 0 }) × (s.right.value ≡ record { items = []; height = 0; blocks = 0; extra = 0 }) };
}

impl Spare {
    pub(crate) fn new(alloc: Global) -> Result<Spare, NoMemory>
        ensures { IfOk result (λ s. s ≡ record { items = []; spare = 32 }) }
    {
        let block = Block::with_room(alloc)?;
        let left = Box::new(alloc, Tree::new())?;
        let right = Box::new(alloc, Tree::new())?;
        Ok(Spare { block, left, right })
    }

    /// A node of its block alone.
    fn into_node<L: Ledger>(self, steps: &mut Steps<L>) -> Node
        requires rising { IsRising self.items }
        requires bounded { IsBounded (λ part. sum_by part self.items) }
        requires some { 0 < length self.items }
        requires room { length self.items + self.spare ≡ 32 }
        ensures balanced { IsBalanced result }
        ensures seen { seen result ≡ record { items = self.items; height = 1; blocks = 1; extra = length self.items - 16 } }
        ensures cost { steps.new ≡ steps.old + 1 }
    {
        let Spare { block, left, right } = self;
        fork(left, block, right, steps)
    }
}

/// A node of two sides and a block.
fn fork<L: Ledger>(l: Box<Tree>, block: Block, r: Box<Tree>, steps: &mut Steps<L>) -> Node
    requires parts { AreInOrder l.value block r.value }
    requires height { max l.value.height r.value.height + 1 < 2 ^ 64 }
    ensures node { result ≡ Fork l block (trunk_of l.value block r.value) r }
    ensures cost { steps.new ≡ steps.old + 1 }
{
    steps.tick();
    let height = l.height().max(r.height()) + 1;
    let total = l.total().plus(block.sums().plus(r.total()));
    Node::Fork(l, block, Trunk { total, height }, r)
}

/// A node of two sides and a block, of which the left side is two levels higher.
fn lean_left<L: Ledger>(mut l: Box<Tree>, block: Block, z: Box<Tree>, steps: &mut Steps<L>) -> Node
    requires parts { AreInOrder l.value block z.value }
    requires two_higher { l.value.height ≡ z.value.height + 2 }
    requires height_fits { l.value.height ≤ 2 ^ 62 }
    ensures balanced { IsBalanced result }
    ensures joins { Joins l.value block z.value (seen result) }
    ensures not_lower { l.value.height ≤ (seen result).height }
    ensures at_most_one_higher { (seen result).height ≤ l.value.height + 1 }
    ensures cost { steps.new ≤ steps.old + 5 }
{
    let Node::Fork(x, left, _, mut y) = mem::replace(&mut *l, Tree::new()).open(steps) else {
        unreachable!()
    };
    if x.height() >= y.height() {
        *l = Tree::close(fork(y, block, z, steps));
        return fork(x, left, l, steps);
    }
    let Node::Fork(u, middle, _, v) = mem::replace(&mut *y, Tree::new()).open(steps) else {
        unreachable!()
    };
    *y = Tree::close(fork(x, left, u, steps));
    *l = Tree::close(fork(v, block, z, steps));
    fork(y, middle, l, steps)
}

/// A node of two sides and a block, of which the right side is two levels higher.
fn lean_right<L: Ledger>(a: Box<Tree>, block: Block, mut r: Box<Tree>, steps: &mut Steps<L>) -> Node
    requires parts { AreInOrder a.value block r.value }
    requires two_higher { r.value.height ≡ a.value.height + 2 }
    requires height_fits { r.value.height ≤ 2 ^ 62 }
    ensures balanced { IsBalanced result }
    ensures joins { Joins a.value block r.value (seen result) }
    ensures not_lower { r.value.height ≤ (seen result).height }
    ensures at_most_one_higher { (seen result).height ≤ r.value.height + 1 }
    ensures cost { steps.new ≤ steps.old + 5 }
{
    let Node::Fork(mut y, right, _, x) = mem::replace(&mut *r, Tree::new()).open(steps) else {
        unreachable!()
    };
    if x.height() >= y.height() {
        *r = Tree::close(fork(a, block, y, steps));
        return fork(r, right, x, steps);
    }
    let Node::Fork(u, middle, _, v) = mem::replace(&mut *y, Tree::new()).open(steps) else {
        unreachable!()
    };
    *r = Tree::close(fork(a, block, u, steps));
    *y = Tree::close(fork(v, right, x, steps));
    fork(r, middle, y, steps)
}

/// Balances a node after one of its sides has changed.
fn rebalance<L: Ledger>(node: &mut Node, steps: &mut Steps<L>)
    requires { IsNearlyBalanced node.old }
    ensures node { RebalancesTo node.old node.new }
    ensures cost { steps.new ≤ steps.old + 5 }
{
    *node = match mem::replace(node, Node::Empty) {
        Node::Empty => Node::Empty,
        Node::Fork(l, block, _, r) => {
            let (left, right) = (l.height(), r.height());
            if left > right + 1 {
                lean_left(l, block, r, steps)
            } else if right > left + 1 {
                lean_right(l, block, r, steps)
            } else {
                fork(l, block, r, steps)
            }
        }
    };
}

/// Whether a move goes into the left side: it is before the block's moves, and there are blocks.
fn goes_left(left: &Tree, block: &Block, item: &Move) -> bool
    requires { 0 < length block.now.items }
    ensures some { result ≡ true → 0 < left.now.blocks }
    ensures before { result ≡ true → (d : Move) → IsUpToMove item.now (slice_index_or block.now.items 0 d) }
    ensures after { result ≡ false → (left.now.items ≡ []) ⊎ ((d : Move) → IsUpToMove (slice_index_or block.now.items 0 d) item.now) }
{
    !left.is_empty() && is_before(&Key::of(item), &block.first())
}

/// Whether a move goes into the right side: it isn't before the block's moves, and there are blocks.
fn goes_right(block: &Block, right: &Tree, item: &Move) -> bool
    requires { 0 < length block.now.items }
    ensures some { result ≡ true → 0 < right.now.blocks }
    ensures after { result ≡ true → (d : Move) → IsUpToMove (slice_index_or block.now.items (length block.now.items - 1) d) item.now }
    ensures before { result ≡ false → (right.now.items ≡ []) ⊎ ((d : Move) → IsUpToMove item.now (slice_index_or block.now.items (length block.now.items - 1) d)) }
{
    !right.is_empty() && is_up_to(&block.last(), &Key::of(item))
}

/// Puts a move into a block. Where the block is full its upper half goes to the right side first.
fn put<L: Ledger>(
    block: &mut Block,
    right: &mut Tree,
    item: &Move,
    pool: &mut Pool,
    steps: &mut Steps<L>,
)
    requires some { 0 < length block.old.items }
    requires room { length block.old.items + block.old.spare ≡ 32 }
    requires rising { IsRising (block.old.items ++ right.old.items) }
    requires after { Each (IsUpToMove item.now) right.old.items }
    requires bounded { IsBounded (λ part. sum_by part (block.old.items ++ right.old.items) + part item.now) }
    requires thick { IsThick right.old }
    requires height { right.old.height < 2 ^ 62 }
    requires pool { length block.old.items ≡ 32 → 0 < pool.old }
    ensures puts { Puts item.now block.old right.old block.new right.new pool.old pool.new }
    ensures cost { steps.new ≤ steps.old + (6 * right.old.height + 54) }
{
    if block.len() < CAPACITY {
        block.insert(item, steps);
    } else {
        let mut spare = pool.take();
        halve_and_insert(block, &mut spare.block, item, steps);
        right.push_front(spare, steps);
    }
}

/// Spare nodes, seen as their number.
#[derive(Drop)]
pub(crate) struct Pool {
    spares: Vec<Spare>,
}

impl Model for Pool {
    ghost use Rattle.std.specs.Prelude.{◌≡◌, ℕ, [], vec_len};
    ghost use Rattle.std.specs.List.{All};
    ghost use Rattle.lg_moves.specs.Seen.{fresh};

    ghost Value = { ℕ };

    ghost view = { λ p. vec_len p.spares };

    ghost invariant = { λ p. All (λ s. s ≡ fresh) p.spares.items };
}

impl Pool {
    pub(crate) fn new(alloc: Global) -> Pool
        ensures { result ≡ 0 }
    {
        Pool {
            spares: Vec::new(alloc),
        }
    }

    /// The number of spare nodes.
    pub(crate) fn len(&self) -> usize
        ensures { result ≡ self.now }
    {
        self.spares.len()
    }

    /// Takes memory for one more node.
    pub(crate) fn add(&mut self, alloc: Global) -> Result<(), NoMemory>
        ensures ok { OnOk result (self.new ≡ self.old + 1) }
        ensures err { OnErr result (self.new ≡ self.old) }
    {
        let spare = Spare::new(alloc)?;
        self.spares.push(spare)?;
        Ok(())
    }

    /// Drops all but so many.
    pub(crate) fn truncate(&mut self, len: usize)
        ensures { self.new ≡ min len self.old }
    {
        self.spares.truncate(len);
    }

    /// Takes a spare node out.
    pub(crate) fn take(&mut self) -> Spare
        requires { 0 < self.old }
        ensures spare { result ≡ fresh }
        ensures rest { self.new + 1 ≡ self.old }
    {
        match self.spares.pop() {
            Some(spare) => spare,
            None => unreachable!(),
        }
    }
}
