ghost use Rattle.std.specs.Prelude.{◌≡◌, ◌<◌, ◌≤◌, ◌++◌, ◌∷◌, [], List, length, IfOk, OnOk};
ghost use Rattle.mix_system.specs.declared.literal.Lit.{Lit};
ghost use Rattle.mix_system.specs.Tally.{units};
ghost use Rattle.proof_term.specs.declared.tree.Node.TheVariants as node;
ghost use Rattle.integer_splits.specs.Boxes.{IsRefutingTree};
ghost use Rattle.trail_bounds.specs.TrailBounds.{AreBoundsOf, HasRoom};
ghost use Rattle.mixed_solver.specs.Mixed.{IsMixed, IsAtGround, GoesOn, Answers};
ghost use Rattle.mixed_solver.specs.Turns.{IsQuiet, AreAllPut, Comes, Leaves, Turns, turned};
ghost use Rattle.clause_search.specs.Answers.{IsConflict};
ghost use Rattle.level_search.specs.Kept.{level_of, GoalStands};

use crate::{Mix, Mixed};
use bounded_simplex::Check;
use clause_search::Spread;
use integer_splits::{Split, solve};
use level_search::Learning;
use level_theories::{refute_goal, refuted};
use mix_system::{Farkas, Numbers, Tally};
use proof_term::{Node, Nodes, Tree};
use std::alloc::Global;
use wx_base::NoMemory;

// What a turn comes to.
#[derive(Debug, Drop)]
pub(crate) enum Turn {
    Going,
    Found(Numbers),
    Impossible,
    Spent,
}

impl Mixed<'_> {
    /// Looks for a point that fits, meets the goal and all cuts. Every step that it logs is valid.
    ///
    /// `Spent` comes only where the tally is at its budget, and a later call with a greater one
    /// goes on.
    pub fn solve(&mut self, tally: &mut Tally) -> Result<Mix, NoMemory>
        requires { IsMixed self.old }
        ensures goes_on { OnOk result (GoesOn self.old.level self.new.level) }
        ensures answers { IfOk result (λ mix. Answers mix self.new tally.new) }
        ensures budget { OnOk result (tally.new.budget ≡ tally.old.budget) }
    {
        loop {
            match self.turn(tally)? {
                Turn::Going => {}
                Turn::Found(point) => {
                    self.back_to_ground();
                    return Ok(Mix::Found(point));
                }
                Turn::Impossible => return Ok(Mix::Impossible),
                Turn::Spent => return Ok(Mix::Spent),
            }
        }
    }

    // Gives up all levels but the first.
    fn back_to_ground(&mut self)
        requires { IsMixed self.old }
        ensures ground { IsAtGround self.new }
        ensures goes_on { GoesOn self.old.level self.new.level }
    {
        let _trail = self.level.search.trail();
        self.level.back_to(0);
        self.give_back();
    }

    // Ends the level where its bounds contradict the goal, or goes on.
    fn turn(&mut self, tally: &mut Tally) -> Result<Turn, NoMemory>
        requires { IsMixed self.old }
        ensures goes_on { OnOk result (GoesOn self.old.level self.new.level) }
        ensures turns { IfOk result (λ turn. Turns turn self.new tally.old tally.new) }
        ensures budget { OnOk result (tally.new.budget ≡ tally.old.budget) }
    {
        match refute_goal(&mut self.level)? {
            Learning::Ended => Ok(Turn::Impossible),
            _ => self.spread(tally),
        }
    }

    // Propagates, and learns from a conflict, or looks at the bounds.
    fn spread(&mut self, tally: &mut Tally) -> Result<Turn, NoMemory>
        requires mixed { IsMixed self.old }
        requires goal { GoalStands (level_of self.old.level) self.old.level.steps.items }
        ensures goes_on { OnOk result (GoesOn self.old.level self.new.level) }
        ensures turns { IfOk result (λ turn. Turns turn self.new tally.old tally.new) }
        ensures budget { OnOk result (tally.new.budget ≡ tally.old.budget) }
    {
        let _trail = self.level.search.trail();
        match self.level.propagate(tally)? {
            Spread::Spent => Ok(Turn::Spent),
            Spread::Conflict(conflict) => self.learn(conflict, tally),
            Spread::Quiet => self.look(tally),
        }
    }

    // Learns from a false clause.
    fn learn(&mut self, conflict: u32, tally: &mut Tally) -> Result<Turn, NoMemory>
        requires mixed { IsMixed self.old }
        requires goal { GoalStands (level_of self.old.level) self.old.level.steps.items }
        requires conflict { IsConflict self.old.level.search conflict }
        ensures goes_on { OnOk result (GoesOn self.old.level self.new.level) }
        ensures turns { IfOk result (λ turn. Turns turn self.new tally.old tally.new) }
        ensures budget { OnOk result (tally.new.budget ≡ tally.old.budget) }
    {
        let _trail = self.level.search.trail();
        let learning = self.level.learn(conflict, tally)?;
        self.give_back();
        Ok(turned(learning))
    }

    // Checks the bounds in force; where they aren't refuted it decides, or begins a tree.
    fn look(&mut self, tally: &mut Tally) -> Result<Turn, NoMemory>
        requires mixed { IsMixed self.old }
        requires quiet { IsQuiet self.old }
        ensures goes_on { OnOk result (GoesOn self.old.level self.new.level) }
        ensures turns { IfOk result (λ turn. Turns turn self.new tally.old tally.new) }
        ensures budget { OnOk result (tally.new.budget ≡ tally.old.budget) }
    {
        let alloc = self.level.alloc();
        let ground = self.level.ground();
        self.bounds.hand(alloc, self.level.search.trail(), ground)?;
        match self.bounds.simplex.check(alloc, tally)? {
            Check::Spent => Ok(Turn::Spent),
            Check::Refuted(farkas) => {
                let tree = leaf(alloc, farkas)?;
                self.refuted(tree)
            }
            Check::Point | Check::Paused | Check::Excess(_) => self.go_on(alloc, tally),
        }
    }

    // Decides a literal, or begins a tree where every clause has a true one.
    fn go_on(&mut self, alloc: Global, tally: &mut Tally) -> Result<Turn, NoMemory>
        requires mixed { IsMixed self.old }
        requires quiet { IsQuiet self.old }
        requires put { AreAllPut self.old }
        requires room { HasRoom self.old.bounds }
        ensures goes_on { OnOk result (GoesOn self.old.level self.new.level) }
        ensures leaves { IfOk result (λ turn. Leaves turn self.new tally.new) }
        ensures more { OnOk result (units tally.old ≤ units tally.new) }
        ensures budget { OnOk result (tally.new.budget ≡ tally.old.budget) }
    {
        let _trail = self.level.search.trail();
        if let Some(lit) = self.choice(alloc)? {
            let decided = self.level.decide(&lit, tally)?;
            return Ok(if decided { Turn::Going } else { Turn::Spent });
        }
        match solve(alloc, &mut self.bounds.simplex, tally)? {
            Split::Point(point) => Ok(Turn::Found(point)),
            Split::Refuted(tree) => self.refuted(tree),
            Split::Spent => Ok(Turn::Spent),
        }
    }

    // Logs a tree that refutes the bounds.
    fn refuted(&mut self, tree: Tree) -> Result<Turn, NoMemory>
        requires mixed { IsMixed self.old }
        requires quiet { IsQuiet self.old }
        requires put { AreAllPut self.old }
        requires tree { IsRefutingTree self.old.bounds.simplex.bounds tree }
        ensures goes_on { OnOk result (GoesOn self.old.level self.new.level) }
        ensures comes { IfOk result (λ turn. Comes turn self.new) }
    {
        let _trail = self.level.search.trail();
        let learning = refuted(&mut self.level, tree)?;
        self.give_back();
        Ok(turned(learning))
    }

    // Gives back the bounds of literals that stand no more on the trail.
    fn give_back(&mut self)
        requires bounds { (more : List Lit) × AreBoundsOf self.old.level.system.now
            (self.old.level.search.trail.lits ++ more) self.old.bounds }
        requires ground { self.old.bounds.ground ≤ length self.old.level.search.trail.lits }
        ensures level { self.new.level ≡ self.old.level }
        ensures bounds { AreBoundsOf self.old.level.system.now
            self.old.level.search.trail.lits self.new.bounds }
        ensures ground { self.new.bounds.ground ≡ self.old.bounds.ground }
    {
        let trail = self.level.search.trail().len() as u32;
        self.bounds.give_back(trail);
    }
}

// What a turn comes to that learnt.
fn turned(learning: Learning) -> Turn
    ensures { result ≡ turned learning }
{
    match learning {
        Learning::Going => Turn::Going,
        Learning::Ended => Turn::Impossible,
        Learning::Spent => Turn::Spent,
    }
}

// The tree of one leaf.
fn leaf(alloc: Global, farkas: Farkas) -> Result<Tree, NoMemory>
    ensures { IfOk result (λ tree. tree.nodes ≡ node.Leaf farkas ∷ []) }
{
    let mut nodes = Nodes::new(alloc);
    nodes.push(Node::Leaf(farkas))?;
    Ok(Tree { nodes })
}
