//! What a step or a final configuration carries.
ghost use Rattle.std.specs.Prelude.{◌≡◌, ◌++◌, IfOk, map};
ghost use Rattle.rl_sets.specs.Sets.{joined};
ghost use Rattle.rl_labels.specs.Labels.{restamp};
ghost use Rattle.rl_labels.specs.Carries.{all_of, both_of, no_carry, actions_of, tables_of};

use crate::lists::{chained, extend};
use crate::priors::{Prior, Priors};
use crate::stamped::{Stamp, Stamped};
use rl_types::Memory;
use std::alloc::Global;

/// What a step carries, or what a final configuration puts on the steps that leave it: stamped actions and a table
/// of priorities.
#[derive(Debug, Drop)]
pub struct Carry {
    pub actions: Stamped,
    pub table: Priors,
}

// The members of all sets of actions, one set after another.
#[tactic(auto, using(crate::proofs::Gathered::gathers))]
fn all_stamps(alloc: Global, parts: &[Carry]) -> Result<Vec<Stamp>, Memory>
    ensures { IfOk result (λ v. v.items ≡ joined (map actions_of parts.now)) }
{
    let mut stamps: Vec<Stamp> = Vec::new(alloc);
    for part in parts {
        extend(&mut stamps, part.actions.items())?;
    }
    Ok(stamps)
}

// The entries of all tables, one table after another.
#[tactic(auto, using(crate::proofs::Gathered::gathers))]
fn all_priors(alloc: Global, parts: &[Carry]) -> Result<Vec<Prior>, Memory>
    ensures { IfOk result (λ v. v.items ≡ joined (map tables_of parts.now)) }
{
    let mut priors: Vec<Prior> = Vec::new(alloc);
    for part in parts {
        extend(&mut priors, part.table.items())?;
    }
    Ok(priors)
}

impl Carry {
    /// No actions, and no priorities.
    pub fn none(alloc: Global) -> Carry
        ensures { result ≡ no_carry }
    {
        Carry {
            actions: Stamped::new(alloc),
            table: Priors::new(alloc),
        }
    }

    /// The actions of all, and under each name the entry with the greatest stamp, of equal stamps the one with the
    /// greatest value. An `Err` is want of memory.
    pub fn all(alloc: Global, parts: &[Carry]) -> Result<Carry, Memory>
        ensures { IfOk result (λ c. c ≡ all_of parts.now) }
    {
        let stamps = all_stamps(alloc, parts)?;
        let priors = all_priors(alloc, parts)?;
        Ok(Carry {
            actions: Stamped::of(alloc, &stamps)?,
            table: Priors::of(alloc, &priors)?,
        })
    }

    /// What both carry. An `Err` is want of memory.
    pub fn with(&self, alloc: Global, other: &Carry) -> Result<Carry, Memory>
        ensures { IfOk result (λ c. c ≡ both_of self.now other.now) }
    {
        let stamps = chained(alloc, self.actions.items(), other.actions.items())?;
        let priors = chained(alloc, self.table.items(), other.table.items())?;
        Ok(Carry {
            actions: Stamped::of(alloc, &stamps)?,
            table: Priors::of(alloc, &priors)?,
        })
    }

    /// The same, in memory of its own. An `Err` is want of memory.
    pub fn copy(&self, alloc: Global) -> Result<Carry, Memory>
        ensures { IfOk result (λ c. c ≡ self.now) }
    {
        Ok(Carry {
            actions: self.actions.copy(alloc)?,
            table: self.table.copy(alloc)?,
        })
    }

    /// The same with its actions restamped: the i-th, from 0, has the stamp (base, i). An `Err` is want of memory.
    pub fn restamped(&self, alloc: Global, base: u32) -> Result<Carry, Memory>
        ensures { IfOk result (λ c. c ≡ record { actions = restamp base self.now.actions; table = self.now.table }) }
    {
        Ok(Carry {
            actions: self.actions.restamp(base)?,
            table: self.table.copy(alloc)?,
        })
    }
}
