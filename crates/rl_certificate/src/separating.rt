// Certificates of the first words.
ghost use Rattle.std.specs.Prelude.{◌≡◌, ◌+◌, ◌<◌, IfOk, MatchResult, length, map, All};
ghost use Rattle.rl_certificate.specs.Certificates.{do_homes_count, pairs_of, IsApart};
ghost use Rattle.rl_certificate.specs.Firsts.{AreOwnHomes, IsFirst, IsFirstApart, IsFirstWord, IsMade, IsDue};
ghost use Rattle.rl_certificate.specs.Founds.{AreFound, ArePairs, pair_of};
ghost use Rattle.rl_certificate.specs.PairTables.{AreTables};
ghost use Rattle.rl_certificate.specs.Tables.{words_of};
ghost use Rattle.rl_certificate.specs.Reduced.{IsReduced};

use crate::certificate::{Apart, Certificate};
use crate::fault::CertFault;
use crate::lists::{copied, push};
use crate::reach::accesses;
use crate::right::do_homes_count;
use crate::rounds::all_words;
use crate::steps::Steps;
use crate::table::Table;
use rl_minimal::MinFsm;
use rl_types::{Letter, MOST_CERTIFIED_STATES, Memory};
use std::alloc::Global;

// The words for pairs where homes count, and for those where they do not.
#[derive(Debug, Drop)]
struct Tables {
    with_homes: Table,
    without_homes: Table,
}

// The table for a pair.
fn table_for<'a>(min: &MinFsm, tables: &'a Tables, low: u32, high: u32) -> &'a Table
    requires low { low < length min.now.states }
    requires high { high < length min.now.states }
    requires tables { AreTables min.now tables.now }
    ensures { AreFound min.now (do_homes_count min.now low high) (words_of result.now) }
{
    if do_homes_count(min, low, high) {
        &tables.with_homes
    } else {
        &tables.without_homes
    }
}

// The first word that tells the pair apart.
fn word_for<'a>(min: &MinFsm, tables: &'a Tables, low: u32, high: u32) -> &'a [Letter]
    requires reduced { IsReduced min.now }
    requires homes { AreOwnHomes min.now }
    requires tables { AreTables min.now tables.now }
    requires first { 0 < low }
    requires ordered { low < high }
    requires there { high < length min.now.states }
    ensures { IsFirstWord min.now (do_homes_count min.now low high) low high result.now }
{
    let _ = min.states();
    match table_for(min, tables, low, high).word(low, high) {
        Some(word) => word,
        None => unreachable!(),
    }
}

// The pair with its first word.
fn apart_for(
    alloc: Global,
    min: &MinFsm,
    tables: &Tables,
    low: u32,
    high: u32,
) -> Result<Apart, Memory>
    requires reduced { IsReduced min.now }
    requires homes { AreOwnHomes min.now }
    requires tables { AreTables min.now tables.now }
    requires first { 0 < low }
    requires ordered { low < high }
    requires there { high < length min.now.states }
    ensures low { IfOk result (λ p. p.low ≡ low) }
    ensures high { IfOk result (λ p. p.high ≡ high) }
    ensures first { IfOk result (λ p. IsFirstApart min.now p) }
{
    let word = copied(alloc, word_for(min, tables, low, high))?;
    Ok(Apart { low, high, word })
}

// Puts behind the others the pairs of this low state.
fn add_pairs(
    alloc: Global,
    min: &MinFsm,
    tables: &Tables,
    low: u32,
    apart: &mut Vec<Apart>,
) -> Result<(), Memory>
    requires reduced { IsReduced min.now }
    requires homes { AreOwnHomes min.now }
    requires tables { AreTables min.now tables.now }
    requires first { 0 < low }
    requires there { low < length min.now.states }
    requires before { ArePairs min.now apart.old.items low (low + 1) }
    ensures { IfOk result (λ _. ArePairs min.now apart.new.items (low + 1) (low + 2)) }
{
    let states = min.states();
    for high in low + 1..states {
        let pair = apart_for(alloc, min, tables, low, high)?;
        push(apart, pair)?;
    }
    Ok(())
}

// The tables of all pairs.
fn found_words(alloc: Global, min: &MinFsm) -> Result<Tables, Memory>
    ensures { IfOk result (AreTables min.now) }
{
    let steps = Steps::new(alloc, min)?;
    let with_homes = all_words(alloc, min, &steps, true)?;
    let without_homes = all_words(alloc, min, &steps, false)?;
    Ok(Tables {
        with_homes,
        without_homes,
    })
}

// The first word for each pair of states but Error, ascending.
fn pairs(alloc: Global, min: &MinFsm) -> Result<Vec<Apart>, Memory>
    requires reduced { IsReduced min.now }
    requires homes { AreOwnHomes min.now }
    ensures pairs { IfOk result (λ apart. map pair_of apart.items ≡ pairs_of (length min.now.states)) }
    ensures right { IfOk result (λ apart. All (IsApart min.now) apart.items) }
    ensures first { IfOk result (λ apart. All (IsFirstApart min.now) apart.items) }
{
    let tables = found_words(alloc, min)?;
    let mut apart = Vec::new(alloc);
    for low in 1..min.states() {
        add_pairs(alloc, min, &tables, low, &mut apart)?;
    }
    Ok(apart)
}

// The certificate of the first words.
fn certificate(alloc: Global, min: &MinFsm) -> Result<Certificate, Memory>
    requires reduced { IsReduced min.now }
    requires homes { AreOwnHomes min.now }
    ensures { IfOk result (IsFirst min.now) }
{
    let access = accesses(alloc, min)?;
    let apart = pairs(alloc, min)?;
    Ok(Certificate { access, apart })
}

/// The certificate of a machine in which each state but Error is reached, no two are alike, and each scanner's start is
/// its own home: of each state the first word that leads to it, by length, then entry, and then letters by key and
/// truths; and of each pair the first word, by length and then letters, after which the two show different things (this
/// profile). `TooMany` comes exactly where there are more than 256 states besides Error, with their number; `Memory` is
/// want of memory.
pub fn separate(alloc: Global, min: &MinFsm) -> Result<Certificate, CertFault>
    requires reduced { IsReduced min.now }
    requires homes { AreOwnHomes min.now }
    ensures { MatchResult result (IsMade min.now) (IsDue min.now) }
{
    let count = min.states() - 1;
    if count > MOST_CERTIFIED_STATES {
        return Err(CertFault::TooMany(count));
    }
    match certificate(alloc, min) {
        Ok(certificate) => Ok(certificate),
        Err(Memory) => Err(CertFault::Memory),
    }
}
