// Each public call once, with the values of the rules in words.
use rl_labels::{Carry, CutFault, Prior, Priors, Stamped, Truths, cut};
use rl_types::ActionId;
use std::test::Fail;

// Action 5 has the stamps 3 and 1, and action 4 has 2: so 5 comes first, and its later copy is removed.
#[test]
fn actions_in_order(rt: HostRuntime) -> Result<(), Fail> {
    let alloc = rt.alloc();
    let mut a = Stamped::new(alloc);
    a.add(3, 0, ActionId(5))?;
    a.add(1, 0, ActionId(5))?;
    let mut b = Stamped::new(alloc);
    b.add(2, 0, ActionId(4))?;
    let both = a.join(&b)?;
    let order = both.order_once()?;
    assert_eq!(rt; order.as_slice(), [ActionId(5), ActionId(4)].as_slice());
    let again = Stamped::of(alloc, both.restamp(7)?.items())?;
    assert_eq!(rt; again.items().len(), 3);
    for x in again.items() {
        assert_eq!(rt; x.major, 7);
    }
    Ok(())
}

// A later stamp replaces the value under a name; the higher value under the common name wins.
#[test]
fn priorities_cut(rt: HostRuntime) -> Result<(), Fail> {
    let alloc = rt.alloc();
    let mut low = Priors::new(alloc);
    low.set(1, 4, 9)?;
    low.set(1, 5, 0)?;
    let mut high = Priors::new(alloc);
    high.set(1, 3, 1)?;
    high.set(2, 6, 0)?;
    assert!(rt; high.beats(&low));
    assert!(rt; !low.beats(&high));
    assert_eq!(rt; low.lead(&high)?.items().len(), 2);
    let mut tables = Vec::new(alloc);
    tables.push(low)?;
    tables.push(high)?;
    let left = match cut(alloc, &tables) {
        Ok(left) => left,
        Err(CutFault::Cycle) => vec![in alloc; 7]?,
        Err(CutFault::Memory) => vec![in alloc; 8]?,
    };
    assert_eq!(rt; left.as_slice(), [1usize].as_slice());
    Ok(())
}

#[test]
fn carries(rt: HostRuntime) -> Result<(), Fail> {
    let alloc = rt.alloc();
    let mut one = Carry::none(alloc);
    one.actions.add(1, 0, ActionId(2))?;
    let table = [Prior {
        name: 1,
        stamp: 2,
        value: -1,
    }];
    one.table = Priors::of(alloc, &table)?;
    let two = one.restamped(alloc, 9)?;
    let both = one.with(alloc, &two)?;
    assert_eq!(rt; both.actions.items().len(), 2);
    let mut parts = Vec::new(alloc);
    parts.push(both.copy(alloc)?)?;
    parts.push(two)?;
    let all = Carry::all(alloc, &parts)?;
    assert_eq!(rt; all.actions.items().len(), 2);
    assert_eq!(rt; all.table.items().len(), 1);
    assert_eq!(rt; Truths(1).0, 1);
    Ok(())
}
