use sat_lits::*;
use std::alloc::Global;
use std::test::Fail;

/// The literals of signed variables, as a log writes them.
fn literals(alloc: Global, signed: &[(u32, bool)]) -> Result<Vec<Lit>, Fail> {
    let mut lits = Vec::new(alloc);
    for (var, positive) in signed {
        if 1 <= *var && *var < 1 << 30 {
            lits.push(Lit::new(*var, *positive))?;
        }
    }
    Ok(lits)
}

#[test]
fn literals_have_codes(rt: HostRuntime) -> Result<(), Fail> {
    for (var, positive, code) in [(1, true, 2), (1, false, 3), (7, false, 15)] {
        if 1 <= var && var < 1 << 30 {
            let lit = Lit::new(var, positive);
            assert_eq!(rt; lit.code(), code);
            assert_eq!(rt; lit.var(), var);
            assert_eq!(rt; lit.is_positive(), positive);
            assert_eq!(rt; lit.negate(), Lit::new(var, !positive));
        }
    }
    Ok(())
}

#[test]
fn clauses_have_rising_variables(rt: HostRuntime) -> Result<(), Fail> {
    let alloc = rt.alloc();
    let rising = Clause::new(literals(alloc, &[(1, false), (2, true), (5, false)])?);
    let clause = rising.ok_or("rising variables")?;
    let copy = clause.try_clone(alloc).ok().ok_or("memory")?;
    assert_eq!(rt;
        copy.lits(),
        literals(alloc, &[(1, false), (2, true), (5, false)])?.as_slice()
    );
    assert!(rt; Clause::new(Vec::new(alloc)).is_some());
    assert!(rt; Clause::new(literals(alloc, &[(2, true), (1, true)])?).is_none());
    assert!(rt; Clause::new(literals(alloc, &[(3, true), (3, false)])?).is_none());
    Ok(())
}

#[test]
fn table_finds_what_it_was_given(rt: HostRuntime) -> Result<(), Fail> {
    let alloc = rt.alloc();
    let long = literals(alloc, &[(1, true), (2, false)])?;
    let unit = literals(alloc, &[(2, false)])?;
    let mut table = ClauseTable::new(alloc);
    table.insert(long.clone()?, 1).ok().ok_or("memory")?;
    table.insert(unit.clone()?, 2).ok().ok_or("memory")?;
    assert_eq!(rt; table.get(&long), Some(1));
    assert_eq!(rt; table.get(&unit), Some(2));
    assert_eq!(rt; table.get(&[]), None);
    table.remove(&long);
    assert_eq!(rt; table.get(&long), None);
    assert_eq!(rt; table.get(&unit), Some(2));
    Ok(())
}
