use gate_build::*;
use sat_lits::Lit;
use std::test::Fail;

#[test]
fn shares_gates(rt: HostRuntime) -> Result<(), Fail> {
    let mut gates = Gates::new(rt.alloc())?;
    let a = gates.input()?;
    let b = gates.input()?;
    assert_eq!(rt; gates.and(a, b)?, Lit::new(4, true));
    assert_eq!(rt; gates.and(b, a)?, Lit::new(4, true));
    assert_eq!(rt; gates.and(a, a.negate())?, Lit::new(1, false));
    assert_eq!(rt; gates.vars(), 4);
    assert_eq!(rt; gates.clauses().len(), 4);
    Ok(())
}

#[test]
fn makes_connectives(rt: HostRuntime) -> Result<(), Fail> {
    let mut gates = Gates::new(rt.alloc())?;
    let a = gates.input()?;
    let b = gates.input()?;
    assert_eq!(rt; gates.or(a, b)?, Lit::new(4, false));
    assert_eq!(rt; gates.xor(a, b)?, Lit::new(7, false));
    // The gate of -2 and 3 is that of the exclusive disjunction.
    assert_eq!(rt; gates.mux(a, b, b)?, Lit::new(9, false));
    Ok(())
}

#[test]
fn goes_over_lists(rt: HostRuntime) -> Result<(), Fail> {
    let mut gates = Gates::new(rt.alloc())?;
    let a = gates.input()?;
    let b = gates.input()?;
    assert_eq!(rt; gates.all(&[a, b])?, Lit::new(4, true));
    assert_eq!(rt; gates.any(&[a, b])?, Lit::new(5, false));
    Ok(())
}
