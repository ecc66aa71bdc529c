//! The calls on a flat model of one variable x of `0..3` and the nodes 2, x and x < 2.

ghost use Rattle.std.specs.Prelude.{◌≡◌, ◌<◌, ℕ, [], ◌∷◌, length, IfOk};
ghost use Rattle.flat_model.specs.Soundness.{IsSound};
ghost use Rattle.flat_model.specs.Variables.{ArePositions};

use flat_model::*;
use fsmv_base::{List, NoMemory, Text};
use std::alloc::Global;
use std::test::Fail;

fn below_two(alloc: Global) -> Result<Flat, NoMemory>
    ensures sound { IfOk result (λ flat. IsSound flat) }
    ensures three_nodes { IfOk result (λ flat. length flat.nodes ≡ 3) }
    ensures positions { IfOk result (λ flat. (k : ℕ) → k < 4 → ArePositions flat.vars (k ∷ [])) }
{
    let mut vars = List::new(alloc);
    vars.push(FlatVar {
        path: Text::from_str(alloc, "x")?,
        values: Values::Range { low: 0 },
        count: 4,
        owner: None,
    })?;
    let nodes = [FlatNode::Const(2), FlatNode::Now(0), FlatNode::Lt(1, 0)];
    Ok(Flat {
        features: 0,
        vars,
        symbols: List::new(alloc),
        symbolic: List::from_slice(alloc, &[false])?,
        nodes: List::from_slice(alloc, &nodes)?,
        init: List::new(alloc),
        inside: List::new(alloc),
        step: List::new(alloc),
        model: 2,
        specs: List::new(alloc),
    })
}

/// The values of the nodes where x is `position` now and 0 after.
fn values_at(flat: &Flat, position: u32) -> [i64; 3]
    requires sound { IsSound flat.now }
    requires three_nodes { length flat.now.nodes ≡ 3 }
    requires now { ArePositions flat.now.vars (position ∷ []) }
    requires after { ArePositions flat.now.vars (0 ∷ []) }
{
    let mut values = [9; 3];
    fill_values(flat, &[position], &[0], &mut values);
    values
}

fn intervals_of(flat: &Flat) -> [Interval; 3]
    requires sound { IsSound flat.now }
    requires three_nodes { length flat.now.nodes ≡ 3 }
{
    let mut intervals = [Interval { low: 9, high: 9 }; 3];
    fill_intervals(flat, &mut intervals);
    intervals
}

#[test]
fn fills_cells(rt: HostRuntime) -> Result<(), Fail> {
    match below_two(rt.alloc()) {
        Ok(flat) => {
            assert_eq!(rt; values_at(&flat, 1), [2, 1, 1]);
            assert_eq!(rt; values_at(&flat, 3), [2, 3, 0]);
            let [two, x, below] = intervals_of(&flat);
            assert_eq!(rt; (two.low, two.high), (2, 2));
            assert_eq!(rt; (x.low, x.high), (0, 3));
            assert_eq!(rt; (below.low, below.high), (0, 1));
            Ok(())
        }
        Err(_) => Err(Fail::from("memory")),
    }
}
