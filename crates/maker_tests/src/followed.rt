//! Who follows how products are made sees the stages in their order.

use crate::made::{elevation, one_tile};
use drain_grid::{Sinks, Spacing, Spacings};
use drain_maker::make_freeing;
use drain_sets::{Follow, Stage};
use std::alloc::Global;
use std::process::Abort;
use std::test::Fail;

/// The first stages that began, and how many did.
#[derive(Drop)]
struct Begun {
    first: [Option<Stage>; 5],
    number: usize,
}

impl Follow for Begun {
    fn begin(&mut self, stage: Stage) {
        if let Some(place) = self.first.get_mut(self.number) {
            *place = Some(stage);
        }
        self.number = self.number.saturating_add(1);
    }
}

/// The stages that begin when products of a tile of side 3 with a pit are made.
fn begun_with_a_pit(alloc: Global) -> Result<Begun, Fail> {
    let layout = one_tile(alloc, 3)?;
    let samples = Vec::from_slice(alloc, &[5, 5, 5, 5, 1, 5, 5, 5, 5])?;
    let elevation = elevation(&layout, samples)?;
    let mut begun = Begun {
        first: [None; 5],
        number: 0,
    };
    let sinks = Sinks::none(alloc);
    let spacings = Spacings::same(alloc, Spacing::unit());
    make_freeing(alloc, &layout, elevation, &sinks, &spacings, &mut begun)?;
    Ok(begun)
}

#[test]
fn stages_begin_in_their_order(rt: HostRuntime) -> Result<(), Fail> {
    let begun = begun_with_a_pit(rt.alloc())?;
    let expected = [
        Some(Stage::Surface),
        Some(Stage::Directions),
        Some(Stage::Counts),
        Some(Stage::Labels),
        None,
    ];
    let first = begun.first;
    assert_eq!(rt; (first, begun.number), (expected, 4));
    Ok(())
}
