//! Petit cycles on machines of a few chips: answers worked by hand, long lists.

ghost use Rattle.std.specs.Prelude.{◌≡◌, ◌≤◌, ◌^◌};

use crate::scenario::{Scenario, plays};
use crate::scenarios::{OF_256_CHIPS, OF_FOUR_CHIPS, OF_ONE_CHIP, OF_TWO_CHIPS};
use std::alloc::Global;

/// The first scenario that does not go as it says, and the place of the step; 0 too where memory is lacking.
fn failing<const N: usize>(
    alloc: Global,
    chips: u16,
    scenarios: &[Scenario],
) -> Option<(&'static str, usize)>
    requires dimension { N ≤ 12 }
    requires chips { chips ≡ 2 ^ N }
{
    for scenario in scenarios {
        let place = match scenario.room {
            1 => plays::<N, 1>(alloc, chips, scenario.steps),
            2 => plays::<N, 2>(alloc, chips, scenario.steps),
            3 => plays::<N, 3>(alloc, chips, scenario.steps),
            4 => plays::<N, 4>(alloc, chips, scenario.steps),
            7 => plays::<N, 7>(alloc, chips, scenario.steps),
            15 => plays::<N, 15>(alloc, chips, scenario.steps),
            _ => None,
        };
        if place != Some(scenario.steps.len()) {
            return Some((scenario.name, place.unwrap_or(0)));
        }
    }
    None
}

#[test]
fn one_chip_goes_as_its_scenarios_say(rt: HostRuntime) {
    assert_eq!(rt; failing::<0>(rt.alloc(), 1, &OF_ONE_CHIP), None);
}

#[test]
fn two_chips_go_as_their_scenarios_say(rt: HostRuntime) {
    assert_eq!(rt; failing::<1>(rt.alloc(), 2, &OF_TWO_CHIPS), None);
}

#[test]
fn four_chips_go_as_their_scenarios_say(rt: HostRuntime) {
    assert_eq!(rt; failing::<2>(rt.alloc(), 4, &OF_FOUR_CHIPS), None);
}

#[test]
fn chips_far_apart_go_as_their_scenario_says(rt: HostRuntime) {
    assert_eq!(rt; failing::<8>(rt.alloc(), 256, &OF_256_CHIPS), None);
}
