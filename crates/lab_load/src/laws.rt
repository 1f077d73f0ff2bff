//! Laws over the definitions: values that are known from elsewhere, so that a wrong rule is not proved.

ghost use Rattle.lab_load.specs.Conserved.{StoodAreDeliveredOrStand, TakenAreDeliveredOrStand};
ghost use Rattle.lab_load.specs.Laws.{ChipsAndDimensionsAgree, FaultsComeInOrder, LatenciesAreToldSo, LoadsAreToldSo};
ghost use Rattle.lab_load.specs.Laws.{PatternsAimSo, SpreadsAreToldSo};

/// On four chips a place has six bits, on eight seven: of these places messages go to those, whatever is drawn.
pub fn patterns_aim_so()
    ensures { PatternsAimSo }
{}

/// Of three messages, and of none: how long they took; and the line of a load.
pub fn loads_are_told_so()
    ensures { LoadsAreToldSo }
{}

/// Of four messages, and of none: how many took how long; the name of a rate's column, cells of a line, and the table
/// of two loads, under each of which one message was delivered.
pub fn latencies_are_told_so()
    ensures { LatenciesAreToldSo }
{}

/// Quantiles; the square of the half width of two loads, that of 12.707 times half their difference; and the line of
/// the loads of a rate.
pub fn spreads_are_told_so()
    ensures { SpreadsAreToldSo }
{}

/// A trial in which nothing is in its range has this first fault; with this one mended it has the next one, and so on.
pub fn faults_come_in_order()
    ensures { FaultsComeInOrder }
{}

/// Under every load all chips together and all dimensions together have the same crossings, referrals and refusals.
pub fn chips_and_dimensions_agree()
    ensures { ChipsAndDimensionsAgree }
{}

/// Under every load as many messages are taken in as are delivered or stand in a router at the end.
pub fn messages_are_delivered_or_stand()
    ensures taken { TakenAreDeliveredOrStand }
    ensures stood { StoodAreDeliveredOrStand }
{}
