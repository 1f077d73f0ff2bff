//! Laws of pokes: what each function is named for holds, of every machine.

ghost use Rattle.cm_array.specs.PokeLaws.{PokesKeepMachines, FlagPokesKeepMachines};

/// With another bit in memory a machine is a machine still, and its account is the same.
pub fn pokes_keep_machines()
    ensures { PokesKeepMachines }
{}

/// With another bit in a flag too.
pub fn flag_pokes_keep_machines()
    ensures { FlagPokesKeepMachines }
{}
