//! The lists of a script are the compiled ones, and are set at the right places.
ghost use Rattle.cqf_program_tc.specs.Calls.{ScriptsCallWhatIsDue};
ghost use Rattle.cqf_program_tc.specs.Laws.{InstantsFit, ListsBeginAnew, ScriptsHoldTheLists};
ghost use Rattle.cqf_program_tc.specs.Variables.{VariablesAreApart};
ghost use Rattle.cqf_program_tc.specs.Wanted.{EnvHasWhatTheScriptWants};

/// The words of a script's lists, read back, are the compiled lists. Those of a port are read as the list of each port of the domain. Those
/// of a stream's gate, with the octets of a reservation as their parameter, are read as the list of the gate of a stream that is offered in
/// each cycle. Those of the call for a stream that pauses are read as the list of its gate at the bridge. No law says what a network does
/// with these words.
pub fn scripts_hold_the_lists()
    ensures { ScriptsHoldTheLists }
{}

/// The text of a script, read line by line, has one function for each bridge. It calls `link` once for each link that leaves the bridge,
/// with that link's interface. After these it calls `gate` once for each stream that leaves the bridge, with the interface over which the
/// stream arrives, its index, its address and VLAN, and its octets; for a stream that pauses it calls `gate_by_list` with its list in place
/// of the octets. It makes no other calls of them. `link` has the words of the list to which each port of the domain is compiled, `gate`
/// those of the list of a stream's gate, and `gate_by_list` takes them from the call.
pub fn scripts_call_what_is_due()
    ensures { ScriptsCallWhatIsDue }
{}

/// The lists of a script all begin anew at the same time: its BASE is moved to a multiple of a number of cycles, and after this number of
/// cycles each stream's gate has gone through its list a whole number of times, and so has each port.
pub fn lists_begin_anew()
    ensures { ListsBeginAnew }
{}

/// In a script no two links of a domain have the same variable, and no two of the streams whose names have the form of names. If an earlier
/// link or stream already has the word of a name, its number follows the word, after a capital letter, which no name has.
pub fn variables_are_apart()
    ensures { VariablesAreApart }
{}

/// The variable file of a bridge, read line by line, sets exactly those variables that the script's function of the bridge requires, in the
/// order of their lines there, after the two that hold for the whole script. Interfaces have names of the form that a reader gives them.
pub fn env_has_what_the_script_wants()
    ensures { EnvHasWhatTheScriptWants }
{}

/// For each instant that a script accepts for BASE, the next multiple of the time after which all lists begin anew is less than that time
/// after the instant, and below 2^63, so that a shell's numbers hold it.
pub fn instants_fit()
    ensures { InstantsFit }
{}
